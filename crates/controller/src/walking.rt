// The live list: a recursive walk from the committed revision; each hop goes to r.index until 0 or a folded number.
ghost use Rattle.std.specs.Prelude.{◌≡◌, true, ◌+◌, ◌*◌, ◌/◌, ◌%◌, ◌≤◌, ◌<◌, length, take, set};
ghost use Rattle.machine.specs.State.{entry_of};
ghost use Rattle.image.specs.Layout.{slots};
ghost use Rattle.image.specs.View.{view};
ghost use Rattle.image.specs.Formed.{formed};
ghost use Rattle.controller.specs.Claims.{Entry};
ghost use Rattle.controller.specs.Live.{listing, Lists, ListsLive, Chained, Linked, Passing, Walks};

use image::{COMMITTED_AT, RING, last_fold, load_entry, load_head, well_formed};

// The refusal, or 0, and the length of the list.
#[derive(Clone, Copy)]
pub struct Listed {
    pub answer: u8,
    pub length: u16,
}

// Where a hop from an entry goes: to a lower number.
pub fn hop(s: &[u8], v: u16) -> u16
    requires { Entry s.now v }
    ensures { (result ≡ (entry_of (view s.now).log v).index.0) × (result < v) }
{
    let t = load_entry(s, v);
    let i = t.index;
    i.get()
}

// A number at a place of the room: two bytes, the low one first.
fn put_number(room: &mut [u8], at: usize, v: u16)
    requires { at + 2 ≤ length room.old }
    ensures { room.new ≡ set (set room.old at (v % 256)) (at + 1) (v / 256) }
{
    room[at] = (v % 256) as u8;
    room[at + 1] = (v / 256) as u8;
}

// The links of the chain: where a hop goes from v and from each number kept below it, v's first.
fn links(s: &[u8], b: u16, v: u16, chain: &mut [u16; RING])
    requires { Chained s.now b v × (length chain.old ≡ slots) }
    ensures { Linked s.now b v v chain.new }
{
    for i in (b..v).rev() {
        let k = (v - (i + 1)) as usize;
        chain[k] = hop(s, i + 1);
    }
}

// Walks the chain from v on and answers how many numbers it met. The link of a number lies as many places on as the number is below
// the top; the numbers are listed from a place on, over links that were passed. It has the links in hand and no slice, so that the
// compiler makes a loop of it and a hop takes no stack.
fn walk(chain: &mut [u16; RING], top: u16, b: u16, v: u16, at: usize) -> u16
    requires { Passing chain.old top b v at }
    ensures { Walks chain.old top b v at result chain.new }
{
    if v <= b {
        return 0;
    }
    let k = (top - v) as usize;
    let next = chain[k];
    chain[at] = v;
    walk(chain, top, b, next, at + 1) + 1
}

// Puts the first n of a list at the start of the room.
fn put_list(room: &mut [u8], list: &[u16; RING], n: usize)
    requires { (length list.now ≡ slots) × ((n ≤ slots) × (2 * n ≤ length room.old)) }
    ensures { room.new ≡ (listing (take n list.now) room.old).room }
{
    for k in 0..n {
        put_number(room, 2 * k, list[k]);
    }
}

fn list(s: &[u8], room: &mut [u8]) -> Listed
    requires { formed s.now ≡ true }
    ensures { ListsLive s.now room.old result room.new }
{
    let h = load_head(s, COMMITTED_AT);
    let v = h.revision.get();
    let b = last_fold(s);
    let mut chain = [0u16; RING];
    links(s, b, v, &mut chain);
    let n = walk(&mut chain, v, b, v, 0);
    if n as usize <= room.len() / 2 {
        put_list(room, &chain, n as usize);
        return Listed {
            answer: 0,
            length: n,
        };
    }
    Listed {
        answer: 14,
        length: 0,
    }
}

// The live list, newest first, in the room lent, two bytes a number, and its length; room past it stays. Refuses 1, 14.
pub fn live(s: &[u8], room: &mut [u8]) -> Listed
    ensures { Lists s.now room.old result room.new }
{
    if well_formed(s) {
        return list(s, room);
    }
    Listed {
        answer: 1,
        length: 0,
    }
}

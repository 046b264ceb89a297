// Four statuses in one number of two bytes (order 12): each side is commit × 7 + apply, and the number is the change's × 49 +
// the rollback's. What is above 2,400 is no such number: `formed` refuses it.
ghost use Rattle.std.specs.Prelude.{◌≡◌, ◌≤◌};
ghost use Rattle.image.specs.Packed.{packed_of, change_in, rollback_in, commit_in, apply_in};

use kinds::{Status, Transaction};

// The four statuses of a transaction.
pub fn pack(t: Transaction) -> u16
    ensures { result ≡ packed_of t }
{
    let statuses = [
        t.change.commit,
        t.change.apply,
        t.rollback.commit,
        t.rollback.apply,
    ];
    let mut packed = 0;
    for status in statuses {
        packed = packed * 7 + u16::from(status.code());
    }
    packed
}

// The change's two.
pub fn change_in(n: u16) -> u16
    ensures { result ≡ change_in n }
{
    n / 49
}

// The rollback's two.
pub fn rollback_in(n: u16) -> u16
    ensures { result ≡ rollback_in n }
{
    n % 49
}

// The commit status of a side's two, of which 1,337 is the most that two bytes have (65,535 / 49).
pub fn commit_in(h: u16) -> Status
    requires { h ≤ 1337 }
    ensures { result ≡ commit_in h }
{
    Status::of((h / 7) as u8)
}

// The apply status of a side's two.
pub fn apply_in(h: u16) -> Status
    ensures { result ≡ apply_in h }
{
    Status::of((h % 7) as u8)
}

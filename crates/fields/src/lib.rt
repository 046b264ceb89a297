// Numbers of one, two and four bytes, little-endian, in a lent slice of bytes.
#![tactic(auto)]

ghost use Rattle.std.specs.Prelude.{◌≡◌, ℕ, ◌+◌, ◌*◌, ◌≤◌, List, length, map};
ghost use Rattle.fields.specs.Field.{four};
ghost use Rattle.fields.specs.Promises.{Gets, GetsFour, Puts, PutsFour};
ghost use Rattle.fields.specs.Numbers.{numbers_are, number_tells};

// A number that lies in bytes, little-endian.
pub trait Field: Copy {
    // How many bytes it takes.
    ghost WIDTH: { ℕ };

    // The number that it is, and those of a list.
    ghost number: { Self → ℕ };

    ghost numbers: { List Self → List ℕ };

    const WIDTH: usize;

    fn of_bytes(bytes: &[u8]) -> Self
        requires { length bytes.now ≡ WIDTH }
        ensures { Gets bytes.now 0 WIDTH (number result) };

    fn put_bytes(self, bytes: &mut [u8])
        requires { length bytes.old ≡ WIDTH }
        ensures { Puts bytes.old 0 WIDTH (number self) bytes.new };

    ghost each: { (xs : List Self) → numbers xs ≡ map number xs };

    ghost tells: { (x y : Self) → number x ≡ number y → x ≡ y };
}

impl Field for u8 {
    ghost WIDTH = { 1 };

    ghost number = { λ x. x };

    ghost numbers = { λ xs. xs };

    ghost each = { numbers_are };

    ghost tells = { number_tells };

    const WIDTH: usize = 1;

    fn of_bytes(bytes: &[u8]) -> u8 {
        bytes[0]
    }

    fn put_bytes(self, bytes: &mut [u8]) {
        bytes[0] = self;
    }
}

impl Field for u16 {
    ghost WIDTH = { 2 };

    ghost number = { λ x. x };

    ghost numbers = { λ xs. xs };

    ghost each = { numbers_are };

    ghost tells = { number_tells };

    const WIDTH: usize = 2;

    fn of_bytes(bytes: &[u8]) -> u16 {
        u16::from_le_bytes([bytes[0], bytes[1]])
    }

    fn put_bytes(self, bytes: &mut [u8]) {
        bytes.copy_from_slice(&self.to_le_bytes());
    }
}

impl Field for u32 {
    ghost WIDTH = { 4 };

    ghost number = { λ x. x };

    ghost numbers = { λ xs. xs };

    ghost each = { numbers_are };

    ghost tells = { number_tells };

    const WIDTH: usize = 4;

    fn of_bytes(bytes: &[u8]) -> u32 {
        u32::from_le_bytes([bytes[0], bytes[1], bytes[2], bytes[3]])
    }

    fn put_bytes(self, bytes: &mut [u8]) {
        bytes.copy_from_slice(&u32::to_le_bytes(self));
    }
}

// The number at a place.
pub fn get<T: Field>(s: &[u8], at: usize) -> T
    requires { at + T.WIDTH ≤ length s.now }
    ensures { Gets s.now at T.WIDTH (T.number result) }
{
    T::of_bytes(&s[at..at + T::WIDTH])
}

// A number, put at a place.
pub fn put<T: Field>(s: &mut [u8], at: usize, x: T)
    requires { at + T.WIDTH ≤ length s.old }
    ensures { Puts s.old at T.WIDTH (T.number x) s.new }
{
    x.put_bytes(&mut s[at..at + T::WIDTH]);
}

// Four numbers, one after another.
pub fn get_four<T: Field>(s: &[u8], at: usize) -> [T; 4]
    requires { at + 4 * T.WIDTH ≤ length s.now }
    ensures { GetsFour s.now at (four T.WIDTH) (T.numbers result) }
{
    let width = T::WIDTH;
    [
        get(s, at),
        get(s, at + width),
        get(s, at + 2 * width),
        get(s, at + 3 * width),
    ]
}

// Four numbers, put one after another.
pub fn put_four<T: Field>(s: &mut [u8], at: usize, x: [T; 4])
    requires { at + 4 * T.WIDTH ≤ length s.old }
    ensures { PutsFour s.old at (four T.WIDTH) (T.numbers x) s.new }
{
    let width = T::WIDTH;
    put(s, at, x[0]);
    put(s, at + width, x[1]);
    put(s, at + 2 * width, x[2]);
    put(s, at + 3 * width, x[3]);
}

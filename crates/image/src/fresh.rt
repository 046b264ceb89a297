// A fresh image, made in place.
ghost use Rattle.std.specs.Prelude.{◌≡◌, length};
ghost use Rattle.image.specs.Layout.{image_length};
ghost use Rattle.image.specs.Promises.{MakesFresh};

use crate::layout::{CONFIGURATION_AT, REMEMBERS_AT};
use fields::put;

// The fresh image, whatever stood there: every byte 0 but the configuration's state, Pending, and where the target remembers
// the byte that says so.
pub fn make_fresh(s: &mut [u8], remembers: bool)
    requires { length s.old ≡ image_length }
    ensures { MakesFresh s.old remembers s.new }
{
    s.fill(0);
    put(s, CONFIGURATION_AT, 1u8);
    put(s, REMEMBERS_AT, u8::from(remembers));
}

// A fresh image, made in place.
ghost use Rattle.controller.specs.Fresh.{Freshens};

use image::{IMAGE_LENGTH, make_fresh};
use kinds::Reply;

// Makes a fresh image, whatever stood there, of a switch that remembers (1) or forgets (0); refuses 1 where the length is another,
// then 2 where it is neither.
pub fn fresh(s: &mut [u8], remembers: u16) -> Reply
    ensures { Freshens s.old remembers result s.new }
{
    if s.len() == IMAGE_LENGTH {
        if remembers <= 1 {
            make_fresh(s, remembers == 1);
            return Reply::of(0);
        }
        return Reply::of(2);
    }
    Reply::of(1)
}

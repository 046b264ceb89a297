// What a program says where it stopped before all that its input asks was written.
ghost use Rattle.std.specs.Prelude.{Some};
ghost use Rattle.lines.specs.Failures.{failure_text};

use std::fmt;

#[derive(Clone, Copy)]
pub enum Failure {
    Unread,
    Unwritten,
}

impl fmt::Display for Failure {
    ghost output = { λ x. Some (failure_text x) };

    fn fmt<W: fmt::Write>(&self, f: &mut fmt::Formatter<W>) -> fmt::Result {
        f.write_str(match self {
            Failure::Unread => "standard input cannot be read",
            Failure::Unwritten => "standard output cannot be written",
        })
    }
}

ghost use Rattle.std.specs.Prelude.{◌≡◌, Some};
ghost use Rattle.refusal.specs.Texts.{refused_text};

use crate::Refusal;
use std::fmt;

// A refusal with the line of a script that it is in, from 1, or 0 outside of the lines: a number, as it is printed.
#[derive(Clone, Copy, PartialEq, Eq, Debug)]
pub struct Refused {
    pub line: u64,
    pub refusal: Refusal,
}

// A refusal outside of the lines.
impl From<Refusal> for Refused {
    ghost from_gives = { λ refusal r. r ≡ record { line = 0; refusal = refusal } };

    fn from(refusal: Refusal) -> Refused {
        Refused { line: 0, refusal }
    }
}

impl fmt::Display for Refused {
    ghost output = { λ v. Some (refused_text v) };

    fn fmt<W: fmt::Write>(&self, f: &mut fmt::Formatter<W>) -> fmt::Result {
        let number = self.refusal.number;
        let line = self.line;
        let side = self.refusal.side_number();
        let p = self.refusal.p;
        let q = self.refusal.q;
        write!(f, "REFUSE {number} {line} {side} {p} {q}")
    }
}

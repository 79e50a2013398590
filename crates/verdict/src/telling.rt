ghost use Rattle.std.specs.Prelude.{Some};
ghost use Rattle.verdict.specs.Verdicts.{verdict_text};

use crate::opened::Verdict;
use std::fmt;

impl fmt::Display for Verdict {
    ghost output = { λ v. Some (verdict_text v) };

    fn fmt<W: fmt::Write>(&self, f: &mut fmt::Formatter<W>) -> fmt::Result {
        match *self {
            Verdict::Accept(typed) => {
                let near = typed.near;
                let far = typed.far;
                write!(f, "ACCEPT {near} {far}")
            }
            Verdict::Refuse(refused) => write!(f, "{refused}"),
        }
    }
}

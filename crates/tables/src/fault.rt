ghost use Rattle.std.specs.Prelude.{◌≡◌};
ghost use Rattle.tables.specs.Faults.{refusal_of};

use refusal::Refusal;

// What is wrong with a table of labels.
#[derive(Clone, Copy, Debug)]
pub enum TableFault {
    // The number of rows is not 1 to 32.
    Rows,
    // So many levels and compartments are not allowed.
    Limits { levels: u64, compartments: u64 },
    // The label does not flow to itself.
    NotReflexive { label: u64 },
    // Two different labels flow to each other.
    NotAntisymmetric { a: u64, b: u64 },
    // Label a flows to b, and b to a label that a does not flow to.
    NotTransitive { a: u64, b: u64 },
    // The two labels have no least upper label.
    NoJoin { a: u64, b: u64 },
    // The two labels have no greatest lower label.
    NoMeet { a: u64, b: u64 },
}

// The refusal that names a fault.
impl From<TableFault> for Refusal {
    ghost from_gives = { λ fault refusal. refusal ≡ refusal_of fault };

    fn from(fault: TableFault) -> Refusal {
        let (number, p, q) = match fault {
            TableFault::Rows => (4, 0, 0),
            TableFault::Limits {
                levels,
                compartments,
            } => (4, u128::from(levels), compartments),
            TableFault::NotReflexive { label } => (4, u128::from(label), label),
            TableFault::NotAntisymmetric { a, b } | TableFault::NotTransitive { a, b } => (
                4,
                u128::from(a),
                b,
            ),
            TableFault::NoJoin { a, b } | TableFault::NoMeet { a, b } => (5, u128::from(a), b),
        };
        Refusal {
            number,
            side: None,
            p,
            q,
        }
    }
}

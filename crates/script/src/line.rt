use fixed::FixedList;
use refusal::Side;

// One assignment of a compute: a number that stands for its operation, its target, and what the operation takes.
// Any numbers may be handed in; of a read one what the operation does not take is 0.
#[derive(Clone, Copy)]
pub struct Assignment {
    pub operation: u64,
    pub target: u64,
    pub constant: u64,
    pub left: u64,
    pub right: u64,
}

impl Assignment {
    pub const BLANK: Assignment = Assignment {
        operation: 0,
        target: 0,
        constant: 0,
        left: 0,
        right: 0,
    };
}

// A line of a script.
#[derive(Clone, Copy)]
pub enum Line {
    Compute {
        side: Side,
        assignments: FixedList<Assignment, 8>,
    },
    Fetch {
        side: Side,
        target: u64,
        source: u64,
    },
    Store {
        side: Side,
        target: u64,
        source: u64,
    },
    Outward {
        target: u64,
        source: u64,
    },
    Inward {
        target: u64,
        source: u64,
    },
}

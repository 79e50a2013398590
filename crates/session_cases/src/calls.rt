// A table of calls in order, with the answer to each. The near labels are a diamond, with 0 below 1 and 2, and 3 above them;
// the far labels are 0 below 1. Going out, all near labels but 0 are far label 1, which comes back as 3.
use crate::driver::{Answer, Call, Setting};
use agreement::{Agreement, Item};
use refusal::Side;
use script::Assignment;

// The roles by their numbers, as the rules write them: what a test expects is not taken from the code.
const WORKING: u64 = 0;

const IMPORT: u64 = 1;

const EXPORT: u64 = 2;

pub static DIAMOND_AND_CHAIN: Setting = Setting {
    agreement: Agreement {
        out: &[0, 1, 1, 1],
        back: &[0, 3],
        near_items: &[
            Item {
                role: WORKING,
                label: 0,
            },
            Item {
                role: WORKING,
                label: 1,
            },
            Item {
                role: WORKING,
                label: 2,
            },
            Item {
                role: WORKING,
                label: 3,
            },
            Item {
                role: IMPORT,
                label: 3,
            },
            Item {
                role: IMPORT,
                label: 0,
            },
            Item {
                role: EXPORT,
                label: 0,
            },
            Item {
                role: EXPORT,
                label: 3,
            },
        ],
        far_items: &[
            Item {
                role: IMPORT,
                label: 0,
            },
            Item {
                role: IMPORT,
                label: 1,
            },
            Item {
                role: WORKING,
                label: 0,
            },
            Item {
                role: WORKING,
                label: 1,
            },
            Item {
                role: EXPORT,
                label: 1,
            },
            Item {
                role: EXPORT,
                label: 0,
            },
        ],
    },
    near: &[10, 11, 12, 13, 14, 15, 16, 17],
    far: &[20, 21, 22, 23, 24, 25],
};

// The six operations, into item 3. There is no near item 8: what an operation does not take is not looked at.
const PUT_MOST: Assignment = Assignment {
    operation: 0,
    target: 3,
    constant: u64::MAX,
    left: 8,
    right: 8,
};

const COPY_1: Assignment = Assignment {
    operation: 1,
    target: 3,
    constant: 0,
    left: 1,
    right: 8,
};

const ADD_TO_0: Assignment = Assignment {
    operation: 2,
    target: 3,
    constant: 0,
    left: 0,
    right: 3,
};

const SUBTRACT_0: Assignment = Assignment {
    operation: 3,
    target: 3,
    constant: 0,
    left: 3,
    right: 0,
};

const SMALLER_OF_3_AND_0: Assignment = Assignment {
    operation: 4,
    target: 3,
    constant: 0,
    left: 3,
    right: 0,
};

const LARGER_OF_3_AND_2: Assignment = Assignment {
    operation: 5,
    target: 3,
    constant: 0,
    left: 3,
    right: 2,
};

const DOUBLE: Assignment = Assignment {
    operation: 2,
    target: 3,
    constant: 0,
    left: 3,
    right: 3,
};

// What is refused, alone or beside others.
const UNKNOWN_OPERATION: Assignment = Assignment {
    operation: 6,
    target: 3,
    constant: 0,
    left: 0,
    right: 0,
};

const PUT_NOWHERE: Assignment = Assignment {
    operation: 0,
    target: 8,
    constant: 0,
    left: 0,
    right: 0,
};

const COPY_NOTHING_TO_4: Assignment = Assignment {
    operation: 1,
    target: 4,
    constant: 0,
    left: 8,
    right: 0,
};

const ADD_NOTHING_TO_4: Assignment = Assignment {
    operation: 2,
    target: 3,
    constant: 0,
    left: 8,
    right: 4,
};

const COPY_3_TO_0: Assignment = Assignment {
    operation: 1,
    target: 0,
    constant: 0,
    left: 3,
    right: 0,
};

const COPY_0_TO_1: Assignment = Assignment {
    operation: 1,
    target: 1,
    constant: 0,
    left: 0,
    right: 0,
};

const COPY_2_TO_3: Assignment = Assignment {
    operation: 1,
    target: 3,
    constant: 0,
    left: 2,
    right: 0,
};

const PUT_0: Assignment = Assignment {
    operation: 0,
    target: 0,
    constant: 99,
    left: 0,
    right: 0,
};

// Three lines: near 1 is 5; near 2 is 6, then the sum of itself and near 0; far 5 moves to near 4.
const RISING: &[u8] = &[
    0x03, 0x02, 0x00, 0x80, 0x00, 0x00, 0x00, 0x00, 0x00, 0x00, 0x02, 0x82, 0x00, 0x80, 0x00, 0x00,
    0x00, 0x00, 0x00, 0x00, 0x01, 0x90, 0x20, 0x40, 0x38, 0x40, 0xa0,
];

// Two lines, from bit 3 on: near 1 is copied to near 3, and near 3 is stored in near 7.
const COPYING: &[u8] = &[0xa0, 0x40, 0x48, 0x30, 0x30, 0x38, 0x30];

// One line: near 6 moves to far 0.
const MOVING: &[u8] = &[0x01, 0xc0, 0x03, 0x00];

// Two lines: near 3 is 1; near 4 is fetched to near 0, which its label does not flow to.
const FALLING: &[u8] = &[
    0x02, 0x02, 0x01, 0x80, 0x00, 0x00, 0x00, 0x00, 0x00, 0x00, 0x00, 0xa0, 0x01, 0x00,
];

pub static CALLS: [(Call, Answer); 80] = [
    // shows: an unknown label, then an unknown item, then a label that is too low
    (Call::Show(Side::Near, 0, 0), Answer::Value(10)),
    (Call::Show(Side::Near, 3, 2), Answer::Value(12)),
    (Call::Show(Side::Near, 4, 8), Answer::Refuse(17, 0, 0, 4, 0)),
    (Call::Show(Side::Far, 2, 0), Answer::Refuse(17, 0, 1, 2, 0)),
    (Call::Show(Side::Near, 3, 8), Answer::Refuse(14, 0, 0, 8, 3)),
    (Call::Show(Side::Far, 0, 6), Answer::Refuse(14, 0, 1, 6, 3)),
    (Call::Show(Side::Near, 1, 2), Answer::Refuse(16, 0, 0, 2, 1)),
    (Call::Show(Side::Far, 0, 3), Answer::Refuse(16, 0, 1, 3, 0)),
    // operations: 10 more than the greatest number is 9, and 10 less than 9 is the greatest
    (Call::Compute(Side::Near, &[PUT_MOST]), Answer::Done),
    (Call::Show(Side::Near, 3, 3), Answer::Value(u64::MAX)),
    (Call::Compute(Side::Near, &[ADD_TO_0]), Answer::Done),
    (Call::Show(Side::Near, 3, 3), Answer::Value(9)),
    (Call::Compute(Side::Near, &[SUBTRACT_0]), Answer::Done),
    (Call::Show(Side::Near, 3, 3), Answer::Value(u64::MAX)),
    (
        Call::Compute(Side::Near, &[SMALLER_OF_3_AND_0]),
        Answer::Done,
    ),
    (Call::Show(Side::Near, 3, 3), Answer::Value(10)),
    (
        Call::Compute(Side::Near, &[LARGER_OF_3_AND_2]),
        Answer::Done,
    ),
    (Call::Show(Side::Near, 3, 3), Answer::Value(12)),
    (Call::Compute(Side::Near, &[COPY_1]), Answer::Done),
    (Call::Show(Side::Near, 3, 3), Answer::Value(11)),
    // in order: 10 + 11, and that doubled; 23 doubled eight times; nothing
    (Call::Compute(Side::Near, &[ADD_TO_0, DOUBLE]), Answer::Done),
    (Call::Show(Side::Near, 3, 3), Answer::Value(42)),
    (Call::Compute(Side::Far, &[DOUBLE; 8]), Answer::Done),
    (Call::Show(Side::Far, 1, 3), Answer::Value(5888)),
    (Call::Compute(Side::Near, &[]), Answer::Done),
    // the form before the roles, the roles before the flows
    (
        Call::Compute(Side::Far, &[UNKNOWN_OPERATION; 9]),
        Answer::Refuse(15, 0, 1, 8, 0),
    ),
    (
        Call::Compute(Side::Near, &[PUT_NOWHERE, UNKNOWN_OPERATION]),
        Answer::Refuse(15, 0, 0, 1, 6),
    ),
    (
        Call::Compute(Side::Near, &[COPY_3_TO_0, PUT_NOWHERE]),
        Answer::Refuse(14, 0, 0, 8, 0),
    ),
    // a target before its operands, the left operand before the right one
    (
        Call::Compute(Side::Near, &[COPY_NOTHING_TO_4]),
        Answer::Refuse(14, 0, 0, 4, 0),
    ),
    (
        Call::Compute(Side::Far, &[COPY_NOTHING_TO_4]),
        Answer::Refuse(14, 0, 1, 4, 0),
    ),
    (
        Call::Compute(Side::Near, &[ADD_NOTHING_TO_4]),
        Answer::Refuse(14, 0, 0, 8, 0),
    ),
    // every operand is to flow to every target: that of place 2 does not to target 1, that of place 0 does not to
    // target 1, and those of places 1 and 2 do not to target 0
    (
        Call::Compute(Side::Near, &[PUT_MOST, COPY_0_TO_1, COPY_2_TO_3]),
        Answer::Refuse(16, 0, 0, 1, 2),
    ),
    (
        Call::Compute(Side::Near, &[ADD_TO_0, PUT_0]),
        Answer::Refuse(16, 0, 0, 1, 0),
    ),
    (
        Call::Compute(Side::Near, &[PUT_0, COPY_2_TO_3, COPY_1]),
        Answer::Refuse(16, 0, 0, 0, 1),
    ),
    // what was refused changed nothing
    (Call::Show(Side::Near, 0, 0), Answer::Value(10)),
    (Call::Show(Side::Near, 1, 1), Answer::Value(11)),
    (Call::Show(Side::Near, 3, 3), Answer::Value(42)),
    (Call::Show(Side::Far, 1, 3), Answer::Value(5888)),
    // fetches: an import to a working item, to whose label its own flows
    (Call::Fetch(Side::Near, 3, 4), Answer::Done),
    (Call::Show(Side::Near, 3, 3), Answer::Value(14)),
    (
        Call::Fetch(Side::Near, 0, 4),
        Answer::Refuse(16, 0, 0, 0, 4),
    ),
    (Call::Show(Side::Near, 0, 0), Answer::Value(10)),
    (
        Call::Fetch(Side::Near, 4, 0),
        Answer::Refuse(14, 0, 0, 4, 0),
    ),
    (Call::Fetch(Side::Far, 2, 3), Answer::Refuse(14, 0, 1, 3, 1)),
    // stores: a working item to an export
    (Call::Store(Side::Far, 4, 3), Answer::Done),
    (Call::Show(Side::Far, 1, 4), Answer::Value(5888)),
    (Call::Store(Side::Far, 5, 3), Answer::Refuse(16, 0, 1, 5, 3)),
    (Call::Show(Side::Far, 0, 5), Answer::Value(25)),
    (
        Call::Store(Side::Near, 3, 3),
        Answer::Refuse(14, 0, 0, 3, 2),
    ),
    (Call::Store(Side::Far, 4, 4), Answer::Refuse(14, 0, 1, 4, 0)),
    // outward: near label 3 is far label 1, which does not flow to 0; near label 0 is far label 0
    (Call::Outward(0, 7), Answer::Refuse(16, 0, 2, 0, 7)),
    (Call::Show(Side::Far, 0, 0), Answer::Value(20)),
    (Call::Outward(1, 7), Answer::Done),
    (Call::Show(Side::Far, 1, 1), Answer::Value(17)),
    (Call::Outward(0, 6), Answer::Done),
    (Call::Show(Side::Far, 0, 0), Answer::Value(16)),
    (Call::Outward(2, 4), Answer::Refuse(14, 0, 1, 2, 1)),
    (Call::Outward(1, 4), Answer::Refuse(14, 0, 0, 4, 2)),
    // inward: far label 1 is near label 3, which does not flow to 0
    (Call::Inward(5, 4), Answer::Refuse(16, 0, 2, 5, 4)),
    (Call::Show(Side::Near, 0, 5), Answer::Value(15)),
    (Call::Inward(4, 4), Answer::Done),
    (Call::Show(Side::Near, 3, 4), Answer::Value(5888)),
    (Call::Inward(0, 3), Answer::Refuse(14, 0, 0, 0, 1)),
    (Call::Inward(4, 3), Answer::Refuse(14, 0, 1, 3, 2)),
    // the lines give near labels 1, 2, 2 and 3, which meet in 0, and far label 0, that of a source; judging does nothing
    (Call::Judge(RISING, 0), Answer::Type(0, 0)),
    (Call::Show(Side::Near, 1, 1), Answer::Value(11)),
    (Call::Run(RISING, 0), Answer::Type(0, 0)),
    (Call::Show(Side::Near, 1, 1), Answer::Value(5)),
    (Call::Show(Side::Near, 2, 2), Answer::Value(16)),
    (Call::Show(Side::Near, 3, 4), Answer::Value(25)),
    // near label 3 twice, and the far top where nothing is given; the tops for no lines
    (Call::Run(COPYING, 3), Answer::Type(3, 1)),
    (Call::Show(Side::Near, 3, 7), Answer::Value(5)),
    (Call::Run(&[0x00], 0), Answer::Type(3, 1)),
    // the labels of a move's source and target
    (Call::Judge(MOVING, 0), Answer::Type(0, 0)),
    // a refused line: those before it did nothing
    (Call::Judge(FALLING, 0), Answer::Refuse(16, 2, 0, 0, 4)),
    (Call::Run(FALLING, 0), Answer::Refuse(16, 2, 0, 0, 4)),
    (Call::Show(Side::Near, 3, 3), Answer::Value(5)),
    (Call::Show(Side::Near, 0, 0), Answer::Value(10)),
    // bits that lack: the number of lines, and the kind of the first of two lines
    (Call::Run(&[], 0), Answer::Refuse(1, 0, 2, 0, 0)),
    (Call::Run(&[0x02], 0), Answer::Refuse(1, 1, 2, 8, 0)),
];

// What tables are refused with: number, p and q, or nothing where they are accepted.
use order::Order;
use refusal::Refusal;
use tables::{Graded, Listed, TableFault};

struct Rows {
    rows: &'static [u32],
    refused: Option<(u8, u128, u64)>,
}

static LISTED: [Rows; 16] = [
    // no rows, and one more than 32
    Rows {
        rows: &[],
        refused: Some((4, 0, 0)),
    },
    Rows {
        rows: &[1; 33],
        refused: Some((4, 0, 0)),
    },
    // a label that does not flow to itself, before two that flow both ways
    Rows {
        rows: &[0b01, 0b00],
        refused: Some((4, 1, 1)),
    },
    Rows {
        rows: &[0b011, 0b011, 0b000],
        refused: Some((4, 2, 2)),
    },
    // two labels that flow both ways, before flow that does not carry on
    Rows {
        rows: &[0b11, 0b11],
        refused: Some((4, 0, 1)),
    },
    Rows {
        rows: &[0b0001, 0b0110, 0b1110, 0b1000],
        refused: Some((4, 1, 2)),
    },
    // 0 flows to 1 and 1 to 2, but 0 not to 2; and the same of 1, 2 and 3
    Rows {
        rows: &[0b011, 0b110, 0b100],
        refused: Some((4, 0, 1)),
    },
    Rows {
        rows: &[0b0001, 0b0110, 0b1100, 0b1000],
        refused: Some((4, 1, 2)),
    },
    // 0 and 1 each below 2 and 3: no least label above both
    Rows {
        rows: &[0b1101, 0b1110, 0b0100, 0b1000],
        refused: Some((5, 0, 1)),
    },
    // two labels apart
    Rows {
        rows: &[0b01, 0b10],
        refused: Some((5, 0, 1)),
    },
    // 0 and 1 below 2: every join, and no label below both
    Rows {
        rows: &[0b101, 0b110, 0b100],
        refused: Some((5, 0, 1)),
    },
    // a bottom below 1 and 2, and nothing above both
    Rows {
        rows: &[0b111, 0b010, 0b100],
        refused: Some((5, 1, 2)),
    },
    // one label, a chain up and a chain down, a diamond
    Rows {
        rows: &[1],
        refused: None,
    },
    Rows {
        rows: &[0b111, 0b110, 0b100],
        refused: None,
    },
    Rows {
        rows: &[0b001, 0b011, 0b111],
        refused: None,
    },
    // bits past the labels are not looked at
    Rows {
        rows: &[0xffff_fff3, 0x8000_0002],
        refused: None,
    },
];

fn place_of(fault: TableFault) -> (u8, u128, u64) {
    let Refusal { number, p, q, .. } = Refusal::from(fault);
    (number, p, q)
}

fn refused(rows: &[u32]) -> Option<(u8, u128, u64)> {
    Listed::new().write(rows).err().map(place_of)
}

#[test]
fn listed_tables(rt: HostRuntime) {
    for case in &LISTED {
        assert_eq!(rt; refused(case.rows), case.refused);
    }
}

// What is refused leaves the place as it was, and rows are no columns.
#[test]
fn a_place_is_written_or_stays(rt: HostRuntime) {
    let mut place = Listed::new();
    assert_eq!(rt; place.count(), 1);
    assert!(rt; place.write(&[0b111, 0b110, 0b100]).is_ok());
    assert!(rt; place.write(&[0b01, 0b10]).is_err());
    assert_eq!(rt; place.count(), 3);
    assert!(rt; place.flows(0, 2));
    assert!(rt; !place.flows(2, 0));
    assert!(rt; !place.flows(0, 3));
}

struct Grades {
    levels: u64,
    compartments: u64,
    refused: Option<(u8, u128, u64)>,
}

static GRADED: [Grades; 7] = [
    Grades {
        levels: 0,
        compartments: 0,
        refused: Some((4, 0, 0)),
    },
    Grades {
        levels: 9,
        compartments: 0,
        refused: Some((4, 9, 0)),
    },
    Grades {
        levels: 1,
        compartments: 4,
        refused: Some((4, 1, 4)),
    },
    Grades {
        levels: 0,
        compartments: 9,
        refused: Some((4, 0, 9)),
    },
    Grades {
        levels: 0xffff_ffff_ffff_ffff,
        compartments: 0xffff_ffff_ffff_ffff,
        refused: Some((4, 0xffff_ffff_ffff_ffff, 0xffff_ffff_ffff_ffff)),
    },
    Grades {
        levels: 1,
        compartments: 0,
        refused: None,
    },
    Grades {
        levels: 8,
        compartments: 3,
        refused: None,
    },
];

#[test]
fn graded_tables(rt: HostRuntime) {
    for case in &GRADED {
        let refused = Graded::new(case.levels, case.compartments)
            .err()
            .map(place_of);
        assert_eq!(rt; refused, case.refused);
    }
}

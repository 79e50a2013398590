// The same calls have the same answers at every kind of lattice, and at layers piled on them, on either side.
use crate::calls::{CALLS, DIAMOND_AND_CHAIN};
use crate::driver::{Answer, Call, Setting, graded, play};
use agreement::{Agreement, Item};
use order::{Lattice, Reversed};
use refusal::Side;
use std::process::Abort;
use std::test::Fail;
use tables::{Graded, Listed};

// A diamond and a chain of two as rows, and turned upside down.
const DIAMOND: [u32; 4] = [0b1111, 0b1010, 0b1100, 0b1000];

const DIAMOND_DOWN: [u32; 4] = [0b0001, 0b0011, 0b0101, 0b1111];

const CHAIN: [u32; 2] = [0b11, 0b10];

const CHAIN_DOWN: [u32; 2] = [0b01, 0b11];

fn listed(rt: &impl Abort, rows: &[u32]) -> Listed {
    let mut listed = Listed::new();
    assert!(rt; listed.write(rows).is_ok());
    listed
}

fn reversed(rt: &impl Abort, rows: &[u32]) -> Reversed<Listed> {
    let inner = listed(rt, rows);
    Reversed { inner }
}

fn reversed_twice(compartments: u64) -> Result<Reversed<Reversed<Graded>>, Fail> {
    let inner = graded(compartments)?;
    Ok(Reversed {
        inner: Reversed { inner },
    })
}

fn play_all<N: Lattice + Drop, F: Lattice + Drop>(
    rt: &impl Abort,
    near: N,
    far: F,
) -> Result<(), Fail> {
    play(rt, near, far, &DIAMOND_AND_CHAIN, &CALLS)
}

#[test]
fn listed_near_and_graded_far(rt: HostRuntime) -> Result<(), Fail> {
    play_all(&rt, listed(&rt, &DIAMOND), graded(0)?)
}

#[test]
fn graded_near_and_reversed_far(rt: HostRuntime) -> Result<(), Fail> {
    play_all(&rt, graded(1)?, reversed(&rt, &CHAIN_DOWN))
}

#[test]
fn reversed_twice_near_and_listed_far(rt: HostRuntime) -> Result<(), Fail> {
    play_all(&rt, reversed_twice(1)?, listed(&rt, &CHAIN))
}

#[test]
fn reversed_near_and_reversed_twice_far(rt: HostRuntime) -> Result<(), Fail> {
    play_all(&rt, reversed(&rt, &DIAMOND_DOWN), reversed_twice(0)?)
}

// Two chains in which 1 is below 0.
static DOWNWARD: Setting = Setting {
    agreement: Agreement {
        out: &[0, 1],
        back: &[0, 1],
        near_items: &[Item { role: 0, label: 0 }, Item { role: 2, label: 1 }],
        far_items: &[Item { role: 1, label: 0 }],
    },
    near: &[5, 6],
    far: &[7],
};

static DOWNWARD_CALLS: [(Call, Answer); 5] = [
    (Call::Show(Side::Near, 0, 1), Answer::Value(6)),
    (Call::Show(Side::Near, 1, 0), Answer::Refuse(16, 0, 0, 0, 1)),
    // 1 goes out as 1, which flows to 0
    (Call::Outward(0, 1), Answer::Done),
    (Call::Show(Side::Far, 0, 0), Answer::Value(6)),
    // no lines: the tops
    (Call::Run(&[0x00], 0), Answer::Type(0, 0)),
];

#[test]
fn tops_that_are_label_0(rt: HostRuntime) -> Result<(), Fail> {
    let near = Reversed { inner: graded(0)? };
    play(&rt, near, reversed(&rt, &CHAIN), &DOWNWARD, &DOWNWARD_CALLS)
}

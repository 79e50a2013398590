// Two worked agreements: one that is certified, and one whose labels climb when they go round.
#![tactic(auto)]

mod reporting;

use agreement::{Agreement, Item, Joined, Role};
use anyhow::Context;
use reporting::report;
use tables::Graded;

// A chain of labels that flow upward by number.
fn chain(labels: u64) -> anyhow::Result<Graded> {
    Graded::new(labels, 0)
        .ok()
        .context("a chain has 1 to 8 labels")
}

fn item(role: Role, label: u64) -> Item {
    Item {
        role: role.into(),
        label,
    }
}

fn certified(rt: &HostRuntime) -> anyhow::Result<()> {
    println!(rt;
        "agreement 1: near is a chain of 3 labels, far a chain of 2; a label flows to itself and to every higher one"
    )?;
    let near = chain(3)?;
    let far = chain(2)?;
    let near_items = [
        item(Role::Working, 0),
        item(Role::Working, 1),
        item(Role::Export, 0),
        item(Role::Import, 2),
    ];
    let far_items = [
        item(Role::Working, 0),
        item(Role::Import, 0),
        item(Role::Export, 1),
    ];
    let agreement = Agreement {
        out: &[0, 1, 1],
        back: &[0, 2],
        near_items: &near_items,
        far_items: &far_items,
    };
    report(
        rt,
        &Joined {
            near: &near,
            far: &far,
            agreement,
        },
    )
}

fn drifting(rt: &HostRuntime) -> anyhow::Result<()> {
    println!(rt;
        "agreement 2: near and far are chains of 3 labels; a label flows to itself and to every higher one"
    )?;
    let chain = chain(3)?;
    let joined = Joined {
        near: &chain,
        far: &chain,
        agreement: Agreement {
            out: &[1, 2, 2],
            back: &[0, 1, 2],
            near_items: &[],
            far_items: &[],
        },
    };
    report(rt, &joined)
}

fn run(rt: &HostRuntime) -> anyhow::Result<()> {
    certified(rt)?;
    drifting(rt)
}

fn main(rt: HostRuntime) -> anyhow::Result<()> {
    run(&rt)
}

// A session from its draft to its second opening, with the pass that each call takes. The folder misuse/ has texts that
// differ from this one by a word or two, and do not compile.
#![tactic(auto)]

use agreement::{Agreement, Item};
use anyhow::anyhow;
use machine::CallFault;
use order::Lattice;
use refusal::Refused;
use session::{DraftPass, Returned, Session};
use tables::Graded;

// Two chains of two labels, joined label by label, with a near export and a far import at label 1.
const AGREEMENT: Agreement<'static> = Agreement {
    out: &[0, 1],
    back: &[0, 1],
    near_items: &[Item { role: 2, label: 1 }],
    far_items: &[Item { role: 1, label: 1 }],
};

fn chain() -> anyhow::Result<Graded> {
    Graded::new(2, 0).map_err(|_| anyhow!("no chain"))
}

// A new session, and the pass that says that nothing is agreed yet.
fn begun<N: Lattice, F: Lattice>(near: N, far: F) -> (Session<N, F>, DraftPass) {
    let (session, draft) = Session::new(near, far);
    (session, draft)
}

// A step needs the open pass, and only lends it.
fn step<N: Lattice, F: Lattice>(
    session: &mut Session<N, F>,
    pass: &session::OpenPass,
) -> Result<(), CallFault> {
    session.outward(pass, 0, 0)
}

// Prints what was called, or how it was refused.
fn passed<P: Drop, Q: Drop>(
    rt: &HostRuntime,
    call: &'static str,
    answer: Result<P, Returned<Q>>,
) -> anyhow::Result<P> {
    match answer {
        Ok(pass) => {
            println!(rt; "{call}")?;
            Ok(pass)
        }
        Err(returned) => {
            rt.println(Refused::from(returned.fault))?;
            Err(anyhow!("{call}"))
        }
    }
}

fn moved(rt: &HostRuntime, answer: Result<(), CallFault>) -> anyhow::Result<()> {
    match answer {
        Ok(()) => println!(rt; "moved outward")?,
        Err(fault) => rt.println(Refused::from(fault))?,
    }
    Ok(())
}

fn run(rt: &HostRuntime) -> anyhow::Result<()> {
    let (mut session, draft) = begun(chain()?, chain()?);
    let certified = passed(rt, "certified", session.certify(draft, &AGREEMENT))?;
    let open = passed(rt, "opened", session.open(certified, &[7], &[0]))?;
    moved(rt, step(&mut session, &open))?;
    let closed = passed(rt, "closed", session.close(open))?;
    let again = passed(rt, "opened again", session.open(closed, &[8], &[9]))?;
    let _closed = passed(rt, "closed again", session.close(again))?;
    Ok(())
}

fn main(rt: HostRuntime) -> anyhow::Result<()> {
    run(&rt)
}

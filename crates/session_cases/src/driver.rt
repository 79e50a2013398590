// Calls of a session as values, so that one table of calls and answers does for sessions between any lattices.
use agreement::Agreement;
use machine::{CallFault, ScriptType};
use order::Lattice;
use refusal::{Refused, Side};
use script::Assignment;
use session::{CertifiedPass, OpenPass, Returned, Session};
use std::process::Abort;
use std::test::Fail;
use tables::Graded;

#[derive(Clone, Copy)]
pub enum Call {
    Compute(Side, &'static [Assignment]),
    Fetch(Side, u64, u64),
    Store(Side, u64, u64),
    Outward(u64, u64),
    Inward(u64, u64),
    Run(&'static [u8], u128),
    Show(Side, u64, u64),
    Judge(&'static [u8], u128),
}

#[derive(Clone, Copy, PartialEq, Eq, Debug)]
pub enum Answer {
    Done,
    Value(u64),
    // near and far
    Type(u64, u64),
    // number, line, side, p and q, as a refusal is written out
    Refuse(u8, u64, u8, u128, u64),
}

pub fn refuse(fault: CallFault) -> Answer {
    let refused = Refused::from(fault);
    let refusal = refused.refusal;
    Answer::Refuse(
        refusal.number,
        refused.line,
        refusal.side_number(),
        refusal.p,
        refusal.q,
    )
}

// What a call is answered with, told so where it is accepted.
fn answer_of<T, F: FnOnce(T) -> Answer>(res: Result<T, CallFault>, told: F) -> Answer
    requires { F.IsAlwaysCallable told }
{
    match res {
        Ok(value) => told(value),
        Err(fault) => refuse(fault),
    }
}

fn done(res: Result<(), CallFault>) -> Answer {
    answer_of(res, |()| Answer::Done)
}

fn script_type(res: Result<ScriptType, CallFault>) -> Answer {
    answer_of(res, |typed| Answer::Type(typed.near, typed.far))
}

// Makes the call.
pub fn make_call<N: Lattice, F: Lattice>(
    session: &mut Session<N, F>,
    pass: &OpenPass,
    call: &Call,
) -> Answer {
    match *call {
        Call::Compute(side, assignments) => done(session.compute(pass, side, assignments)),
        Call::Fetch(side, target, source) => done(session.fetch(pass, side, target, source)),
        Call::Store(side, target, source) => done(session.store(pass, side, target, source)),
        Call::Outward(target, source) => done(session.outward(pass, target, source)),
        Call::Inward(target, source) => done(session.inward(pass, target, source)),
        Call::Run(bytes, at) => script_type(session.run(pass, bytes, at)),
        Call::Show(side, label, item) => answer_of(
            session.show(pass, side, label, item),
            Answer::Value,
        ),
        Call::Judge(bytes, at) => script_type(session.judge(bytes, at)),
    }
}

// Two levels and one compartment are a diamond, two levels and none a chain.
pub fn graded(compartments: u64) -> Result<Graded, Fail> {
    Graded::new(2, compartments).map_err(|_| Fail::new("within the limits"))
}

// An agreement, and the values that a session opens with.
#[derive(Clone, Copy)]
pub struct Setting {
    pub agreement: Agreement<'static>,
    pub near: &'static [u64],
    pub far: &'static [u64],
}

pub fn certified<N: Lattice + Drop, F: Lattice + Drop>(
    near: N,
    far: F,
    agreement: &Agreement<'_>,
) -> Result<(Session<N, F>, CertifiedPass), Fail> {
    let (mut session, draft) = Session::new(near, far);
    let pass = session
        .certify(draft, agreement)
        .map_err(|_| Fail::new("the agreement keeps the rules"))?;
    Ok((session, pass))
}

pub fn opened<N: Lattice + Drop, F: Lattice + Drop>(
    near: N,
    far: F,
    setting: &Setting,
) -> Result<(Session<N, F>, OpenPass), Fail> {
    let (mut session, pass) = certified(near, far, &setting.agreement)?;
    let pass = session
        .open(pass, setting.near, setting.far)
        .map_err(|_| Fail::new("as many values as items"))?;
    Ok((session, pass))
}

// Opens a session between two lattices, makes the calls in order, and looks at each answer.
pub fn play<N: Lattice + Drop, F: Lattice + Drop>(
    rt: &impl Abort,
    near: N,
    far: F,
    setting: &Setting,
    calls: &[(Call, Answer)],
) -> Result<(), Fail> {
    let (mut session, pass) = opened(near, far, setting)?;
    for (call, answer) in calls {
        assert_eq!(rt; make_call(&mut session, &pass, call), *answer);
    }
    Ok(())
}

// The pass that a refused call hands back.
pub fn returned<P: Drop, Q: Drop>(
    rt: &impl Abort,
    res: Result<P, Returned<Q>>,
    answer: Answer,
) -> Result<Q, Fail> {
    match res {
        Ok(_) => Err(Fail::new("the call is refused")),
        Err(Returned { pass, fault }) => {
            assert_eq!(rt; refuse(fault), answer);
            Ok(pass)
        }
    }
}

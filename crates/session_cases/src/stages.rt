// Calls at the wrong stage, with passes of other sessions, and openings.
use crate::driver::{Answer, Call, Setting, certified, graded, make_call, opened, returned};
use agreement::{Agreement, Item};
use order::Lattice;
use refusal::Side;
use script::Assignment;
use session::{CertifiedPass, DraftPass, OpenPass, Session};
use std::process::Abort;
use std::test::Fail;
use tables::Graded;

// Between two chains of two labels.
static PAIR: Setting = Setting {
    agreement: Agreement {
        out: &[0, 1],
        back: &[0, 1],
        near_items: &[Item { role: 0, label: 0 }, Item { role: 0, label: 1 }],
        far_items: &[Item { role: 0, label: 0 }],
    },
    near: &[1, 2],
    far: &[3],
};

// 0 flows to 1, and its image not to that of 1.
static CROSSED: Agreement<'static> = Agreement {
    out: &[1, 0],
    back: &[0, 1],
    near_items: &[],
    far_items: &[],
};

// Every call that only an open session takes. Each has other faults too, which are looked for after the stage.
static FOR_OPEN_SESSIONS: [Call; 7] = [
    Call::Compute(Side::Near, &[Assignment::BLANK; 9]),
    Call::Fetch(Side::Near, 9, 9),
    Call::Store(Side::Far, 9, 9),
    Call::Outward(9, 9),
    Call::Inward(9, 9),
    Call::Run(&[], 0),
    Call::Show(Side::Far, 9, 9),
];

fn draft_pair() -> Result<(Session<Graded, Graded>, DraftPass), Fail> {
    let chain = graded(0)?;
    Ok(Session::new(chain, chain))
}

fn certified_pair() -> Result<(Session<Graded, Graded>, CertifiedPass), Fail> {
    let chain = graded(0)?;
    certified(chain, chain, &PAIR.agreement)
}

fn open_pair() -> Result<(Session<Graded, Graded>, OpenPass), Fail> {
    let chain = graded(0)?;
    opened(chain, chain, &PAIR)
}

// Passes of sessions that are let go.
fn draft_pass() -> Result<DraftPass, Fail> {
    let (_, pass) = draft_pair()?;
    Ok(pass)
}

fn certified_pass() -> Result<CertifiedPass, Fail> {
    let (_, pass) = certified_pair()?;
    Ok(pass)
}

fn open_pass() -> Result<OpenPass, Fail> {
    let (_, pass) = open_pair()?;
    Ok(pass)
}

fn answers<N: Lattice, F: Lattice>(
    rt: &impl Abort,
    session: &mut Session<N, F>,
    pass: &OpenPass,
    call: &Call,
    answer: Answer,
) {
    assert_eq!(rt; make_call(session, pass, call), answer);
}

fn refuses_all<N: Lattice, F: Lattice>(
    rt: &impl Abort,
    session: &mut Session<N, F>,
    pass: &OpenPass,
    stage: u128,
) {
    for call in &FOR_OPEN_SESSIONS {
        answers(rt, session, pass, call, Answer::Refuse(12, 0, 2, stage, 2));
    }
}

#[test]
fn a_draft(rt: HostRuntime) -> Result<(), Fail> {
    let (mut session, _) = draft_pair()?;
    let pass = open_pass()?;
    refuses_all(&rt, &mut session, &pass, 0);
    let judge = Call::Judge(&[], 0);
    answers(
        &rt,
        &mut session,
        &pass,
        &judge,
        Answer::Refuse(12, 0, 2, 0, 1),
    );
    let opening = session.open(certified_pass()?, &[], &[9]);
    returned(&rt, opening, Answer::Refuse(12, 0, 2, 0, 1))?;
    returned(&rt, session.close(pass), Answer::Refuse(12, 0, 2, 0, 2))?;
    Ok(())
}

// What is not certified leaves a draft, which may still be.
#[test]
fn certified_at_the_second_try(rt: HostRuntime) -> Result<(), Fail> {
    let (mut session, pass) = draft_pair()?;
    let first = session.certify(pass, &CROSSED);
    let pass = returned(&rt, first, Answer::Refuse(8, 0, 0, 0, 1))?;
    assert!(rt; session.certify(pass, &PAIR.agreement).is_ok());
    Ok(())
}

#[test]
fn a_certified_session(rt: HostRuntime) -> Result<(), Fail> {
    let (mut session, _) = certified_pair()?;
    let pass = open_pass()?;
    refuses_all(&rt, &mut session, &pass, 1);
    // it judges: no lines give the tops
    let judge = Call::Judge(&[0x00], 0);
    answers(&rt, &mut session, &pass, &judge, Answer::Type(1, 1));
    let again = session.certify(draft_pass()?, &CROSSED);
    returned(&rt, again, Answer::Refuse(12, 0, 2, 1, 0))?;
    returned(&rt, session.close(pass), Answer::Refuse(12, 0, 2, 1, 2))?;
    Ok(())
}

#[test]
fn an_open_session(rt: HostRuntime) -> Result<(), Fail> {
    let (mut session, pass) = open_pair()?;
    let certifying = session.certify(draft_pass()?, &CROSSED);
    returned(&rt, certifying, Answer::Refuse(12, 0, 2, 2, 0))?;
    let opening = session.open(certified_pass()?, &[], &[]);
    returned(&rt, opening, Answer::Refuse(12, 0, 2, 2, 1))?;
    let show = Call::Show(Side::Near, 1, 1);
    answers(&rt, &mut session, &pass, &show, Answer::Value(2));
    Ok(())
}

// Two near values and one far value are needed, and the near list is looked at first.
#[test]
fn lists_of_another_length(rt: HostRuntime) -> Result<(), Fail> {
    let (mut session, pass) = certified_pair()?;
    let both = session.open(pass, &[1], &[]);
    let pass = returned(&rt, both, Answer::Refuse(13, 0, 0, 2, 0))?;
    let far = session.open(pass, &[1, 2], &[3, 4]);
    let pass = returned(&rt, far, Answer::Refuse(13, 0, 1, 1, 0))?;
    assert!(rt; session.open(pass, &[1, 2], &[3]).is_ok());
    Ok(())
}

#[test]
fn closed_and_opened_again(rt: HostRuntime) -> Result<(), Fail> {
    let (mut session, pass) = open_pair()?;
    let Ok(pass) = session.close(pass) else {
        return Err(Fail::new("an open session closes"));
    };
    refuses_all(&rt, &mut session, &open_pass()?, 1);
    let Ok(pass) = session.open(pass, &[4, 5], &[6]) else {
        return Err(Fail::new("as many values as items"));
    };
    let show = Call::Show(Side::Near, 1, 1);
    answers(&rt, &mut session, &pass, &show, Answer::Value(5));
    Ok(())
}

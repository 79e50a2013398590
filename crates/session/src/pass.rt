ghost use Rattle.session.specs.Records.{Hands};

use crate::returned::Returned;
use machine::CallFault;

// Passes: what a call takes as a sign that a session has come so far. No other crate can make one, and none can be
// copied. One may be let go, which gives up the calls that need it.
#[derive(Drop)]
pub struct DraftPass {
    pub(crate) seal: (),
}

#[derive(Drop)]
pub struct CertifiedPass {
    pub(crate) seal: (),
}

#[derive(Drop)]
pub struct OpenPass {
    pub(crate) seal: (),
}

// The next pass for the taken one, or the taken one back with the fault.
pub(crate) fn exchanged<P: Drop, Q: Drop>(
    judged: Result<(), CallFault>,
    taken: P,
    next: Q,
) -> Result<Q, Returned<P>>
    ensures { Hands judged result }
{
    judged
        .map(|()| next)
        .map_err(|fault| Returned { pass: taken, fault })
}

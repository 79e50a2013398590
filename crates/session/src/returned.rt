use machine::CallFault;

// A refused call hands the pass that it took back, with its fault.
#[derive(Drop)]
pub struct Returned<P> {
    pub pass: P,
    pub fault: CallFault,
}

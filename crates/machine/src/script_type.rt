// The type of a script: a label of each house that flows to the label of every item that the script writes there.
#[derive(Clone, Copy, PartialEq, Eq, Debug)]
pub struct ScriptType {
    pub near: u64,
    pub far: u64,
}

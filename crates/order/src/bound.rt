// Which bound of two labels is asked for: the least upper one or the greatest lower one. An enum, since callers hand it in.
#[derive(Clone, Copy)]
pub enum Bound {
    Join,
    Meet,
}

// What certification asks of each side. An enum, since the specification lists the rules in their order by it.
#[derive(Clone, Copy)]
pub(crate) enum Rule {
    Totality,
    Monotony,
    Rise,
    Stability,
    Lawfulness,
}

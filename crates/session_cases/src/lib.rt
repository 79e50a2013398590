// Tests of sessions: calls with the answers that the rules give, at every kind of lattice and every stage.
#![tactic(auto)]

#[cfg(test)]
mod calls;
#[cfg(test)]
mod driver;
#[cfg(test)]
mod kinds;
#[cfg(test)]
mod stages;

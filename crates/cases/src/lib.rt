// The worked examples as one theorem, and tests: a case of each refusal of tables and agreements, and layers piled on tables.
#![tactic(auto)]

#[cfg(test)]
mod agreements;
mod examples;
#[cfg(test)]
mod layers;
#[cfg(test)]
mod tables_of_cases;

pub use examples::worked_examples_hold;

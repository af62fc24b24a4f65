//! Batches of sets and deletes on a trie of hashed records: the new root, with the exact gains and
//! losses of texts.
#![tactic(auto)]

mod balance;
mod batch;
mod change;
mod errors;
mod former;
mod joining;
mod ledger;
mod merging;
mod old;
mod parting;
mod sorted;
mod updating;
mod values;
mod visiting;

pub use batch::update;
pub use change::{Change, Lost, LostText, Made, MadeText};
pub use errors::UpdateError;

#[cfg(test)]
mod balance_tests;
#[cfg(test)]
mod ledger_tests;
#[cfg(test)]
mod nested_tests;
#[cfg(test)]
mod seeded_tests;
#[cfg(test)]
mod stranger_tests;
#[cfg(test)]
mod tests;

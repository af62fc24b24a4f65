//! Recordings: a root, keys that are read, a batch of changes, and a partial state. How the reads
//! and changes are gathered, and how recordings are read from bytes and written.
#![tactic(auto)]

mod answers;
mod carrying;
mod fields;
mod laws;
mod noted_texts;
mod noting;
mod ops;
mod passing;
mod proof;
mod proof_error;
mod prove_error;
mod proving;
mod reading;
mod recorder;
mod replaying;
mod writing;

pub use answers::Answers;
pub use laws::most_reads_are_those_of_the_definition;
pub use ops::{MOST_READS, Ops};
pub use proof::Proof;
pub use proof_error::ProofError;
pub use prove_error::ProveError;
pub use proving::prove;
pub use recorder::Recorder;
pub use replaying::{ReplayError, Replayed, replay};

#[cfg(test)]
mod prove_tests;
#[cfg(test)]
mod replay_tests;
#[cfg(test)]
mod tests;

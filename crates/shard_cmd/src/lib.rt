//! The top call: a run of the program, from the command words and the bytes that come in to the bytes
//! that go out.
#![tactic(auto)]

mod apply;
mod events;
mod get;
mod history;
mod prove;
mod readings;
mod recording_replies;
mod replay;
mod reply;
mod reply_lines;
mod request;
mod root;
mod running;
mod script;
mod status;
mod writing;

pub use running::run;
pub use status::{Outcome, Status};

#[cfg(test)]
mod apply_tests;
#[cfg(test)]
mod prove_tests;
#[cfg(test)]
mod replay_tests;
#[cfg(test)]
mod shard_tests;
#[cfg(test)]
mod tests;

//! What every crate of the store speaks of: digests, texts, pairs, changes, the limits, what an
//! outside object answers where it fails, and the reader and writer of Borsh records.
#![tactic(auto)]

mod borsh_error;
mod changes;
mod failures;
mod fault;
mod hash;
mod hashing;
mod laws;
mod limits;
mod pairs;
mod put_error;
mod reader;
mod refusal;
mod text;
mod writer;

pub use borsh_error::BorshError;
pub use changes::Changes;
pub use failures::Failures;
pub use fault::Fault;
pub use hash::{DIGEST_BYTES, Digest};
pub use hashing::digest;
pub use laws::{constants_are_those_of_the_definitions, digests_are_ordered_as_bytes};
pub use limits::{LONGEST_KEY, LONGEST_VALUE, Limits};
pub use pairs::Pairs;
pub use put_error::PutError;
pub use reader::Reader;
pub use text::Text;
pub use writer::Writer;

#[cfg(test)]
mod tests;

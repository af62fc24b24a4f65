use base_core::{Digest, Text};

/// The record of a node, with the digest that names it and the usage that it states.
#[derive(Debug, Drop)]
pub struct Closed {
    pub text: Text,
    pub digest: Digest,
    pub usage: u64,
}

use base_core::Text;

/// A text that is held, and its count.
#[derive(Debug, Drop)]
pub(crate) struct Held {
    pub(crate) text: Text,
    pub(crate) count: u64,
}

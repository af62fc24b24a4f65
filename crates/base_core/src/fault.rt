/// What an object of the outside, such as a source, a sink or a store, answers where it failed.
#[derive(Clone, Copy, Debug, PartialEq, Eq)]
pub struct Fault;

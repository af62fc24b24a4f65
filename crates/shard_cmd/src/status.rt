use text_store::Nodes;

/// How a run ended. As a number it is the exit status of the program.
#[derive(Clone, Copy, Debug, PartialEq, Eq)]
pub enum Status {
    /// The input was read to its end, and all was written.
    Done = 0,
    /// There was no memory. Nothing more is written.
    NoMemory = 1,
    /// The words are no command. Nothing was read.
    Usage = 2,
    /// A line is none of a script, or stands where it may not, and its number was written; or the
    /// input is no recording, and the offset was written.
    Syntax = 3,
    /// What was asked for is refused, by the name that was written.
    Refused = 4,
    /// The source failed.
    ReadFault = 5,
    /// The sink failed.
    WriteFault = 6,
    /// The store failed.
    StoreFault = 7,
    /// Texts clash. Their digest was written.
    Clash = 8,
}

/// How a run ended, and the store that it was given.
#[derive(Debug, Drop)]
pub struct Outcome<N: Nodes> {
    pub status: Status,
    pub nodes: N,
}

//! Input and output: sources and sinks of bytes that count their faults, lines and whole inputs off
//! a source, what the lines of a script and the command words ask for, and numbers and byte strings
//! as printed.
#![tactic(auto)]

mod buffer;
mod command;
mod event;
mod event_words;
mod feed;
mod feed_error;
mod hex_bytes;
mod ids;
mod line_error;
mod lines;
mod mem_sink;
mod mem_source;
mod number;
mod op_list;
mod op_words;
mod output;
mod sink;
mod source;
mod std_streams;
mod window;
mod words;

pub use buffer::Buffer;
pub use command::{Command, CommandError, read_command};
pub use event::{Event, EventError, read_event};
pub use feed::Feed;
pub use feed_error::FeedError;
pub use line_error::LineError;
pub use lines::Lines;
pub use mem_sink::MemSink;
pub use mem_source::MemSource;
pub use op_list::{Op, OpList};
pub use output::{put, put_hex, put_number};
pub use sink::Sink;
pub use source::Source;
pub use std_streams::{StdSink, StdSource};

#[cfg(test)]
mod event_tests;
#[cfg(test)]
mod feed_tests;
#[cfg(test)]
mod op_tests;
#[cfg(test)]
mod tests;

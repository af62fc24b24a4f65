ghost use Rattle.std.specs.Prelude.{◌≡◌, ◌≤◌, ◌<◌, ◌+◌, [], Some, IfSome, IfOk, IfErr, OnOk, OnErr, length, take, drop};
ghost use Rattle.base_core.specs.Faults.{faults_after};
ghost use Rattle.script_model.specs.Lines.{longest_input};
ghost use Rattle.script_io.specs.LinesStates.{Extends};
ghost use Rattle.script_io.specs.Windows.{Takes};
ghost use Rattle.script_io.specs.FeedStates.{IsTakenWhole, IsUndecided, IsUnread, feed_ended};

use crate::feed_error::FeedError;
use crate::line_error::LineError;
use crate::source::Source;
use crate::window::{LONGEST_INPUT, Window};
use base_core::Text;
use std::alloc::Global;
use std::marker::Model;
use std::mem;

/// Takes the bytes of an input off a source, in whatever pieces the source gives them.
#[derive(Debug, Drop)]
pub struct Feed {
    window: Window,
    before: u64,
    alloc: Global,
}

impl Model for Feed {
    ghost use Rattle.std.specs.Prelude.{◌≤◌, drop};
    ghost use Rattle.script_model.specs.Lines.{longest_input};
    ghost use Rattle.script_io.specs.FeedStates.{FeedState};

    ghost Value = { FeedState };

    ghost view = { λ feed. record {
      pending = drop feed.window.start feed.window.bytes.items;
      before = feed.before;
    } };

    ghost invariant = { λ feed. feed.before ≤ longest_input };
}

impl Feed {
    /// No byte came. It takes no memory.
    pub fn new(alloc: Global) -> Feed
        ensures { result ≡ record { pending = []; before = 0 } }
    {
        Feed {
            window: Window::new(alloc),
            before: 0,
            alloc,
        }
    }

    /// Hands out all that is left of the input. A refusal takes no byte: the next call asks for the
    /// same bytes again. Each byte is copied once on its way from the source, and at most a few times
    /// more as room for it doubles.
    pub fn all<S: Source>(&mut self, source: &mut S) -> Result<Text, FeedError>
        ensures counted { S.faults source.new ≡ faults_after (feed_ended result) (S.faults source.old) }
        ensures after { IsTakenWhole self.old self.new (S.left source.old) (S.left source.new) result }
    {
        read_all(&mut self.window, source, self.before)?;
        let window = mem::replace(&mut self.window, Window::new(self.alloc));
        self.before += window.bytes.len() as u64;
        Ok(Text::from_bytes(window.bytes))
    }
}

/// Reads on until nothing is left. `before` bytes of the input came before the window.
fn read_all<S: Source>(window: &mut Window, source: &mut S, before: u64) -> Result<(), FeedError>
    requires { before ≤ longest_input }
    ensures start { OnOk result (window.new.start ≡ 0) }
    ensures extends { Extends (drop window.old.start window.old.bytes.items) (S.left source.old) (drop window.new.start window.new.bytes.items) (S.left source.new) }
    ensures all { OnOk result (IfSome (S.left source.old) (λ left. S.left source.new ≡ Some [])) }
    ensures fits { OnOk result (before + length (drop window.new.start window.new.bytes.items) ≤ longest_input) }
    ensures undecided { IfErr result (λ error. IsUndecided error before (drop window.new.start window.new.bytes.items)) }
    ensures counted { S.faults source.new ≡ faults_after (feed_ended result) (S.faults source.old) }
{
    loop {
        if window.pending().len() as u64 > LONGEST_INPUT - before {
            return Err(FeedError::Short { at: LONGEST_INPUT });
        }
        if fill(window, source)? == 0 {
            return Ok(());
        }
    }
}

/// Reads another piece behind the bytes, and answers how many bytes it has.
fn fill<S: Source>(window: &mut Window, source: &mut S) -> Result<usize, FeedError>
    ensures start { window.new.start ≡ 0 }
    ensures takes { IfOk result (λ n. IfSome (S.left source.old) (λ left.
        Takes left (S.left source.new) (drop window.old.start window.old.bytes.items) window.new.bytes.items n)) }
    ensures more { IfOk result (λ n. length window.new.bytes.items ≡ length (drop window.old.start window.old.bytes.items) + n) }
    ensures kept { take (length (drop window.old.start window.old.bytes.items)) window.new.bytes.items ≡ drop window.old.start window.old.bytes.items }
    ensures err { OnErr result (window.new.bytes.items ≡ drop window.old.start window.old.bytes.items) }
    ensures left { OnErr result (IfSome (S.left source.old) (λ left. S.left source.new ≡ Some left)) }
    ensures counted { S.faults source.new ≡ faults_after (feed_ended result) (S.faults source.old) }
    ensures unread { IfErr result (λ error. IsUnread error) }
{
    match window.fill(source) {
        Ok(n) => Ok(n),
        Err(LineError::ReadFault) => Err(FeedError::ReadFault),
        Err(LineError::NoMemory) => Err(FeedError::NoMemory),
        Err(LineError::Long) => unreachable!(),
        Err(LineError::Past) => unreachable!(),
    }
}

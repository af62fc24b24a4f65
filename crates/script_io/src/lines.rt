ghost use Rattle.std.specs.Prelude.{◌≡◌, []};
ghost use Rattle.std.specs.Borrow.{sem};
ghost use Rattle.std.specs.Io.BufRead.{Rests};
ghost use Rattle.base_core.specs.Faults.{faults_after};
ghost use Rattle.script_io.specs.LinesStates.{IsAsked, ended_by};
ghost use Rattle.script_io.specs.contracts.lines.Lines.{the_row};

use crate::line_error::LineError;
use crate::source::Source;
use crate::window::Window;
use std::alloc::Global;
use std::marker::Model;

/// Takes the lines of an input off a source, one after another, in whatever pieces the source gives
/// its bytes.
#[derive(Debug, Drop)]
pub struct Lines {
    window: Window,
    before: u64,
    lines: u64,
    number: u64,
}

impl Model for Lines {
    ghost use Rattle.std.specs.Prelude.{◌≤◌, drop};
    ghost use Rattle.script_io.specs.LinesStates.{LinesState, IsCount};

    ghost Value = { LinesState };

    ghost view = { λ lines. record {
      pending = drop lines.window.start lines.window.bytes.items;
      before = lines.before;
      lines = lines.lines;
      number = lines.number;
    } };

    ghost invariant = { λ lines. IsCount lines.lines lines.before };
}

impl Lines {
    /// No line was asked for. It takes no memory.
    pub fn new(alloc: Global) -> Lines
        ensures { result ≡ record { pending = []; before = 0; lines = 0; number = 0 } }
    {
        Lines {
            window: Window::new(alloc),
            before: 0,
            lines: 0,
            number: 0,
        }
    }

    /// Hands out the next line, without the line feed that ends it, or nothing where the input has
    /// ended. A refusal takes no byte: the next call asks for the same line again.
    pub fn next<S: Source>(&mut self, source: &mut S) -> Result<Option<&[u8]>, LineError>
        ensures counted { S.faults source.new ≡ faults_after (ended_by result) (S.faults source.old) }
        ensures* after { sem 𝓛 (Rests the_row self.entry (λ new. IsAsked self.old new (S.left source.old) (S.left source.new) result)) }
    {
        self.number = self.lines + 1;
        match self.window.find_line(source, self.before)? {
            None => Ok(None),
            Some(span) => {
                let from = self.window.start;
                let to = from + span.length;
                self.window.start = to + span.feed;
                self.before += (span.length + span.feed) as u64;
                self.lines += 1;
                Ok(Some(&self.window.bytes[from..to]))
            }
        }
    }

    /// Which line was asked for last. The first is line 1, and 0 says that none was. It takes no
    /// memory.
    pub fn number(&self) -> u64
        ensures { result ≡ self.now.number }
    {
        self.number
    }
}

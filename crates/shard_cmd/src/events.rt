ghost use Rattle.std.specs.Prelude.{◌≡◌, ◌+◌, ◌++◌, IfOk, IfSome};
ghost use Rattle.base_core.specs.Faults.{faults_after};
ghost use Rattle.shard_cmd.specs.Events.{NextIs, IsNext, line_stop, event_stop, event_ended};
ghost use Rattle.script_model.specs.Bounds.{IsAsked};
ghost use Rattle.script_io.specs.Meanings.{event};

use script_io::{Event, EventError, LineError, Lines, Source, read_event};
use std::alloc::Global;

/// Why there is no next event.
#[derive(Clone, Copy, Debug, PartialEq, Eq)]
pub enum Stop {
    /// The line is none of a script.
    Syntax,
    /// The source failed.
    ReadFault,
    /// There was no memory.
    NoMemory,
}

impl From<LineError> for Stop {
    fn from(error: LineError) -> Stop
        ensures { result ≡ line_stop error }
    {
        match error {
            LineError::Long | LineError::Past => Stop::Syntax,
            LineError::ReadFault => Stop::ReadFault,
            LineError::NoMemory => Stop::NoMemory,
        }
    }
}

impl From<EventError> for Stop {
    fn from(error: EventError) -> Stop
        ensures { result ≡ event_stop error }
    {
        match error {
            EventError::Bad => Stop::Syntax,
            EventError::NoMemory => Stop::NoMemory,
        }
    }
}

/// What the next line of a script asks for, or nothing at the end of the input.
pub fn next_event<S: Source>(
    alloc: Global,
    lines: &mut Lines,
    source: &mut S,
) -> Result<Option<Event>, Stop>
    ensures next { IfSome (S.left source.old) (λ left. NextIs (lines.old.pending ++ left) lines.old lines.new (S.left source.new) result) }
    ensures within { IfOk result (λ found. IfSome found (λ asked. IsAsked (event asked))) }
    ensures number { lines.new.number ≡ lines.old.lines + 1 }
    ensures more { IfOk result (λ found. IfSome found (λ _. IsNext lines.old lines.new)) }
    ensures counted { S.faults source.new ≡ faults_after (event_ended result) (S.faults source.old) }
{
    match lines.next(source) {
        Ok(Some(line)) => match read_event(alloc, line) {
            Ok(event) => Ok(Some(event)),
            Err(error) => Err(Stop::from(error)),
        },
        Ok(None) => Ok(None),
        Err(error) => Err(Stop::from(error)),
    }
}

ghost use Rattle.std.specs.Prelude.{◌≡◌, Some, IfSome};
ghost use Rattle.output_model.specs.Ends.{Output};
ghost use Rattle.shard_cmd.specs.Ends.{ending_of, EndsAs, FinishesAs, Finishes, IsWritten};

use crate::status::Status;
use script_io::{Sink, put};

/// Writes the last bytes of a run, and answers the status once they are written.
pub fn finish<K: Sink>(sink: &mut K, bytes: &[u8], status: Status) -> Status
    ensures output { (output : Output) → bytes.now ≡ output.bytes → ending_of status ≡ Some output.ending →
        IfSome (K.written sink.old) (λ before. EndsAs output (ending_of result) before (K.written sink.new)) }
    ensures status { FinishesAs status result (K.faults sink.old) (K.faults sink.new) }
    ensures written { IfSome (K.written sink.old) (λ before. IsWritten status result bytes.now before (K.written sink.new)) }
{
    match put(sink, bytes) {
        Ok(()) => status,
        Err(_) => Status::WriteFault,
    }
}

/// Writes the replies that are gathered where a history has ended so, and answers how the run ends.
/// Where memory or the sink failed nothing more is written.
pub fn finish_history<K: Sink>(sink: &mut K, bytes: &[u8], ended: Status) -> Status
    ensures { Finishes ended result bytes.now (K.written sink.old) (K.written sink.new) (K.faults sink.old) (K.faults sink.new) }
{
    match ended {
        Status::NoMemory => Status::NoMemory,
        Status::WriteFault => Status::WriteFault,
        ended => finish(sink, bytes, ended),
    }
}

ghost use Rattle.std.specs.Prelude.{ℕ, List, IfOk, IfSome, Option};
ghost use Rattle.base_core.specs.Faults.{IsCounted};
ghost use Rattle.script_io.specs.Streams.{IsTaken, Writes};

use base_core::Fault;

/// Where bytes go, one piece after another.
pub trait Sink {
    /// The bytes that were written, where the sink tells them. Once told they stay told.
    ghost written: { Self → Option (List ℕ) };

    /// How often the sink has failed, up to 2^64 - 1.
    ghost faults: { Self → ℕ };

    /// Takes bytes from the start of the piece, at least one where there is one, and answers how many.
    fn write(&mut self, piece: &[u8]) -> Result<usize, Fault>
        ensures taken { IfOk result (IsTaken piece.now) }
        ensures bytes { IfSome (written self.old) (λ before. Writes before (written self.new) piece.now result) }
        ensures counted { IsCounted (faults self.old) (faults self.new) result };
}

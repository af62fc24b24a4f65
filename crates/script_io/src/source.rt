ghost use Rattle.std.specs.Prelude.{ℕ, ◌≤◌, List, length, IfOk, IfSome, Option};
ghost use Rattle.base_core.specs.Faults.{IsCounted};
ghost use Rattle.script_io.specs.Streams.{Reads};

use base_core::Fault;

/// Where bytes come from, one piece after another.
pub trait Source {
    /// The bytes that reads will still give, where the source tells them. Once told they stay told.
    ghost left: { Self → Option (List ℕ) };

    /// How often the source has failed, up to 2^64 - 1.
    ghost faults: { Self → ℕ };

    /// Puts bytes at the start of the buffer, and answers how many. For a buffer with room, 0 is the
    /// end of the input.
    fn read(&mut self, into: &mut [u8]) -> Result<usize, Fault>
        ensures fits { IfOk result (λ n. n ≤ length into.old) }
        ensures bytes { IfSome (left self.old) (λ input. Reads input (left self.new) (length into.old) into.new result) }
        ensures counted { IsCounted (faults self.old) (faults self.new) result };
}

// What a source and a sink mean.
ghost use Rattle.std.specs.Prelude.{◌≡◌, ℕ, List, Option, ◌+◌, ◌<◌, ◌≤◌, length, IfOk};
ghost use Rattle.std.specs.Io.KnownBytes.{ReadConsumes, WriteAppends};
ghost use Rattle.rem_base.specs.Counts.{Counts};

use crate::errors::Failed;

/// Where bytes come from.
pub trait Source {
    /// The bytes that are left, where the source tells them.
    ghost left: { Self → Option (List ℕ) };

    /// How often a read has failed.
    ghost faults: { Self → ℕ };

    /// A number that one call raises by one at most: what bounds it over a longer call bounds the calls made.
    ghost turns: { Self → ℕ };

    /// Reads some of the bytes that are left into the front of the buffer, and none only at the end.
    fn read(&mut self, buf: &mut [u8]) -> Result<usize, Failed>
        requires { 0 < length buf.old }
        ensures bound { IfOk result (λ n. n ≤ length buf.new) }
        ensures bytes { ReadConsumes (left self.old) (left self.new) result buf.new }
        ensures count { Counts (faults self.old) (faults self.new) result }
        ensures turn { turns self.new ≤ turns self.old + 1 };
}

/// Where bytes go.
pub trait Sink {
    /// The bytes that were written, where the sink tells them.
    ghost written: { Self → Option (List ℕ) };

    /// How often a write has failed.
    ghost faults: { Self → ℕ };

    /// A number that one call raises by one at most: what bounds it over a longer call bounds the calls made.
    ghost turns: { Self → ℕ };

    /// Appends some of the front of the piece, at least one byte.
    fn write(&mut self, piece: &[u8]) -> Result<usize, Failed>
        requires { 0 < length piece.now }
        ensures bound { IfOk result (λ n. (0 < n) × (n ≤ length piece.now)) }
        ensures bytes { WriteAppends (written self.old) (written self.new) result piece.now }
        ensures count { Counts (faults self.old) (faults self.new) result }
        ensures turn { turns self.new ≤ turns self.old + 1 };
}

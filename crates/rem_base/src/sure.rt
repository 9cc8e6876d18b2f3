// A source and a sink that never fail.
ghost use Rattle.std.specs.Prelude.{◌≡◌, ◌≤◌, drop, take, min, length, vec_len, Some, None};

use crate::errors::Failed;
use crate::traits::{Sink, Source};

/// A source that gives its bytes and never fails.
#[derive(Drop)]
pub struct SureSource {
    bytes: Vec<u8>,
    at: usize,
    ghost in_bytes: { at ≤ vec_len bytes },
}

impl SureSource {
    ghost use Rattle.rem_base.specs.Sure.{sure_left};

    /// A source of these bytes. Takes no memory.
    pub fn new(bytes: Vec<u8>) -> SureSource
        ensures { sure_left result ≡ bytes.items }
    {
        SureSource { bytes, at: 0 }
    }
}

impl Source for SureSource {
    ghost use Rattle.rem_base.specs.Sure.{sure_left};

    ghost left = { λ s. Some (sure_left s) };

    ghost faults = { λ _. 0 };

    ghost turns = { λ _. 0 };

    fn read(&mut self, buf: &mut [u8]) -> Result<usize, Failed> {
        let count = copy_front(&self.bytes[self.at..], buf, usize::MAX);
        self.at += count;
        Ok(count)
    }
}

// Copies as much of the front of `from` as has room in `to`, at most so many bytes, and says how many.
pub(crate) fn copy_front(from: &[u8], to: &mut [u8], most: usize) -> usize
    ensures count { result ≡ min most (min (length from.now) (length to.old)) }
    ensures front { take result to.new ≡ take result from.now }
{
    let count = most.min(from.len().min(to.len()));
    to[..count].copy_from_slice(&from[..count]);
    count
}

/// A sink that takes each piece whole and keeps nothing.
#[derive(Drop)]
pub struct SureSink {}

impl SureSink {
    /// A sink. Takes no memory.
    pub fn new() -> SureSink {
        SureSink {}
    }
}

impl Sink for SureSink {
    ghost use Rattle.std.specs.Prelude.{◌<◌, IfOk, IsOkAnd};
    ghost use Rattle.std.specs.Io.KnownBytes.{WriteAppends};
    ghost use Rattle.rem_base.specs.Counts.{Counts};

    ghost written = { λ _. None };

    ghost faults = { λ _. 0 };

    ghost turns = { λ _. 0 };

    fn write(&mut self, piece: &[u8]) -> Result<usize, Failed>
        requires { 0 < length piece.now }
        ensures bound { IfOk result (λ n. (0 < n) × (n ≤ length piece.now)) }
        ensures bytes { WriteAppends None None result piece.now }
        ensures count { Counts 0 0 result }
        // It takes the piece whole.
        ensures whole { IsOkAnd result (λ n. n ≡ length piece.now) }
    {
        Ok(piece.len())
    }
}

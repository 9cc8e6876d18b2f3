// A source and a sink in memory, whose calls fail where they are told to.
ghost use Rattle.std.specs.Prelude.{◌≡◌, ℕ, ◌+◌, ◌-◌, ◌^◌, ◌<◌, ◌≤◌, [], length, take, drop, IfOk, vec_len, Some};

use crate::errors::{Failed, Memory};
use crate::sure::copy_front;
use crate::traits::{Sink, Source};
use std::alloc::Global;

/// A source that gives these bytes, at most `step` a call. The calls with the numbers in `failing` fail, counted from 1.
#[derive(Drop)]
pub struct MemSource {
    bytes: Vec<u8>,
    at: usize,
    step: usize,
    failing: Vec<u64>,
    calls: u64,
    faults: u64,
    ghost in_bytes: { at ≤ vec_len bytes },
    ghost goes_on: { 1 ≤ step },
}

impl MemSource {
    ghost use Rattle.rem_base.specs.InMemory.{source_left, source_step, source_failing, source_calls, source_faults};

    /// A source of these bytes. `step` is at least 1. Takes no memory.
    pub fn new(bytes: Vec<u8>, step: usize, failing: Vec<u64>) -> MemSource
        requires { 1 ≤ step }
        ensures left { source_left result ≡ bytes.items }
        ensures step { source_step result ≡ step }
        ensures failing { source_failing result ≡ failing.items }
        ensures calls { source_calls result ≡ 0 }
        ensures faults { source_faults result ≡ 0 }
    {
        MemSource {
            bytes,
            at: 0,
            step,
            failing,
            calls: 0,
            faults: 0,
        }
    }
}

impl Source for MemSource {
    ghost use Rattle.std.specs.Prelude.{OnOk, OnErr, min};
    ghost use Rattle.std.specs.List.{Contains};
    ghost use Rattle.std.specs.Io.KnownBytes.{ReadConsumes};
    ghost use Rattle.rem_base.specs.Counts.{Counts};
    ghost use Rattle.rem_base.specs.InMemory.{source_left, source_step, source_failing, source_calls, source_faults};

    ghost left = { λ s. Some (source_left s) };

    ghost faults = { λ s. source_faults s };

    ghost turns = { λ s. source_calls s };

    fn read(&mut self, buf: &mut [u8]) -> Result<usize, Failed>
        requires { 0 < length buf.old }
        ensures bound { IfOk result (λ n. n ≤ length buf.new) }
        ensures bytes { ReadConsumes (Some (source_left self.old)) (Some (source_left self.new)) result buf.new }
        ensures count { Counts (source_faults self.old) (source_faults self.new) result }
        ensures turn { source_calls self.new ≤ source_calls self.old + 1 }
        // It gives as much as it may.
        ensures most { IfOk result (λ n. n ≡ min (source_step self.old) (min (length (source_left self.old)) (length buf.old))) }
        // It fails where it is told to, and nowhere else.
        ensures told { OnErr result (Contains (source_failing self.old) (source_calls self.new)) }
        ensures not_told { OnOk result (¬ (Contains (source_failing self.old) (source_calls self.new))) }

        // Calls and faults are counted, and the rest stays.
        ensures called { source_calls self.new ≡ min (source_calls self.old + 1) (2 ^ 64 - 1) }
        ensures failed { OnErr result (source_faults self.new ≡ min (source_faults self.old + 1) (2 ^ 64 - 1)) }
        ensures step { source_step self.new ≡ source_step self.old }
        ensures failing { source_failing self.new ≡ source_failing self.old }
    {
        self.calls = self.calls.saturating_add(1);
        if self.failing.contains(&self.calls) {
            self.faults = self.faults.saturating_add(1);
            return Err(Failed);
        }
        let count = copy_front(&self.bytes[self.at..], buf, self.step);
        self.at += count;
        Ok(count)
    }
}

/// A sink with a room of its own, which takes at most `step` bytes a call. The calls with the numbers in `failing` fail,
/// counted from 1, and so does a call that finds no room.
#[derive(Drop)]
pub struct MemSink {
    room: Vec<u8>,
    used: usize,
    step: usize,
    failing: Vec<u64>,
    calls: u64,
    faults: u64,
    ghost in_room: { used ≤ vec_len room },
    ghost goes_on: { 1 ≤ step },
}

impl MemSink {
    ghost use Rattle.rem_base.specs.InMemory.{sink_written, sink_free, sink_step, sink_failing, sink_calls, sink_faults};

    /// A sink with room for so many bytes. `step` is at least 1. `Memory` where the room is not to be had.
    pub fn new(
        alloc: Global,
        room: usize,
        step: usize,
        failing: Vec<u64>,
    ) -> Result<MemSink, Memory>
        requires { 1 ≤ step }
        ensures empty { IfOk result (λ sink. sink_written sink ≡ []) }
        ensures free { IfOk result (λ sink. sink_free sink ≡ room) }
        ensures step { IfOk result (λ sink. sink_step sink ≡ step) }
        ensures failing { IfOk result (λ sink. sink_failing sink ≡ failing.items) }
        ensures calls { IfOk result (λ sink. sink_calls sink ≡ 0) }
        ensures faults { IfOk result (λ sink. sink_faults sink ≡ 0) }
    {
        Ok(MemSink {
            room: vec![in alloc; 0; room]?,
            used: 0,
            step,
            failing,
            calls: 0,
            faults: 0,
        })
    }

    /// What was written.
    pub fn written(&self) -> &[u8]
        ensures { result.now ≡ sink_written self.now }
    {
        &self.room[..self.used]
    }
}

impl Sink for MemSink {
    ghost use Rattle.std.specs.Prelude.{OnOk, OnErr, min, ◌⊎◌};
    ghost use Rattle.std.specs.List.{Contains};
    ghost use Rattle.std.specs.Io.KnownBytes.{WriteAppends};
    ghost use Rattle.rem_base.specs.Counts.{Counts};
    ghost use Rattle.rem_base.specs.InMemory.{sink_written, sink_free, sink_step, sink_failing, sink_calls, sink_faults};

    ghost written = { λ s. Some (sink_written s) };

    ghost faults = { λ s. sink_faults s };

    ghost turns = { λ s. sink_calls s };

    fn write(&mut self, piece: &[u8]) -> Result<usize, Failed>
        requires { 0 < length piece.now }
        ensures bound { IfOk result (λ n. (0 < n) × (n ≤ length piece.now)) }
        ensures bytes { WriteAppends (Some (sink_written self.old)) (Some (sink_written self.new)) result piece.now }
        ensures count { Counts (sink_faults self.old) (sink_faults self.new) result }
        ensures turn { sink_calls self.new ≤ sink_calls self.old + 1 }
        // It takes as much as it may.
        ensures most { IfOk result (λ n. n ≡ min (sink_step self.old) (min (length piece.now) (sink_free self.old))) }
        // It fails where it is told to and where it has no room, and nowhere else.
        ensures told { OnErr result (Contains (sink_failing self.old) (sink_calls self.new) ⊎ (sink_free self.old ≡ 0)) }
        ensures not_told { OnOk result (¬ (Contains (sink_failing self.old) (sink_calls self.new))) }

        // Calls and faults are counted, room is used up by what is written, and the rest stays.
        ensures called { sink_calls self.new ≡ min (sink_calls self.old + 1) (2 ^ 64 - 1) }
        ensures failed { OnErr result (sink_faults self.new ≡ min (sink_faults self.old + 1) (2 ^ 64 - 1)) }
        ensures step { sink_step self.new ≡ sink_step self.old }
        ensures failing { sink_failing self.new ≡ sink_failing self.old }
        ensures room { length (sink_written self.new) + sink_free self.new ≡ length (sink_written self.old) + sink_free self.old }
    {
        self.calls = self.calls.saturating_add(1);
        let free = self.room.len() - self.used;
        if free == 0 {
            self.faults = self.faults.saturating_add(1);
            return Err(Failed);
        }
        if self.failing.contains(&self.calls) {
            self.faults = self.faults.saturating_add(1);
            return Err(Failed);
        }
        let count = self.step.min(piece.len().min(free));
        self.room[self.used..self.used + count].copy_from_slice(&piece[..count]);
        self.used += count;
        Ok(count)
    }
}

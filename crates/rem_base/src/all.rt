// Reading and writing to the end.
ghost use Rattle.std.specs.Prelude.{◌≡◌, ◌≢◌, ℕ, ◌+◌, ◌^◌, ◌<◌, ◌≤◌, ◌++◌, take, length, IfOk, IfSome, OnOk, OnErr, IsErrOf, vec_len};
ghost use Rattle.std.specs.Io.KnownBytes.{IsAtEnd, Appends, Consumes};
ghost use Rattle.rem_base.specs.Counts.{Rose, Counts};
ghost use Rattle.rem_base.specs.Taken.{TakesAtMost, AppendsFront};

use crate::errors::{ReadRefusal, WriteFault};
use crate::traits::{Sink, Source};
use std::alloc::Global;

/// How many bytes are read at a time.
const CHUNK: usize = 4096;

/// All bytes up to the end, where they are at most `max`, which is below 2^32.
///
/// `TooLong` comes exactly where there are more than `max` bytes; `max + 1` of them may then have been taken. `ReadFault`
/// comes only where a read failed, and the first failed read ends the call. `Memory` comes where the bytes find no room.
/// Each turn but the last takes a byte, so there are at most `max + 2` turns.
pub fn read_all<S: Source>(alloc: Global, s: &mut S, max: usize) -> Result<Vec<u8>, ReadRefusal>
    requires { max < 2 ^ 32 }
    ensures length { IfOk result (λ v. vec_len v ≤ max) }
    ensures all { IfOk result (λ v. Consumes (S.left s.old) (S.left s.new) v.items) }
    ensures end { OnOk result (IsAtEnd (S.left s.new)) }
    ensures too_long { IsErrOf result ReadRefusal.TooLong → IfSome (S.left s.old) (λ bytes. max < length bytes) }
    ensures fault { IsErrOf result ReadRefusal.ReadFault → Rose (S.faults s.old) (S.faults s.new) }
    ensures no_fault { result ≢ Err ReadRefusal.ReadFault → S.faults s.new ≡ S.faults s.old }
    ensures no_less { S.faults s.old ≤ S.faults s.new }
    ensures taken { TakesAtMost (max + 1) (S.left s.old) (S.left s.new) }
    ensures turns { S.turns s.new ≤ S.turns s.old + (max + 2) }
{
    let mut out = Vec::new(alloc);
    for turn in 0..max + 2 {
        let room = max + 1 - out.len();
        let count = take_some(s, &mut out, room)?;
        if count == 0 {
            return Ok(out);
        }
        if out.len() > max {
            return Err(ReadRefusal::TooLong);
        }
    }
    unreachable!()
}

// Reads some bytes to the end of `out`, at most so many, and none only at the end.
fn take_some<S: Source>(s: &mut S, out: &mut Vec<u8>, most: usize) -> Result<usize, ReadRefusal>
    requires { 0 < most }
    ensures bytes { (bytes : _) × (length bytes ≤ most) × Consumes (S.left s.old) (S.left s.new) bytes
        × IfOk result (λ n. (out.new.items ≡ out.old.items ++ bytes) × (length bytes ≡ n)) }
    ensures end { IfOk result (λ n. n ≡ 0 → IsAtEnd (S.left s.new)) }
    ensures short { IsErrOf result ReadRefusal.TooLong → ⊥ }
    ensures fault { IsErrOf result ReadRefusal.ReadFault → Rose (S.faults s.old) (S.faults s.new) }
    ensures no_fault { result ≢ Err ReadRefusal.ReadFault → S.faults s.new ≡ S.faults s.old }
    ensures no_less { S.faults s.old ≤ S.faults s.new }
    ensures turn { S.turns s.new ≤ S.turns s.old + 1 }
{
    let mut chunk = [0u8; CHUNK];
    let room = most.min(CHUNK);
    let Ok(count) = s.read(&mut chunk[..room]) else {
        return Err(ReadRefusal::ReadFault);
    };
    if out.extend_from_slice(&chunk[..count]).is_err() {
        return Err(ReadRefusal::Memory);
    }
    Ok(count)
}

/// Appends the whole text. `WriteFault` comes only where a write failed, and then a front of the text was appended. Takes no
/// memory, and makes no call for the empty text.
pub fn write_all<K: Sink>(k: &mut K, text: &[u8]) -> Result<(), WriteFault>
    ensures all { OnOk result (Appends (K.written k.old) (K.written k.new) text.now) }
    ensures front { OnErr result (AppendsFront (K.written k.old) (K.written k.new) text.now) }
    ensures count { Counts (K.faults k.old) (K.faults k.new) result }
    ensures turns { K.turns k.new ≤ K.turns k.old + length text.now }
{
    let mut done = 0;
    while done < text.len() {
        match k.write(&text[done..]) {
            Ok(count) => done += count,
            Err(_) => return Err(WriteFault),
        }
    }
    Ok(())
}

// Sources and sinks over the standard library's readers, writers and files.
ghost use Rattle.std.specs.Prelude.{◌≡◌, ◌+◌, ◌-◌, ◌^◌, ◌<◌, ◌≤◌, None};

use crate::errors::Failed;
use crate::traits::{Sink, Source};
use std::alloc::Global;
use std::fs;
use std::io::{Read, Write};
use std::rt::Files;

/// A reader as a source. Each `Err` of the reader is a fault.
#[derive(Drop)]
pub struct ReadSource<R> {
    inner: R,
    faults: u64,
}

impl<R: Read> ReadSource<R> {
    ghost use Rattle.rem_base.specs.Adapters.{reader_of, reads_failed};

    /// A source over this reader. Takes no memory.
    pub fn new(inner: R) -> ReadSource<R>
        ensures inner { reader_of result ≡ inner }
        ensures faults { reads_failed result ≡ 0 }
    {
        ReadSource { inner, faults: 0 }
    }
}

impl<R: Read> Source for ReadSource<R> {
    ghost use Rattle.rem_base.specs.Adapters.{reader_of, reads_failed};

    ghost left = { λ s. R.remaining (reader_of s) };

    ghost faults = { λ s. reads_failed s };

    ghost turns = { λ _. 0 };

    fn read(&mut self, buf: &mut [u8]) -> Result<usize, Failed> {
        match self.inner.read(buf) {
            Ok(count) => Ok(count),
            Err(_) => {
                self.faults = self.faults.saturating_add(1);
                Err(Failed)
            }
        }
    }
}

/// A writer as a sink. Each `Err` of the writer is a fault, and so is a 0 for a piece.
#[derive(Drop)]
pub struct WriteSink<W> {
    inner: W,
    faults: u64,
}

impl<W: Write> WriteSink<W> {
    ghost use Rattle.rem_base.specs.Adapters.{writer_of, writes_failed};

    /// A sink over this writer. Takes no memory.
    pub fn new(inner: W) -> WriteSink<W>
        ensures inner { writer_of result ≡ inner }
        ensures faults { writes_failed result ≡ 0 }
    {
        WriteSink { inner, faults: 0 }
    }
}

impl<W: Write> Sink for WriteSink<W> {
    ghost use Rattle.rem_base.specs.Adapters.{writer_of, writes_failed};

    ghost written = { λ k. W.contents (writer_of k) };

    ghost faults = { λ k. writes_failed k };

    ghost turns = { λ _. 0 };

    fn write(&mut self, piece: &[u8]) -> Result<usize, Failed> {
        match self.inner.write(piece) {
            Ok(count) if count > 0 => Ok(count),
            _ => {
                self.faults = self.faults.saturating_add(1);
                Err(Failed)
            }
        }
    }
}

/// A file as a source. It is opened at the first read, and an opening that fails is a fault.
#[derive(Drop)]
pub struct FileSource<R: Files> {
    rt: R,
    path: String,
    file: Option<R::File>,
    faults: u64,
}

impl<R: Files> FileSource<R> {
    ghost use Rattle.rem_base.specs.Adapters.{file_faults};

    /// A source over the file at this path, which is not opened yet. `rt` is the runtime through which files are opened.
    /// Takes no memory.
    pub fn new(rt: R, _alloc: Global, path: String) -> FileSource<R>
        ensures { file_faults result ≡ 0 }
    {
        FileSource {
            rt,
            path,
            file: None,
            faults: 0,
        }
    }
}

impl<R: Files> Source for FileSource<R> {
    ghost use Rattle.rem_base.specs.Adapters.{file_faults};

    ghost left = { λ _. None };

    ghost faults = { λ s. file_faults s };

    ghost turns = { λ _. 0 };

    fn read(&mut self, buf: &mut [u8]) -> Result<usize, Failed> {
        if self.file.is_none() {
            self.file = fs::open(&self.rt, self.path.as_str()).ok();
        }
        if let Some(file) = &mut self.file {
            if let Ok(count) = file.read(buf) {
                return Ok(count);
            }
        }
        self.faults = self.faults.saturating_add(1);
        Err(Failed)
    }
}

//! The program `remora`: makes the real objects of the outside and calls the driver.
#![tactic(auto)]

use rem_base::{FileSource, ReadSource, WriteSink};
use remora_driver::{Status, remora};
use std::process::ExitCode;
use std::{env, io};

// The words behind the program's name. Words that are not UTF-8 are no call, as no words are.
fn words(rt: &HostRuntime) -> io::Result<Vec<String>> {
    let mut words = Vec::new(rt.alloc());
    match env::args(rt) {
        Ok(args) => {
            for word in args.skip(1) {
                words.push(word)?;
            }
            Ok(words)
        }
        Err(e) if e.kind() == io::ErrorKind::InvalidData => Ok(words),
        Err(e) => Err(e),
    }
}

// The second word, or the empty path.
fn path(rt: &HostRuntime, words: &[String]) -> io::Result<String> {
    match words.get(1) {
        Some(word) => Ok(word.clone()?),
        None => Ok(String::new(rt.alloc())),
    }
}

fn main(rt: HostRuntime) -> ExitCode {
    let Ok(words) = words(&rt) else {
        return ExitCode::from(Status::Memory.code());
    };
    let Ok(path) = path(&rt, words.as_slice()) else {
        return ExitCode::from(Status::Memory.code());
    };
    let alloc = rt.alloc();
    let mut input = ReadSource::new(rt.stdin());
    let mut out = WriteSink::new(rt.stdout());
    let mut program = FileSource::new(rt, alloc, path);
    let status = remora(alloc, words.as_slice(), &mut program, &mut input, &mut out);
    ExitCode::from(status.code())
}

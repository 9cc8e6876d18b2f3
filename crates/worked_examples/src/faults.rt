// Sources and sinks that fail, and those over a reader and a writer.
use rem_base::{MemSink, MemSource, ReadSource, SureSource, WriteSink, read_all};
use remora_driver::{Status, remora};
use std::alloc::{AllocError, Global};
use std::process::Abort;
use std::test::Fail;

// Read 4 bytes at a time this takes six calls, the last at its end.
const SOURCE: &str = "(main ((x Int)) x)";

// Read byte by byte these data take two calls. The answer to them has 13 bytes: three calls, 5 bytes at a time.
const DATA: &str = "5";

// The call of the program's source, of the data and of the sink that fails, counted from 1 (0 where none does), the exit status,
// and what is written.
static FAILING: [(u64, u64, u64, u8, &str); 15] = [
    (0, 0, 0, 0, "(array () 5)\n"),
    (1, 0, 0, 4, ""),
    (2, 0, 0, 4, ""),
    (3, 0, 0, 4, ""),
    (4, 0, 0, 4, ""),
    (5, 0, 0, 4, ""),
    (6, 0, 0, 4, ""),
    (7, 0, 0, 0, "(array () 5)\n"),
    (0, 1, 0, 4, ""),
    (0, 2, 0, 4, ""),
    (0, 3, 0, 0, "(array () 5)\n"),
    (0, 0, 1, 5, ""),
    (0, 0, 2, 5, "(arra"),
    (0, 0, 3, 5, "(array () "),
    (0, 0, 4, 0, "(array () 5)\n"),
];

// The words `run f`.
fn run(alloc: Global) -> Result<Vec<String>, AllocError> {
    let mut words = Vec::new(alloc);
    for word in ["run", "f"] {
        words.push(String::from_str(alloc, word)?)?;
    }
    Ok(words)
}

// A call whose program, data and sink fail at these calls ends with this status, and writes this text.
fn ends_with(
    rt: &impl Abort,
    alloc: Global,
    failing: (u64, u64, u64),
    status: u8,
    text: &str,
) -> Result<(), Fail> {
    let words = run(alloc)?;
    let (of_program, of_data, of_sink) = failing;
    let mut program = MemSource::new(
        SOURCE.as_bytes().to_vec(alloc)?,
        4,
        vec![in alloc; of_program]?,
    );
    let mut data = MemSource::new(DATA.as_bytes().to_vec(alloc)?, 1, vec![in alloc; of_data]?);
    let mut out = MemSink::new(alloc, 64, 5, vec![in alloc; of_sink]?)?;
    let ended = remora(alloc, words.as_slice(), &mut program, &mut data, &mut out);
    assert_eq!(rt; ended.code(), status, "{of_program} {of_data} {of_sink}");
    assert_eq!(rt;
        out.written(),
        text.as_bytes(),
        "{of_program} {of_data} {of_sink}"
    );
    Ok(())
}

#[test]
fn each_call_that_fails_ends_its_call_of_the_program(rt: HostRuntime) -> Result<(), Fail> {
    for (program, data, sink, status, text) in FAILING.iter() {
        ends_with(&rt, rt.alloc(), (*program, *data, *sink), *status, text)?;
    }
    Ok(())
}

#[test]
fn no_read_comes_behind_one_that_failed(rt: HostRuntime) -> Result<(), Fail> {
    let alloc = rt.alloc();
    let words = run(alloc)?;
    let mut input = SureSource::new(Vec::new(alloc));
    let mut failing = MemSource::new(b"(main () 1)".to_vec(alloc)?, 4, vec![in alloc; 2]?);
    let mut out = MemSink::new(alloc, 64, 64, Vec::new(alloc))?;
    let status = remora(alloc, words.as_slice(), &mut failing, &mut input, &mut out);
    assert_eq!(rt; status, Status::ReadFault);
    let rest = read_all(alloc, &mut failing, 11)?;
    assert_eq!(rt; rest.as_slice(), b"n () 1)".as_slice());
    Ok(())
}

#[test]
fn a_reader_and_a_writer(rt: HostRuntime) -> Result<(), Fail> {
    let alloc = rt.alloc();
    let words = run(alloc)?;
    let mut program = ReadSource::new(SOURCE.as_bytes());
    let mut input = ReadSource::new(DATA.as_bytes());
    let mut out = WriteSink::new(Vec::new(alloc));
    let status = remora(alloc, words.as_slice(), &mut program, &mut input, &mut out);
    assert_eq!(rt; status, Status::Ok);
    Ok(())
}

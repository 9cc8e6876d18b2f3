// Calls of the program over memory.
use rem_base::{MemSink, MemSource, Source, SureSource};
use remora_driver::{Status, remora};
use std::alloc::Global;
use std::process::Abort;
use std::test::Fail;

// So many bytes are read and written at a time.
const PIECE: usize = 100;

// So many bytes of output are kept.
const ROOM: usize = 4096;

/// What a call answers.
#[derive(Drop)]
pub struct Called {
    pub status: Status,
    pub text: MemSink,
}

/// Calls the program with these words, which blanks separate, and with no input.
pub fn call(alloc: Global, words: &str, source: &[u8]) -> Result<Called, Fail> {
    call_on(alloc, words, source, &mut SureSource::new(Vec::new(alloc)))
}

/// The same with this input.
pub fn call_on<I: Source>(
    alloc: Global,
    words: &str,
    source: &[u8],
    input: &mut I,
) -> Result<Called, Fail> {
    let mut given = Vec::new(alloc);
    for word in words.split_whitespace() {
        given.push(String::from_str(alloc, word)?)?;
    }
    let mut program = MemSource::new(source.to_vec(alloc)?, PIECE, Vec::new(alloc));
    let mut text = MemSink::new(alloc, ROOM, PIECE, Vec::new(alloc))?;
    let status = remora(alloc, given.as_slice(), &mut program, input, &mut text);
    Ok(Called { status, text })
}

/// The exit status of a call that prints this line, or none (docs/LANGUAGE.md, "Calls").
fn status_of(line: &str) -> u8 {
    match line.split_whitespace().next() {
        None => 7,
        Some("trap") => 1,
        Some("refused") => 2,
        Some("usage:") => 3,
        Some("still") => 6,
        Some("data") => 8,
        Some("stuck") => 9,
        Some(_) => 0,
    }
}

/// Calls the program, which has to print this line, or nothing where it is empty, and to end with the status that belongs to it.
pub fn prints(
    rt: &impl Abort,
    alloc: Global,
    words: &str,
    source: &[u8],
    line: &str,
) -> Result<(), Fail> {
    prints_on(rt, alloc, words, source, b"", line)
}

/// The same of a call on these data.
pub fn prints_on(
    rt: &impl Abort,
    alloc: Global,
    words: &str,
    source: &[u8],
    data: &[u8],
    line: &str,
) -> Result<(), Fail> {
    let end = if line.is_empty() { "" } else { "\n" };
    let due = format!(in alloc; "{line}{end}")?;
    let mut input = MemSource::new(data.to_vec(alloc)?, PIECE, Vec::new(alloc));
    let called = call_on(alloc, words, source, &mut input)?;
    let printed = str::from_utf8(called.text.written()).unwrap_or("no text");
    assert_eq!(rt; printed, due.as_str(), "{words}");
    assert_eq!(rt; called.status.code(), status_of(line), "{words}");
    Ok(())
}

/// Calls a command on data that comes to this line in so many steps and no fewer, `*` where that isn't said.
pub fn ends(
    rt: &impl Abort,
    alloc: Global,
    command: &str,
    source: &[u8],
    data: &[u8],
    steps: &str,
    line: &str,
) -> Result<(), Fail> {
    let words = format!(in alloc; "{command} f")?;
    prints_on(rt, alloc, words.as_str(), source, data, line)?;
    let Ok(least) = steps.parse::<u64>() else {
        assert_eq!(rt; steps, "*");
        return Ok(());
    };
    let enough = format!(in alloc; "{command} f --steps {least}")?;
    prints_on(rt, alloc, enough.as_str(), source, data, line)?;
    if least > 1 {
        let fewer = format!(in alloc; "{command} f --steps {}", least - 1)?;
        prints_on(rt, alloc, fewer.as_str(), source, data, "still running")?;
    }
    Ok(())
}

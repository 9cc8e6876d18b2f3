// Calls of the library that the program doesn't make.
use crate::codes::code_text;
use core_syntax::{Checked, Memory, TrapKind};
use remora_driver::{Answer, SourceRefusal, build, check_source, exec, reduce_source, run_source};
use std::alloc::{AllocError, Global};
use std::process::Abort;
use std::test::Fail;
use typed_step::{Closed, Next, start, step};

// A source, data beside it, and the answer.
static WITH_DATA: [(&str, &str, &str); 7] = [
    ("(main () (+ 1 2))", "", "(array () 3)\n"),
    ("(main () (+ 1 2))", " ; nothing\n", "(array () 3)\n"),
    ("(main () (+ 1 2))", " 51 2", "data refused 41 1:2"),
    ("(main () (+ 1 2))", "(", "data refused 40 1:1"),
    ("(main () x)", "5", "refused 8 1:10"),
    ("(main ((x Int)) x)", "5", "(array () 5)\n"),
    ("(main () (div 1 0))", "", "trap"),
];

fn told(alloc: Global, answer: &Answer) -> Result<String, AllocError> {
    match answer {
        Answer::Text(text) => {
            String::from_str(alloc, str::from_utf8(text.as_slice()).unwrap_or("no text"))
        }
        Answer::Refused { number, span } => {
            format!(in alloc; "refused {number} {}:{}", span.line, span.col)
        }
        Answer::DataRefused { number, span } => {
            format!(in alloc; "data refused {number} {}:{}", span.line, span.col)
        }
        Answer::Trap(_) => String::from_str(alloc, "trap"),
        Answer::Stuck(_) => String::from_str(alloc, "stuck"),
        Answer::StillRunning => String::from_str(alloc, "still running"),
        Answer::Memory => String::from_str(alloc, "memory"),
    }
}

// The text of a source's code.
fn built(alloc: Global, source: &str) -> Result<Vec<u8>, Fail> {
    match build(alloc, source.as_bytes()) {
        Ok(text) => Ok(text),
        Err(SourceRefusal::Refused { .. }) => Ok(Vec::new(alloc)),
        Err(SourceRefusal::Memory) => Err(Fail::from("no memory")),
    }
}

// A source is run, executed and reduced with the data.
fn answers(
    rt: &impl Abort,
    alloc: Global,
    source: &str,
    data: &[u8],
    line: &str,
) -> Result<(), Fail> {
    let run = run_source(alloc, source.as_bytes(), data, 10);
    assert_eq!(rt; told(alloc, &run)?.as_str(), line, "{source}");
    let reduced = reduce_source(alloc, source.as_bytes(), data, 10);
    assert_eq!(rt; told(alloc, &reduced)?.as_str(), line, "{source}");
    let code = built(alloc, source)?;
    if !code.is_empty() {
        let ended = exec(alloc, code.as_slice(), data, 10);
        assert_eq!(rt; told(alloc, &ended)?.as_str(), line, "{source}");
    }
    Ok(())
}

#[test]
fn sources_with_data(rt: HostRuntime) -> Result<(), Fail> {
    let alloc = rt.alloc();
    for (source, data, line) in WITH_DATA.iter() {
        answers(&rt, alloc, source, data.as_bytes(), line)?;
    }
    let blanks = vec![in alloc; 32; 1048577]?;
    answers(
        &rt,
        alloc,
        "(main () 1)",
        blanks.as_slice(),
        "data refused 44 1:1",
    )
}

// So many boxes stand in one another.
const DEPTH: usize = 20_000;

fn text_length(answer: &Answer) -> usize {
    match answer {
        Answer::Text(text) => text.len(),
        _ => 0,
    }
}

#[test]
fn boxes_in_one_another_are_shown(rt: HostRuntime) -> Result<(), Fail> {
    let alloc = rt.alloc();
    let blocks = format!(in alloc;
        "prim fold; tapp (shape); iapp ({DEPTH} (shape) (shape)) (shape); close fn 1 2; const () 0; prim replicate; tapp (shape); iapp ({DEPTH} (shape)) (shape); const () 0; app ((shape)) (shape {DEPTH}); app ((shape) (shape) (shape {DEPTH})) (shape) | var 1; box 1"
    )?;
    let code = code_text(alloc, blocks.as_str())?;
    let answer = exec(alloc, code.as_bytes(), b"", 1_000_000);
    // `(array ()`, for each box ` (box 1 (array ()` and `))`, ` 0`, `)` and the end of the line
    assert_eq!(rt; text_length(&answer), 9 + DEPTH * (17 + 2) + 2 + 1 + 1);
    Ok(())
}

// What a step comes to.
fn told_step(next: &Result<Next, Memory>) -> &'static str {
    match next {
        Ok(Next::Goes(_)) => "goes",
        Ok(Next::Value(_)) => "value",
        Ok(Next::Trap(TrapKind::Zero)) => "trap zero",
        Ok(Next::Trap(_)) => "another trap",
        Err(_) => "memory",
    }
}

fn stepped(alloc: Global, closed: Closed) -> &'static str {
    let next = step(alloc, closed);
    let told = told_step(&next);
    drop(next);
    told
}

// What the first step of a program without inputs comes to.
fn first_step(alloc: Global, checked: &Checked) -> &'static str {
    if !checked.inputs().is_empty() {
        return "inputs";
    }
    match start(alloc, checked, &[]) {
        Ok(closed) => stepped(alloc, closed),
        Err(_) => "memory",
    }
}

fn first_step_of_source(alloc: Global, source: &str) -> &'static str {
    match check_source(alloc, source.as_bytes()) {
        Ok(checked) => first_step(alloc, &checked),
        Err(_) => "refused",
    }
}

#[test]
fn the_first_step_of_a_program(rt: HostRuntime) {
    for (source, answer) in [
        ("(main () (+ 1 2))", "goes"),
        ("(main () 7)", "value"),
        ("(main () (div 1 0))", "trap zero"),
    ] {
        assert_eq!(rt;
            first_step_of_source(rt.alloc(), source),
            answer,
            "{source}"
        );
    }
}

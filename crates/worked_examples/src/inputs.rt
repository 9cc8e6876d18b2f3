// Programs and codes with inputs: what they come to on data, and when the input is read.
use crate::call::{call, call_on, prints_on};
use crate::examples::comes_to;
use crate::row::first;
use rem_base::MemSource;
use std::alloc::Global;
use std::process::Abort;
use std::test::Fail;

// One program a row: its source, its data, and its answers as in the table of examples.
static ON_DATA: &[&str] = &[
    "(main ((x Int) (y Bool)) x) => 5 #t => (A Int (shape)) => 2 => 1 => (array () 5)",
    "(main ((x Int) (y Bool)) y) => ; two values\n 5 ; and\n#t => (A Bool (shape)) => 2 => 1 => (array () #t)",
    "(main ((x (A Int (shape 2 3))) (y (A Int (shape 2)))) (+ x y)) => (array (2 3) 1 2 3 4 5 6) (array (2) 10 20) => (A Int (shape 2 3)) => 12 => 9 => (array (2 3) 11 12 13 24 25 26)",
    "(main ((s (A Char (shape 2)))) (char->int s)) => \"a \" => (A Int (shape 2)) => 7 => 5 => (array (2) 97 32)",
    "(main ((x (A Int (shape 0 3)))) (+ x 5)) => (array (0 3)) => (A Int (shape 0 3)) => 5 => 1 => (array (0 3))",
    "(main ((x Int)) ((fn ((y Int)) Int (* x y)) x)) => -3 => (A Int (shape)) => * => * => (array () 9)",
    "(main ((b (Sigma ((d Dim)) (A Int (shape d))))) b) => (box 2 (array (2) 7 8)) => (A (Sigma ((i0 Dim)) (A Int (shape i0))) (shape)) => 2 => 1 => (array () (box 2 (array (2) 7 8)))",
    "(main ((b (A (Sigma ((s Shape)) (A Int s)) (shape 2)))) b) => (array (2) (box (shape) 5) (box (shape 2) (array (2) 6 7))) => (A (Sigma ((i0 Shape)) (A Int i0)) (shape 2)) => 2 => 1 => (array (2) (box (shape) (array () 5)) (box (shape 2) (array (2) 6 7)))",
    "(main ((b (Sigma ((d Dim)) (A Int (shape d))))) (unbox (d v b) Int ((i-app (t-app length Int) d (shape)) v))) => (box 3 (array (3) 7 8 9)) => (A Int (shape)) => * => 4 => (array () 3)",
    "(main ((x Int)) (div 7 x)) => 0 => (A Int (shape)) => 5 => 1 => trap zero",
    "(main ((x (A Int (shape 4294967295 0)))) ((fn ((v (A Int (shape 0)))) Int 1) x)) => (array (4294967295 0)) => (A Int (shape 4294967295)) => 3 => 1 => trap size",
];

// One program a row: its source, data that doesn't fit its inputs, and the number and the place of the refusal (docs/LANGUAGE.md,
// "Data").
static UNFIT: &[&str] = &[
    "(main ((x (A Int (shape 2)))) x) =>  => 41 1:1",
    "(main ((x (A Int (shape 2)))) x) => ; none => 41 1:7",
    "(main ((x (A Int (shape 2)))) x) => (array (2) 1 2) 5 => 41 1:17",
    "(main ((x Int) (y Int)) x) => 1 => 41 1:2",
    "(main ((x Int)) x) => ( => 40 1:1",
    "(main ((x Int)) x) => y => 40 1:1",
    "(main ((x (A Int (shape 2)))) x) => (array (2) 1) => 40 1:1",
    "(main ((x (A Int (shape 2)))) x) => (array (3) 1 2 3) => 42 1:1",
    "(main ((b (Sigma ((d Dim)) (A Int (shape d))))) b) => (box 2 (array (3) 7 8 9)) => 42 1:8",
    "(main ((x (A Int (shape 2)))) x) => (array (2) 1 #t) => 43 1:14",
    "(main ((x Int) (y Int)) x) => 1\n\n  #t => 43 3:3",
    "(main ((x (A Int (shape 2)))) x) => (array (4294967296) 1) => 44 1:9",
];

// Words and a source or a code text for which the input isn't read, and the line that is printed.
static UNREAD: &[(&str, &str, &str)] = &[
    ("check f", "(main ((x Int)) x)", "ok (A Int (shape))"),
    ("run f", "(main () 1)", "(array () 1)"),
    ("run f", "(main ((x Int)) y)", "refused 8 1:17"),
    ("reduce f", "(main () 1)", "(array () 1)"),
    ("reduce f", "(main ((x Int)) (+ x #t))", "refused 21 1:22"),
    ("build f", "(main ((x Int)) (+ x #t))", "refused 21 1:22"),
    ("exec f", "remora-code 2", "refused 32 1:13"),
    (
        "exec f --steps 1",
        "remora-code 1\nparams 0\nblocks 1\nblock 1\nconst () 7\n",
        "still running",
    ),
];

// A code text with an input: it hands its one input on.
const HANDS_ON: &str = "remora-code 1\nparams 1\n(A Int (shape))\nblocks 1\nblock 1\nvar 0\n";

#[test]
fn programs_come_to_their_values_on_data(rt: HostRuntime) -> Result<(), Fail> {
    for row in ON_DATA.iter() {
        let (source, rest) = first(row)?;
        let (data, answers) = first(rest)?;
        comes_to(&rt, rt.alloc(), source.as_bytes(), data.as_bytes(), answers)?;
    }
    Ok(())
}

// A program and its code refuse these data.
fn unfit(
    rt: &impl Abort,
    alloc: Global,
    source: &[u8],
    data: &[u8],
    refusal: &str,
) -> Result<(), Fail> {
    let line = format!(in alloc; "data refused {refusal}")?;
    prints_on(rt, alloc, "run f", source, data, line.as_str())?;
    prints_on(rt, alloc, "reduce f", source, data, line.as_str())?;
    let built = call(alloc, "build f", source)?;
    prints_on(
        rt,
        alloc,
        "exec f",
        built.text.written(),
        data,
        line.as_str(),
    )
}

#[test]
fn data_that_does_not_fit_is_refused(rt: HostRuntime) -> Result<(), Fail> {
    for row in UNFIT.iter() {
        let (source, rest) = first(row)?;
        let (data, refusal) = first(rest)?;
        unfit(&rt, rt.alloc(), source.as_bytes(), data.as_bytes(), refusal)?;
    }
    let source = b"(main ((x Int)) x)";
    let long = vec![in rt.alloc(); b' '; 1_048_577]?;
    unfit(&rt, rt.alloc(), source, long.as_slice(), "44 1:1")?;
    let blanks = vec![in rt.alloc(); b' '; 1_048_576]?;
    unfit(&rt, rt.alloc(), source, blanks.as_slice(), "41 1:1048577")
}

// The exit status of a call whose input fails at the first read, where it prints this line.
fn faulted(
    rt: &impl Abort,
    alloc: Global,
    words: &str,
    source: &str,
    line: &str,
) -> Result<u8, Fail> {
    let mut input = MemSource::new(b"5".to_vec(alloc)?, 1, vec![in alloc; 1]?);
    let called = call_on(alloc, words, source.as_bytes(), &mut input)?;
    let printed = str::from_utf8(called.text.written()).unwrap_or("no text");
    assert_eq!(rt; printed.trim_end(), line, "{words}");
    Ok(called.status.code())
}

#[test]
fn the_input_is_read_only_where_it_is_data(rt: HostRuntime) -> Result<(), Fail> {
    let alloc = rt.alloc();
    for (words, source, line) in UNREAD.iter() {
        let status = faulted(&rt, alloc, words, source, line)?;
        assert!(rt; status != 4, "{words}");
    }
    for (words, source) in [
        ("run f", "(main ((x Int)) x)"),
        ("reduce f", "(main ((x Int)) x)"),
        ("exec f", HANDS_ON),
    ] {
        assert_eq!(rt; faulted(&rt, alloc, words, source, "")?, 4, "{words}");
    }
    Ok(())
}

// A code text of whatever origin runs on data.
#[test]
fn a_code_runs_on_data(rt: HostRuntime) -> Result<(), Fail> {
    prints_on(
        &rt,
        rt.alloc(),
        "exec f",
        HANDS_ON.as_bytes(),
        b"5",
        "(array () 5)",
    )
}

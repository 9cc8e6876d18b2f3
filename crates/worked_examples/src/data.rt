// Data at the types of inputs. Numbers and places are those of docs/LANGUAGE.md, "Data".
use crate::row::first;
use code_text::parse;
use machine_table::Param;
use std::alloc::{AllocError, Global};
use std::process::Abort;
use std::test::Fail;
use value_text::{DataRefusal, read_data, show};

// One text a row: the types of the inputs, a line each with ` | ` between them, the data, and the texts of the arrays that it is, or
// its refusal.
static DATA: &[&str] = &[
    // Values: arrays, scalars, strings and boxes.
    "(A Int (shape 2)) => (array (2) 1 2) => (array (2) 1 2)",
    "(A Int (shape)) | (A Bool (shape)) => 5 #t => (array () 5) (array () #t)",
    "(A Char (shape 2)) => \"ab\" => (array (2) #\\a #\\b)",
    "(A Int (shape 0 3)) => (array (0 3)) => (array (0 3))",
    "(A (Sigma ((i0 Dim)) (A Int (shape i0))) (shape)) => (box 3 (array (3) 7 8 9)) => (array () (box 3 (array (3) 7 8 9)))",
    "(A (Sigma ((i0 Shape) (i1 Dim)) (A Int (++ i0 (shape (+ i1 1))))) (shape)) => (box (shape 1 2) 0 (array (1 2 1) 7 8)) => (array () (box (shape 1 2) 0 (array (1 2 1) 7 8)))",
    // The counts of values.
    "(A Int (shape 2)) =>  => 41 1:1",
    "(A Int (shape 2)) => ; none => 41 1:7",
    "(A Int (shape 2)) => (array (2) 1 2) 5 => 41 1:17",
    "(A Int (shape 2)) | (A Int (shape)) => (array (2) 1 2) => 41 1:16",
    // What is no value or no atom.
    "(A Int (shape 2)) => (array (2) 1 => 40 1:1",
    "(A Int (shape 2)) => x => 40 1:1",
    "(A Int (shape 2)) => () => 40 1:1",
    "(A Int (shape 2)) => (array 2 1 2) => 40 1:1",
    "(A Int (shape 2)) => (array (-2) 1 2) => 40 1:1",
    "(A Int (shape 2)) => (array (2) 1) => 40 1:1",
    "(A Int (shape 2)) => (array (2) 1 2 3) => 40 1:1",
    "(A Int (shape 2)) => (array (2) 1 \"a\") => 40 1:14",
    "(A Int (shape 2)) => (array (2) 1 (array () 2)) => 40 1:14",
    "(A (Sigma ((i0 Dim)) (A Int (shape i0))) (shape)) => (box (array (0))) => 40 1:1",
    // Other dims than the type's.
    "(A Int (shape 2)) => (array (3) 1 2 3) => 42 1:1",
    "(A Int (shape 2 3)) => (array (3 2) 1 2 3 4 5 6) => 42 1:1",
    "(A Int (shape 2)) => 5 => 42 1:1",
    "(A (Sigma ((i0 Dim)) (A Int (shape i0))) (shape)) => (box 2 (array (3) 7 8 9)) => 42 1:8",
    "(A (Sigma ((i0 Dim)) (A (Sigma ((i1 Dim)) (A Int (shape i0 i1))) (shape))) (shape)) => (box 1 (box 2 (array (2 1) 7 8))) => 42 1:15",
    // Atoms of another kind.
    "(A Int (shape 2)) => (array (2) 1 #t) => 43 1:14",
    "(A Int (shape 2)) => \"ab\" => 43 1:1",
    "(A Int (shape)) => (box 1 (array (1) 1)) => 43 1:1",
    "(A (Sigma ((i0 Dim)) (A Int (shape i0))) (shape)) => 5 => 43 1:1",
    "(A (Sigma ((i0 Dim)) (A Int (shape i0))) (shape)) => (box (shape 1) (array (1) 1)) => 43 1:1",
    "(A (Sigma ((i0 Dim)) (A Int (shape i0))) (shape)) => (box 1 1 (array (1) 1)) => 43 1:1",
    // Beyond the limits.
    "(A Int (shape 2)) => (array (4294967296) 1) => 44 1:9",
    "(A Int (shape 2)) => (array (4294967295 2)) => 44 1:1",
    "(A (Sigma ((i0 Dim)) (A Int (shape i0))) (shape)) => (box 4294967296 (array (0))) => 44 1:6",
];

// The text of a code whose inputs have these types.
fn code_of(alloc: Global, types: &str) -> Result<String, AllocError> {
    let count = types.split(" | ").count();
    let mut text = format!(in alloc; "remora-code 1\nparams {count}\n")?;
    for part in types.split(" | ") {
        text.push_str(part)?;
        text.push_str("\n")?;
    }
    text.push_str("blocks 1\nblock 1\nvar 0\n")?;
    Ok(text)
}

// The texts of the arrays that data is read as, or its refusal.
fn told(alloc: Global, params: &[Param], data: &[u8]) -> Result<String, Fail> {
    let mut told = String::new(alloc);
    match read_data(alloc, params, data) {
        Ok(arrays) => {
            for array in &arrays {
                let text = show(alloc, array)?;
                if !told.is_empty() {
                    told.push_str(" ")?;
                }
                told.push_str(str::from_utf8(text.as_slice()).unwrap_or("no text"))?;
            }
            Ok(told)
        }
        Err(DataRefusal::Refused { number, span }) => {
            Ok(format!(in alloc; "{number} {}:{}", span.line, span.col)?)
        }
        Err(DataRefusal::Memory) => Err(Fail::from("no memory")),
    }
}

fn reads(rt: &impl Abort, alloc: Global, row: &str) -> Result<(), Fail> {
    let (types, rest) = first(row)?;
    let (data, line) = first(rest)?;
    let text = code_of(alloc, types)?;
    let Ok(code) = parse(alloc, text.as_bytes()) else {
        return Err(Fail::from("the types are none"));
    };
    let told = told(alloc, code.params(), data.as_bytes())?;
    assert_eq!(rt; told.as_str(), line, "{row}");
    Ok(())
}

#[test]
fn data_is_read_at_types(rt: HostRuntime) -> Result<(), Fail> {
    for row in DATA.iter() {
        reads(&rt, rt.alloc(), row)?;
    }
    Ok(())
}

// What is read of bytes at the type of one vector of two integers.
fn told_of_vector(alloc: Global, data: &[u8]) -> Result<String, Fail> {
    let text = code_of(alloc, "(A Int (shape 2))")?;
    match parse(alloc, text.as_bytes()) {
        Ok(code) => told(alloc, code.params(), data),
        Err(_) => Err(Fail::from("the type is none")),
    }
}

#[test]
fn data_beyond_the_limits_of_texts(rt: HostRuntime) -> Result<(), Fail> {
    let alloc = rt.alloc();
    let deep = vec![in alloc; b'('; 1_000_000]?;
    assert_eq!(rt;
        told_of_vector(alloc, deep.as_slice())?.as_str(),
        "40 1:257"
    );
    let long = vec![in alloc; b' '; 1_048_577]?;
    assert_eq!(rt; told_of_vector(alloc, long.as_slice())?.as_str(), "44 1:1");
    let empty = vec![in alloc; b' '; 1_048_576]?;
    assert_eq!(rt;
        told_of_vector(alloc, empty.as_slice())?.as_str(),
        "41 1:1048577"
    );
    assert_eq!(rt;
        told_of_vector(alloc, b"(array (2) 1 \xff)")?.as_str(),
        "40 1:14"
    );
    Ok(())
}

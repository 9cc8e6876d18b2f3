// Codes, and what they come to.
use crate::call::ends;
use crate::row::first;
use std::alloc::{AllocError, Global};
use std::process::Abort;
use std::test::Fail;

// One code a row: its blocks with ` | ` between them, their instructions with `; `; the steps that it takes, and the line that it
// prints. Steps and kinds are counted by docs/MACHINE.md.
static CODES: &[&str] = &[
    "prim +; const () 1; const () 2; app ((shape) (shape)) (shape) => 7 => (array () 3)",
    "prim +; const (2 3) 1 2 3 4 5 6; const (2) 10 20; app ((shape) (shape)) (shape) => 12 => (array (2 3) 11 12 13 24 25 26)",
    "prim + => 2 => (array () #fn)",
    "close tfn 1; tapp (shape) | global 2 | const () 7 => 9 => (array () 7)",
    // Maps and their steps.
    "close fn 1 1; const (0); app ((shape)) (shape 2) | var 0; room (2); var 0; frame (2) => 4 => (array (0 2))",
    "close fn 1 1; const (1) 7; app ((shape)) (shape 2) | var 0; room (2); var 0; frame (2) => 11 => (array (1 2) 7 7)",
    // Index values count from the innermost.
    "const () 1; box 3 (shape 5); unbox 1 2 (shape) | empty (shape %1 0); box %0; unbox 2 1 (shape) | empty (++ %0 (shape 0)) => 14 => (array (5 0))",
    // Later results have the dims of the first.
    "close fn 1 1; const (2) 0 1; app ((shape)) (shape) | prim iota; iapp (1) (shape); var 0; room (1); frame (1); app ((shape 1)) (shape); unbox 2 1 (shape) | var 0 => 37 => stuck shape",
    "close fn 1 1; const (2) 1 1; app ((shape)) (shape) | prim iota; iapp (1) (shape); var 0; room (1); frame (1); app ((shape 1)) (shape); unbox 2 1 (shape) | var 0 => 39 => (array (2 1) 0 0)",
    // Folds: from the first item on, their function looked at when a turn applies it.
    "prim reduce; tapp (shape); iapp (2 (shape)) (shape); prim -; const (3) 1 2 3; app ((shape) (shape 3)) (shape) => 16 => (array () -4)",
    "prim reduce; tapp (shape); iapp (0 (shape)) (shape); const () 7; const (1) 5; app ((shape) (shape 1)) (shape) => 14 => (array () 5)",
    "prim reduce; tapp (shape); iapp (1 (shape)) (shape); const () 7; const (2) 5 6; app ((shape) (shape 2)) (shape) => 12 => stuck kind",
    "prim reduce; tapp (shape); iapp (16777216 (shape 0)) (shape); prim +; const (16777217 0); app ((shape) (shape 16777217 0)) (shape 0) => 11 => trap size",
    "prim fold; tapp (shape); iapp (2 (shape) (shape)) (shape); prim div; const () 100; const (2) 5 0; app ((shape) (shape) (shape 2)) (shape) => 14 => trap zero",
    "prim fold; tapp (shape); iapp (0 (shape) (shape)) (shape); prim div; const () 100; const (0); app ((shape) (shape) (shape 0)) (shape) => 15 => (array () 100)",
    // Traps of instructions.
    "const (2) 1 2; room (16777216) => 2 => trap size",
    "const () 1; box 4294967296 => 2 => trap size",
    "const () 1; iapp (4294967296) (shape) => 2 => trap size",
    "empty (shape 4294967296 0) => 1 => trap size",
    // Stuck: an operand, a variable or a block's result is missing, or one too many is there.
    "app ((shape)) (shape) => 1 => stuck operand",
    "array (1) => 1 => stuck operand",
    "room (2) => 1 => stuck operand",
    "unbox 0 1 (shape) => 1 => stuck operand",
    "var 0 => 1 => stuck operand",
    "const () 1; frame (2) => 2 => stuck operand",
    "const () 1; const () 2 => 3 => stuck operand",
    "close fn 1 1; const () 5; app ((shape)) (shape) | var 1 => 5 => stuck operand",
    // Stuck: another number of arguments or indices is taken or hidden.
    "close fn 1 2; const () 1; app ((shape)) (shape) | var 0 => 4 => stuck operand",
    "close ifn 1 2; iapp (1) (shape) | const () 1 => 3 => stuck operand",
    "const () 1; box 1 2; unbox 1 1 (shape) | var 0 => 4 => stuck operand",
    "prim +; const () 1; app ((shape)) (shape) => 4 => stuck operand",
    "prim iota; iapp (1 2) (shape) => 3 => stuck operand",
    // Stuck: an index variable is missing, or of the other sort. What is missing comes first.
    "empty (shape %0 0) => 1 => stuck operand",
    "const () 1; box %0 => 2 => stuck operand",
    "const () 1; iapp (%0) (shape) => 2 => stuck operand",
    "prim +; const () 1; const () 2; app ((shape 1) (shape %0)) (shape) => 4 => stuck operand",
    "const () 1; box (shape 5); unbox 1 1 (shape) | empty (shape %0 0) => 5 => stuck kind",
    "const () 1; box 5; unbox 1 1 (shape) | empty (++ %0 (shape 0)) => 5 => stuck kind",
    "const () 1; box (shape 5); unbox 1 1 (shape) | empty (shape %1 %0) => 5 => stuck operand",
    // The result's shape is looked at where there is no cell.
    "prim +; const (0); const () 1; app ((shape) (shape)) %0 => 4 => stuck operand",
    "prim +; const () 1; const () 2; app ((shape) (shape)) %0 => 7 => (array () 3)",
    "prim +; const (2) 1 2; const (3) 1 2 3; app ((shape) (shape)) %0 => 4 => stuck shape",
    // Stuck: an atom of another kind.
    "const () 1; const () 2; const () 3; app ((shape) (shape)) (shape) => 5 => stuck kind",
    "close fn 1 1; tapp (shape) | var 0 => 3 => stuck kind",
    "close tfn 1; iapp (1) (shape) | const () 1 => 3 => stuck kind",
    "const () 1; unbox 1 1 (shape) | var 0 => 3 => stuck kind",
    "prim +; const () 1; const () #t; app ((shape) (shape)) (shape) => 5 => stuck kind",
    // Stuck: a primitive with other type or index arguments than its type's.
    "prim length; const (1) 5; app ((shape 1)) (shape) => 4 => stuck kind",
    "prim length; iapp (1 (shape)) (shape) => 3 => stuck kind",
    "prim append; tapp (shape); tapp (shape) => 6 => stuck kind",
    "prim iota; iapp (1) (shape); iapp (1) (shape) => 6 => stuck kind",
    "prim iota; iapp ((shape)) (shape) => 3 => stuck kind",
    // Stuck: arrays of other ranks or dims. All ranks are looked at before the dims.
    "prim +; const (2) 1 2; const () 1; app ((shape 3) (shape 1)) (shape) => 4 => stuck rank",
    "prim +; const (2) 1 2; const () 1; app ((shape 3) (shape)) (shape) => 4 => stuck shape",
    "prim +; const (2) 1 2; const (3) 1 2 3; app ((shape) (shape)) (shape) => 4 => stuck shape",
    "prim +; const (2) 1 2; const () 1; app ((shape 2) (shape)) (shape) => 5 => stuck shape",
    "const (2) 1 2; array (1) => 2 => stuck shape",
    "const () 1; const (1) 1; frame (2) => 3 => stuck shape",
    "empty (shape 1) => 1 => stuck shape",
    // Deep: boxes in one another, each with the one before it in two places, and functions that hold the one before them.
    "close fn 1 1; prim fold; tapp (shape); iapp (20000 (shape) (shape)) (shape); close fn 2 2; const () 1; prim replicate; tapp (shape); iapp (20000 (shape)) (shape); const () 0; app ((shape)) (shape 20000); app ((shape) (shape) (shape 20000)) (shape); app ((shape)) (shape) | const () 7 | var 1; room (2); var 1; frame (2); box 2 => * => (array () 7)",
    "prim fold; tapp (shape); iapp (20000 (shape) (shape)) (shape); close fn 1 2; close fn 3 1; prim replicate; tapp (shape); iapp (20000 (shape)) (shape); const () 0; app ((shape)) (shape 20000); app ((shape) (shape) (shape 20000)) (shape); const () 0; app ((shape)) (shape) | close fn 2 1 | var 2; prim +; const () 1; var 0; app ((shape) (shape)) (shape); app ((shape)) (shape) | var 0 => * => (array () 20000)",
];

/// The text of the code with these blocks, which has no params.
pub fn code_text(alloc: Global, blocks: &str) -> Result<String, AllocError> {
    let count = blocks.split(" | ").count();
    let mut text = format!(in alloc; "remora-code 1\nparams 0\nblocks {count}\n")?;
    for block in blocks.split(" | ") {
        let count = block.split("; ").count();
        write!(text, "block {count}\n")?;
        for instruction in block.split("; ") {
            write!(text, "{instruction}\n")?;
        }
    }
    Ok(text)
}

fn comes_to(rt: &impl Abort, alloc: Global, row: &str) -> Result<(), Fail> {
    let (blocks, rest) = first(row)?;
    let (steps, line) = first(rest)?;
    let text = code_text(alloc, blocks)?;
    ends(rt, alloc, "exec", text.as_bytes(), b"", steps, line)
}

#[test]
fn codes_end_after_their_steps(rt: HostRuntime) -> Result<(), Fail> {
    for row in CODES.iter() {
        comes_to(&rt, rt.alloc(), row)?;
    }
    Ok(())
}

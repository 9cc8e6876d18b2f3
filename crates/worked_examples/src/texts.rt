// Texts that are no code's, and the text of a program's code.
use crate::call::prints;
use crate::codes::code_text;
use crate::row::first;
use std::test::Fail;

// One text a row, and what `exec` answers: the first byte with which no text goes on, or the end.
static TEXTS: &[&str] = &[
    "remora-code 1\nparams 0\nblocks 1\nblock 1\nprim + => refused 33 5:7",
    "remora-code 1\nparams 0\nblocks 1\nblock 1\nprim +\n\n => refused 32 6:1",
    "remora-code 1\nparams 0\nblocks 1\nblock 1\nprim plus\n => refused 32 5:7",
    "remora-code 1\nparams 0\nblocks 1\nblock 1\nconst (01) 1\n => refused 32 5:9",
    "remora-code 1\nparams 0\nblocks 1\nblock 4\nprim +\nconst (2 3) 1 2 3 4 5 6\nconst (2) 10 20\n => refused 33 8:1",
    "remora-code 1\nparams 0\nblocks 1\nblock 4\nprim +\nconst (2 3) 1 2 3 4 5 6\nconst (2) 10 20\napp ((shape) (shape)) shape\n => refused 32 8:23",
    "remora-code 1\nparams 0\nblocks 1\nblock 1\nconst (4294967295 4294967295 2) 1\n => refused 32 5:31",
    "remora-code 1\nparams 0\nblocks 1\nblock 1\nconst () #\\u61\n => refused 32 5:15",
];

#[test]
fn other_texts_are_no_code(rt: HostRuntime) -> Result<(), Fail> {
    for row in TEXTS.iter() {
        let (text, line) = first(row)?;
        prints(&rt, rt.alloc(), "exec f", text.as_bytes(), line)?;
    }
    Ok(())
}

// The first example of docs/MACHINE.md.
#[test]
fn the_code_of_a_program(rt: HostRuntime) -> Result<(), Fail> {
    let source = b"(main () (+ (array (2 3) 1 2 3 4 5 6) (array (2) 10 20)))";
    let code = code_text(
        rt.alloc(),
        "prim +; const (2 3) 1 2 3 4 5 6; const (2) 10 20; app ((shape) (shape)) (shape)",
    )?;
    prints(&rt, rt.alloc(), "build f", source, code.trim_end())
}

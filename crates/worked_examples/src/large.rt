// Sources at the limits, and past them.
use crate::call::prints;
use std::alloc::{AllocError, Global};
use std::test::Fail;

// So many applications in one another.
const SUMS: [&str; 5] = ["(main () ", "(+ 0 ", "1", ")", ")"];

// So many functions in one another, each applied at once.
const NESTED: [&str; 5] = ["(main () ", "((fn ((x Int)) Int ", "1", ") 2)", ")"];

// A literal of so many dimensions, with one atom.
const RANK: [&str; 5] = ["(main () (array (", "1 ", ") 1))", "", ""];

// An input with a shape of so many ones.
const INPUT: [&str; 5] = ["(main ((x (A Int (shape", " 1", ")))) 1)", "", ""];

// An index argument of so many ones.
const INDEX: [&str; 5] = [
    "(main () (i-app (ifn ((s Shape)) 1) (shape",
    " 1",
    ")))",
    "",
    "",
];

const BLANKS: [&str; 5] = ["", " ", "", "", ""];

// A command, a source whose second and fourth part are there so many times, and what is printed.
static LARGE: [(&str, usize, [&str; 5], &str); 12] = [
    ("check f", 255, SUMS, "ok (A Int (shape))"),
    ("run f", 255, SUMS, "(array () 1)"),
    ("reduce f", 255, SUMS, "(array () 1)"),
    ("run f", 126, NESTED, "(array () 1)"),
    ("reduce f", 126, NESTED, "(array () 1)"),
    ("run f", 256, SUMS, "refused 5 1:1285"),
    ("run f", 65, RANK, "refused 12 1:146"),
    ("check f", 16382, INPUT, "refused 16 1:11"),
    ("check f", 16383, INDEX, "ok (A Int (shape))"),
    ("check f", 16384, INDEX, "refused 16 1:37"),
    ("check f", 1048576, BLANKS, "refused 7 1:1"),
    ("check f", 1048577, BLANKS, "refused 31 1:1"),
];

fn repeat(source: &mut String, part: &str, times: usize) -> Result<(), AllocError> {
    for _ in 0..times {
        source.push_str(part)?;
    }
    Ok(())
}

fn large(alloc: Global, times: usize, parts: &[&str; 5]) -> Result<String, AllocError> {
    let [front, open, middle, close, back] = parts;
    let mut source = String::from_str(alloc, front)?;
    repeat(&mut source, open, times)?;
    source.push_str(middle)?;
    repeat(&mut source, close, times)?;
    source.push_str(back)?;
    Ok(source)
}

#[test]
fn sources_keep_their_limits(rt: HostRuntime) -> Result<(), Fail> {
    let alloc = rt.alloc();
    for (words, times, parts, line) in LARGE.iter() {
        let source = large(alloc, *times, parts)?;
        prints(&rt, alloc, words, source.as_bytes(), line)?;
    }
    Ok(())
}

// Each function applies the one before it twice, so a function made by the last one nests twice as deep as one made by that
// before it.
fn twice(alloc: Global, depth: u32) -> Result<String, AllocError> {
    let mut source = String::from_str(
        alloc,
        "(define d0 (-> ((-> (Int) Int)) (-> (Int) Int)) (fn ((f (-> (Int) Int))) (-> (Int) Int) (fn ((x Int)) Int (f x))))\n",
    )?;
    for before in 0..depth {
        let k = before + 1;
        write!(
            source,
            "(define d{k} (-> ((-> (Int) Int)) (-> (Int) Int)) (fn ((f (-> (Int) Int))) (-> (Int) Int) (d{before} (d{before} f))))\n"
        )?;
    }
    write!(
        source,
        "(main () ((d{depth} (fn ((x Int)) Int (+ x 1))) 1))"
    )?;
    Ok(source)
}

// Each definition gives the one before it a type that nests 100 functions deeper than its own.
fn deeper(alloc: Global, count: u32) -> Result<String, AllocError> {
    let mut source = String::from_str(alloc, "(define f0 (Forall (t) Int) (tfn (t) 1))\n")?;
    for before in 0..count {
        let k = before + 1;
        write!(
            source,
            "(define f{k} (Forall (t) Int) (tfn (t) (t-app f{before} "
        )?;
        repeat(&mut source, "(-> (", 100)?;
        source.push('t')?;
        repeat(&mut source, ") Int)", 100)?;
        source.push_str(")))\n")?;
    }
    write!(source, "(main () (t-app f{count} Int))")?;
    Ok(source)
}

// No memory is found for terms that nest deeper than 512, and types deeper than 1,024.
#[test]
fn reduction_keeps_its_limits(rt: HostRuntime) -> Result<(), Fail> {
    let alloc = rt.alloc();
    for (depth, line) in [(7, "(array () 2)"), (8, "")] {
        let source = twice(alloc, depth)?;
        prints(&rt, alloc, "reduce f", source.as_bytes(), line)?;
    }
    for (count, line) in [(5, "(array () 1)"), (6, "")] {
        let source = deeper(alloc, count)?;
        prints(&rt, alloc, "reduce f", source.as_bytes(), line)?;
    }
    Ok(())
}

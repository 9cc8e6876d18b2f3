// Programs, and what they come to.
use crate::call::{call, ends, prints};
use crate::row::first;
use std::alloc::Global;
use std::process::Abort;
use std::test::Fail;

// One program a row: its source, its type, the steps that its code takes and those that its reduction takes (`*` where that
// isn't said), and the line that both print. Steps are counted by docs/MACHINE.md and docs/LANGUAGE.md, "Reduction".
static EXAMPLES: &[&str] = &[
    // Integers, frames and cells.
    "(main () 7) => (A Int (shape)) => 2 => 1 => (array () 7)",
    "(main () (array (3) -0 007 -12)) => (A Int (shape 3)) => 2 => 1 => (array (3) 0 7 -12)",
    "(main () (array (2) 9223372036854775807 -9223372036854775808)) => (A Int (shape 2)) => 2 => 1 => (array (2) 9223372036854775807 -9223372036854775808)",
    "(main () (array (1 2) 7 8)) => (A Int (shape 1 2)) => 2 => 1 => (array (1 2) 7 8)",
    "(main () (+ 1 2)) => (A Int (shape)) => 7 => 1 => (array () 3)",
    "(main () (+ (+ 1 2) 3)) => (A Int (shape)) => 12 => 2 => (array () 6)",
    "; twice\n(main () ((array () *) (+ 1 2) (- 4 6))) => (A Int (shape)) => 17 => 3 => (array () -6)",
    "(main ()\n  (+ (array (2 3) 1 2 3 4 5 6)\n     (array (2) 10 20)))\n => (A Int (shape 2 3)) => 12 => 9 => (array (2 3) 11 12 13 24 25 26)",
    "(main () (- 5 (array (2) 7 2))) => (A Int (shape 2)) => 8 => 5 => (array (2) -2 3)",
    "(main () ((array (2) + *) (array (2) 3 4) 5)) => (A Int (shape 2)) => 10 => 5 => (array (2) 8 20)",
    "(main () ((array (1) +) 1 2)) => (A Int (shape 1)) => 8 => 4 => (array (1) 3)",
    "(main () (frame (2) (+ 1 2) (* 3 4))) => (A Int (shape 2)) => 15 => 3 => (array (2) 3 12)",
    "(main () (div 7 2)) => (A Int (shape)) => 7 => 1 => (array () 3)",
    "(main () (char->int (array (2) #\\a #\\u20))) => (A Int (shape 2)) => 7 => 5 => (array (2) 97 32)",
    "(main () (and (< 1 2) (not (= 1 2)))) => (A Bool (shape)) => 21 => 4 => (array () #t)",
    // Empty arrays and frames.
    "(main () (array (0 3) Int)) => (A Int (shape 0 3)) => 2 => 1 => (array (0 3))",
    "(main () (array (4294967295 0) Int)) => (A Int (shape 4294967295 0)) => 2 => 1 => (array (4294967295 0))",
    "(main () (+ (array (0 3) Int) 5)) => (A Int (shape 0 3)) => 5 => 1 => (array (0 3))",
    "(main () (frame (0 2) (A Int (shape 3)))) => (A Int (shape 0 2 3)) => 2 => 1 => (array (0 2 3))",
    "(main () ((fn ((x Int)) (A Int (shape 2)) (frame (2) x x)) (array (0) Int))) => (A Int (shape 0 2)) => 4 => 1 => (array (0 2))",
    // Truth values and characters.
    "(main () (array (2) #t #f)) => (A Bool (shape 2)) => 2 => 1 => (array (2) #t #f)",
    "(main () (array (7) #\\! #\\a #\\u #\\) #\\; #\\\\ #\\~)) => (A Char (shape 7)) => 2 => 1 => (array (7) #\\! #\\a #\\u #\\) #\\; #\\\\ #\\~)",
    "(main () (array (6) #\\u20 #\\u0 #\\u0A #\\u7f #\\u3BB #\\u10ffff)) => (A Char (shape 6)) => 2 => 1 => (array (6) #\\u20 #\\u0 #\\ua #\\u7f #\\u3bb #\\u10ffff)",
    "(main () \"a\\\"b\\\\\") => (A Char (shape 4)) => 2 => 1 => (array (4) #\\a #\\\" #\\b #\\\\)",
    "(main () \"\") => (A Char (shape 0)) => 2 => 1 => (array (0))",
    // Names, definitions and abstraction.
    "(define x Int 1) (main () 1) => (A Int (shape)) => 2 => 1 => (array () 1)",
    "(define x Int 1) (main () (+ x x)) => (A Int (shape)) => 11 => 3 => (array () 2)",
    "(define f Int 1) (define g (-> (Int) Int) (fn ((x Int)) Int (+ x f))) (main () (g 2)) => (A Int (shape)) => 17 => 4 => (array () 3)",
    "(define identity (Forall (t) (-> (t) t))\n  (tfn (t) (fn ((x t)) t x)))\n\n(main () ((t-app identity Int) (array (3) 1 2 3)))\n => (A Int (shape 3)) => 21 => 8 => (array (3) 1 2 3)",
    "(main () ((i-app (i-app (ifn ((n Dim)) (i-app (ifn ((m Dim)) (ifn ((n Dim)) (fn ((a (A Int (shape m n)))) (A Int (shape m n)) a))) n)) 2) 3) (array (2 3) 1 2 3 4 5 6))) => (A Int (shape 2 3)) => 23 => 4 => (array (2 3) 1 2 3 4 5 6)",
    "(main () ((t-app select Int) #t 1 2)) => (A Int (shape)) => 11 => 2 => (array () 1)",
    "(main () (t-app ((t-app select (Forall (t) Int)) #t (tfn (t) 1) (tfn (t) (div 1 0))) Int)) => (A Int (shape)) => 16 => 3 => (array () 1)",
    // Boxes.
    "(main () (box (2) (array (2) 1 2) (Sigma ((d Dim)) (A Int (shape d))))) => (A (Sigma ((i0 Dim)) (A Int (shape i0))) (shape)) => 3 => 1 => (array () (box 2 (array (2) 1 2)))",
    "(main () (box ((+ 1 1) (shape 2 3)) (+ 1 2) (Sigma ((d Dim) (s Shape)) Int))) => (A (Sigma ((i0 Dim) (i1 Shape)) (A Int (shape))) (shape)) => 8 => 1 => (array () (box 2 (shape 2 3) (array () 3)))",
    "(main () (array (2) (box ((shape)) 1 (Sigma ((s Shape)) (A Int s))) (box ((shape 0)) (array (0) Int) (Sigma ((s Shape)) (A Int s))))) => (A (Sigma ((i0 Shape)) (A Int i0)) (shape 2)) => 6 => 1 => (array (2) (box (shape) (array () 1)) (box (shape 0) (array (0))))",
    "(main () (box (1) (box (2) (array (2) 7 8) (Sigma ((d Dim)) (A Int (shape d)))) (Sigma ((e Dim)) (Sigma ((d Dim)) (A Int (shape d)))))) => (A (Sigma ((i0 Dim)) (A (Sigma ((i1 Dim)) (A Int (shape i1))) (shape))) (shape)) => 4 => 1 => (array () (box 1 (array () (box 2 (array (2) 7 8)))))",
    "(main () (unbox (d v (box (2) (array (2) 5 6) (Sigma ((d Dim)) (A Int (shape d))))) Int 7)) => (A Int (shape)) => 8 => 1 => (array () 7)",
    "(main () (unbox (x x (box (3) 1 (Sigma ((d Dim)) Int))) Int x)) => (A Int (shape)) => 8 => 1 => (array () 1)",
    // Traps.
    "(main () (+ 9223372036854775807 1)) => (A Int (shape)) => 5 => 1 => trap overflow",
    "(main () (div (array (3) 1 2 -9223372036854775808) (array (3) 1 0 -1))) => (A Int (shape 3)) => 6 => 4 => trap zero",
    "(main () ((fn ((x Int)) Int (div x 0)) (mod 7 0))) => (A Int (shape)) => 6 => 1 => trap zero",
    "(main () (t-app ((t-app select (Forall (t) Int)) #f (tfn (t) 1) (tfn (t) (div 1 0))) Int)) => (A Int (shape)) => 17 => 4 => trap zero",
    "(main () ((fn ((v (A Int (shape 0)))) Int 1) (array (4096 4097 0) Int))) => (A Int (shape 4096 4097)) => 3 => 1 => trap size",
    "(main () (frame (0) (A Int (shape 4294967296)))) => (A Int (shape 0 4294967296)) => 1 => 1 => trap size",
    "(main () (i-app (ifn ((d Dim)) 1) 4294967296)) => (A Int (shape)) => 2 => 1 => trap size",
    "(main () (array (2) (box (4294967296) 1 (Sigma ((d Dim)) Int)) (box (1) (div 1 0) (Sigma ((d Dim)) Int)))) => (A (Sigma ((i0 Dim)) (A Int (shape))) (shape 2)) => 2 => 1 => trap size",
    // Primitives on arrays of any type, and on functions.
    "(main () ((i-app (ifn ((m Dim) (n Dim))\n (fn ((a (A Int (shape m))) (b (A Int (shape n))))\n (A Int (shape (+ n m)))\n ((i-app (t-app append Int) m n (shape)) a b))) 2 3)\n (array (2) 1 2) (array (3) 3 4 5))) => (A Int (shape 5)) => 25 => 5 => (array (5) 1 2 3 4 5)",
    "(main () ((i-app (t-app take Int) 1 2 (shape 2)) (array (3 2) 1 2 3 4 5 6))) => (A Int (shape 1 2)) => 12 => 3 => (array (1 2) 1 2)",
    "(main () ((fn ((v (A Int (shape 3)))) Int ((i-app (t-app reduce Int) 2 (shape)) + v)) (array (2 3) 1 2 3 4 5 6))) => (A Int (shape 2)) => 39 => 15 => (array (2) 6 15)",
    "(main () ((i-app (t-app reduce Int) 2 (shape)) - (array (3) 1 2 3))) => (A Int (shape)) => * => 5 => (array () -4)",
    "(main () ((i-app (t-app fold Int Int) 3 (shape) (shape)) - 10 (array (3) 1 2 3))) => (A Int (shape)) => * => 6 => (array () 4)",
    "(main () ((i-app (t-app fold Int Int) 0 (shape) (shape)) - 10 (array (0) Int))) => (A Int (shape)) => * => 3 => (array () 10)",
    "(main () ((i-app (t-app index-or Int) 2 (shape)) (array (2) 5 6) 1 0)) => (A Int (shape)) => * => 3 => (array () 6)",
    "(main () ((i-app (t-app reshape Int) 1 (shape 2)) (array (1) 3) (array (2) 1 2) 0)) => (A (Sigma ((i0 Shape)) (A Int i0)) (shape)) => * => 3 => (array () (box (shape 3) (array (3) 1 2 1)))",
    "(main () ((i-app (t-app filter Int) 2 (shape)) (array (2) #t #f) (array (2) 5 6))) => (A (Sigma ((i0 Dim)) (A Int (shape i0))) (shape)) => * => 3 => (array () (box 1 (array (1) 5)))",
    "(main () ((i-app (t-app transpose Int) 2 3 (shape)) (array (2 3) 1 2 3 4 5 6))) => (A Int (shape 3 2)) => * => 3 => (array (3 2) 1 4 2 5 3 6)",
    "(main () ((i-app (t-app replicate Int) 16777217 (shape)) 1)) => (A Int (shape 16777217)) => * => 3 => trap size",
    "(define f (-> ((A Int (shape 3))) Int) (fn ((a (A Int (shape 3)))) Int ((i-app (t-app reduce Int) 2 (shape)) + a)))\n(main () 1) => (A Int (shape)) => 2 => * => (array () 1)",
    "(main () ((fn ((f (Forall (t) (Pi ((d Dim) (s Shape)) (-> ((A t (++ (shape d) s))) Int))))) Int 1) length)) => (A Int (shape)) => 8 => 1 => (array () 1)",
    "(main () (unbox (d x ((i-app (t-app ravel Int) (shape)) 5))\n Int ((i-app (t-app length Int) d (shape)) x))) => (A Int (shape)) => 27 => 7 => (array () 1)",
    "(main () ((i-app iota 2) (array (2) 2 2))) => (A (Sigma ((i0 Shape)) (A Int i0)) (shape)) => 9 => 2 => (array () (box (shape 2 2) (array (2 2) 0 1 2 3)))",
];

// A program prints the same by `run` and by `exec` of what `build` writes, after the same number of steps.
fn runs(
    rt: &impl Abort,
    alloc: Global,
    source: &[u8],
    data: &[u8],
    steps: &str,
    line: &str,
) -> Result<(), Fail> {
    ends(rt, alloc, "run", source, data, steps, line)?;
    let built = call(alloc, "build f", source)?;
    ends(rt, alloc, "exec", built.text.written(), data, steps, line)
}

/// Each command gives these answers on these data: the type, the steps of the code and of reduction, and the line.
pub fn comes_to(
    rt: &impl Abort,
    alloc: Global,
    source: &[u8],
    data: &[u8],
    answers: &str,
) -> Result<(), Fail> {
    let (ty, rest) = first(answers)?;
    let (run_steps, rest) = first(rest)?;
    let (reduction_steps, line) = first(rest)?;
    let checked = format!(in alloc; "ok {ty}")?;
    prints(rt, alloc, "check f", source, checked.as_str())?;
    runs(rt, alloc, source, data, run_steps, line)?;
    ends(rt, alloc, "reduce", source, data, reduction_steps, line)
}

#[test]
fn programs_come_to_their_values(rt: HostRuntime) -> Result<(), Fail> {
    for row in EXAMPLES.iter() {
        let (source, answers) = first(row)?;
        comes_to(&rt, rt.alloc(), source.as_bytes(), b"", answers)?;
    }
    Ok(())
}

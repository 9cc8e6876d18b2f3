// Sources that are refused.
use crate::call::{call, prints};
use crate::row::first;
use remora_driver::Status;
use std::alloc::Global;
use std::process::Abort;
use std::test::Fail;

// One source a row, with the number and the place of its refusal, and the text there of which the refusal speaks.
static REFUSED: &[&str] = &[
    "(main () #tx) => 2 1:10 => #",
    "12ab => 2 1:1 => 1",
    "(main () (+ 1 2) => 3 1:1 => (",
    "(a\n(b) (c => 3 2:5 => (",
    "(main () 1)) => 4 1:12 => )",
    "(a))\n => 4 1:4 => )",
    ") ' => 4 1:1 => )",
    "(main () 9223372036854775808) => 6 1:10 => 9",
    "(a -9223372036854775809) => 6 1:4 => -",
    "(main () (fn 1 2)) => 7 1:10 => (fn 1 2)",
    "; é\n x => 7 2:2 => x",
    "(main () x) => 8 1:10 => x",
    "(main () (unbox (d x ((i-app (t-app ravel Int) (shape)) 5))\n (A Int (shape d)) x)) => 8 2:16 => d",
    "(define f (-> (Int) Int) (fn ((x Int)) Int (f x)))\n(main () (f 1)) => 8 1:45 => f",
    "(main () (div 1 y)) => 8 1:17 => y",
    "(define f Int y) (define) (main () 1) => 8 1:15 => y",
    "(main ((x Int) (x Int)) 1) => 9 1:17 => x",
    "(main ((f (Forall (t t) t))) 1) => 9 1:22 => t",
    "(define f Int 1) (define f Int 2) (main () f) => 9 1:26 => f",
    "(main () (array (2) 1)) => 10 1:10 => (array (2) 1)",
    "(main () (array (2 2) 1 2 3)) => 10 1:10 => (array (2 2) 1 2 3)",
    "(main () (array (4294967296) 1)) => 11 1:18 => 4294967296",
    "(main ((x (A Int (shape 1099511627777)))) 1) => 13 1:11 => (A Int (shape 1099511627777))",
    "(main () ((i-app iota 1099511627777) (array (1) 1))) => 13 1:23 => 1099511627777",
    "(main ((x (Sigma ((s Shape)) (A Int (shape (+ (+ s) s)))))) 1) => 14 1:53 => s",
    "(main () (i-app (ifn ((s Shape)) 1) (+ (shape)))) => 14 1:40 => (shape)",
    "(main () (i-app (ifn ((s Shape)) 1) 2)) => 14 1:37 => 2",
    "(main ((f (-> ((A Int 1)) Int))) 1) => 14 1:23 => 1",
    "(main ((x (Sigma ((s Shape) (d Dim)) (A Int (shape (+ d s) d))))) 1) => 14 1:57 => s",
    "(main () (t-app (tfn (t) 1) (A (A Int (shape)) (shape)))) => 15 1:29 => (A (A Int (shape)) (shape))",
    "(main () (t-app (tfn (t) 1) (A Int 1))) => 15 1:29 => (A Int 1)",
    "(main ((x (A (A Int (shape)) (shape)))) 1) => 15 1:14 => (A Int (shape))",
    "(main ((x (Sigma ((d Dim)) (A (A Int d) d)))) 1) => 15 1:31 => (A Int d)",
    "(main () (array (2) 1 #t)) => 17 1:23 => #t",
    "(main () (array (3) 1 2 +)) => 17 1:25 => +",
    "(main () (frame (2) (array (1) 1) (array (2) 1 2))) => 18 1:35 => (array (2) 1 2)",
    "(main () (frame (2) 1 #t)) => 18 1:23 => #t",
    "(main () (1 2)) => 19 1:11 => 1",
    "(main () ((array (2) 1 2) 3)) => 19 1:11 => (array (2) 1 2)",
    "(main () (+ 1)) => 20 1:10 => (+ 1)",
    "(main () (t-app (tfn (t u) 1) Int)) => 20 1:10 => (t-app (tfn (t u) 1) Int)",
    "(main () (+ 1 #t)) => 21 1:15 => #t",
    "(main () ((fn ((x (A Int (shape 2)))) Int 1) (array (3) 1 2 3))) => 21 1:46 => (array (3) 1 2 3)",
    "(main () (+ (array (2) 1 2) (array (3) 1 2 3))) => 22 1:10 => (+ (array (2) 1 2) (array (3) 1 2 3))",
    "(main () (+ 1 (- (array (2) 1 2) (array (3) 1 2 3)))) => 22 1:15 => (- (array (2) 1 2) (array (3) 1 2 3))",
    "(main () (t-app 1 Int)) => 23 1:17 => 1",
    "(main () (t-app + Int)) => 23 1:17 => +",
    "(main () (i-app 1 2)) => 24 1:17 => 1",
    "(main () (i-app append 2)) => 24 1:17 => append",
    "(main () (unbox (d v 5) Int 1)) => 25 1:22 => 5",
    "(main () (box (1) 1 Int)) => 25 1:21 => Int",
    "(main () (box (2) (array (1) 1) (Sigma ((d Dim)) (A Int (shape d))))) => 26 1:19 => (array (1) 1)",
    "(main () (box (2) #t (Sigma ((d Dim)) Int))) => 26 1:19 => #t",
    "(main () ((i-app (ifn ((m Dim) (n Dim))\n (fn ((a (A Int (shape m))) (b (A Int (shape n))))\n (A Int (shape (+ m m)))\n ((i-app (t-app append Int) m n (shape)) a b))) 2 3)\n (array (2) 1 2) (array (3) 3 4 5))) => 27 3:2 => (A Int (shape (+ m m)))",
    "(main () ((fn ((x Int)) Bool x) 1)) => 27 1:25 => Bool",
    "(main ((b (Sigma ((d Dim)) Int))) (unbox (d x b) Bool x)) => 27 1:50 => Bool",
    "(main ((b (Sigma ((d Dim)) (A Int (shape d))))) (i-app (ifn ((n Dim)) (unbox (d v b) (A Int (shape n)) v)) 2)) => 27 1:86 => (A Int (shape n))",
    "(define x Int (+ 1 2))\n(main () x) => 28 1:15 => (+ 1 2)",
    "(define b (Sigma ((d Dim)) Int) (box (1) 1 (Sigma ((d Dim)) Int)))\n(main () 1) => 28 1:33 => (box (1) 1 (Sigma ((d Dim)) Int))",
    "(main ((f (-> (Int) Int))) 1) => 29 1:11 => (-> (Int) Int)",
    "(main ((x (Forall (t) Int))) 1) => 29 1:11 => (Forall (t) Int)",
    "(main () +) => 30 1:10 => +",
    "(main () (fn ((x Int)) Int x)) => 30 1:10 => (fn ((x Int)) Int x)",
    "(main () (tfn (t) 1)) => 30 1:10 => (tfn (t) 1)",
];

// The text of which a refusal of the source speaks.
fn blamed<'a>(source: &'a [u8], status: Status) -> Option<&'a [u8]> {
    match status {
        Status::Refused { span, .. } => source.get(span.from as usize..span.to as usize),
        _ => None,
    }
}

// Each command refuses the source of a row.
fn refused(rt: &impl Abort, alloc: Global, row: &str) -> Result<(), Fail> {
    let (source, answer) = first(row)?;
    let (number_and_place, blame) = first(answer)?;
    let line = format!(in alloc; "refused {number_and_place}")?;
    for words in ["check f", "run f", "reduce f", "build f"] {
        prints(rt, alloc, words, source.as_bytes(), line.as_str())?;
    }
    let called = call(alloc, "check f", source.as_bytes())?;
    assert_eq!(rt;
        blamed(source.as_bytes(), called.status).unwrap_or(b""),
        blame.as_bytes(),
        "{row}"
    );
    Ok(())
}

#[test]
fn sources_are_refused_at_their_first_fault(rt: HostRuntime) -> Result<(), Fail> {
    for row in REFUSED.iter() {
        refused(&rt, rt.alloc(), row)?;
    }
    prints(
        &rt,
        rt.alloc(),
        "check f",
        b"(main () \xff)",
        "refused 1 1:10",
    )
}

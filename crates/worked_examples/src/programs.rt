// The programs of examples/, and what they come to.
use crate::examples::comes_to;
use std::test::Fail;

// Of each program its type, the steps that its code takes and those that its reduction takes, and the line that both print, as in
// the table of examples; and its text without comments. bench/examples.sh compares the texts with the files.
static PROGRAMS: &[(&str, &str)] = &[
    (
        "(A Int (shape 2 3)) => 12 => 9 => (array (2 3) 11 12 13 24 25 26)",
        r"(main ()
  (+ (array (2 3) 1 2 3 4 5 6)
     (array (2) 10 20)))",
    ),
    (
        "(A Int (shape 5)) => * => 6 => (array (5) 1 2 3 4 5)",
        r"(define joined
  (Pi ((m Dim) (n Dim)) (-> ((A Int (shape m)) (A Int (shape n))) (A Int (shape (+ m n)))))
  (ifn ((m Dim) (n Dim))
    (fn ((a (A Int (shape m))) (b (A Int (shape n)))) (A Int (shape (+ n m)))
      ((i-app (t-app append Int) m n (shape)) a b))))
(main () ((i-app joined 2 3) (array (2) 1 2) (array (3) 3 4 5)))",
    ),
    (
        "(A Int (shape 2)) => * => 10 => (array (2) 2 3)",
        r"(main ()
  (unbox (d v (array (2)
      (box (2) (array (2) 1 2) (Sigma ((d Dim)) (A Int (shape d))))
      (box (3) (array (3) 7 8 9) (Sigma ((d Dim)) (A Int (shape d))))))
    Int
    ((i-app (t-app length Int) d (shape)) v)))",
    ),
    (
        "(A Int (shape)) => * => 13 => (array () 32)",
        r"(define dot (-> ((A Int (shape 3)) (A Int (shape 3))) Int)
  (fn ((a (A Int (shape 3))) (b (A Int (shape 3)))) Int
    ((i-app (t-app reduce Int) 2 (shape)) + (* a b))))
(main () (dot (array (3) 1 2 3) (array (3) 4 5 6)))",
    ),
    (
        "(A Int (shape 3)) => 21 => 8 => (array (3) 1 2 3)",
        r"(define identity (Forall (t) (-> (t) t))
  (tfn (t) (fn ((x t)) t x)))
(main () ((t-app identity Int) (array (3) 1 2 3)))",
    ),
    (
        "(A Int (shape)) => * => 7 => (array () 6)",
        r"(main ()
  (unbox (d v ((i-app (t-app ravel Int) (shape 2 3)) (array (2 3) 1 2 3 4 5 6)))
    Int
    ((i-app (t-app length Int) d (shape)) v)))",
    ),
    (
        "(A Int (shape 5)) => * => * => (array (5) 1 4 2 2 1)",
        r"(define count (Pi ((n Dim)) (-> (Int (A Int (shape n))) Int))
  (ifn ((n Dim))
    (fn ((wanted Int) (xs (A Int (shape n)))) Int
      ((i-app (t-app fold Int Int) n (shape) (shape)) + 0 (bool->int (= wanted xs))))))
(main () ((i-app count 10) (array (5) 0 1 2 3 4) (array (10) 3 1 4 1 0 2 2 1 3 1)))",
    ),
    (
        "(A Int (shape 5 5)) => * => * => (array (5 5) 0 0 0 0 0 0 0 1 0 0 0 0 0 1 0 0 1 1 1 0 0 0 0 0 0)",
        r"(define forward
  (Pi ((d Dim) (s Shape)) (-> ((A Int (++ (shape (+ d 1)) s))) (A Int (++ (shape (+ d 1)) s))))
  (ifn ((d Dim) (s Shape))
    (fn ((xs (A Int (++ (shape (+ d 1)) s)))) (A Int (++ (shape (+ d 1)) s))
      ((i-app (t-app append Int) 1 d s)
       ((i-app (t-app drop Int) d 1 s) xs)
       ((i-app (t-app take Int) d 1 s) xs)))))
(define backward
  (Pi ((d Dim) (s Shape)) (-> ((A Int (++ (shape (+ d 1)) s))) (A Int (++ (shape (+ d 1)) s))))
  (ifn ((d Dim) (s Shape))
    (fn ((xs (A Int (++ (shape (+ d 1)) s)))) (A Int (++ (shape (+ d 1)) s))
      ((i-app (t-app append Int) d 1 s)
       ((i-app (t-app drop Int) 1 d s) xs)
       ((i-app (t-app take Int) 1 d s) xs)))))
(define three-rows (-> ((A Int (shape 5 5))) (A Int (shape 5 5)))
  (fn ((b (A Int (shape 5 5)))) (A Int (shape 5 5))
    (+ b (+ ((i-app forward 4 (shape 5)) b) ((i-app backward 4 (shape 5)) b)))))
(define three-columns (-> ((A Int (shape 5 5))) (A Int (shape 5 5)))
  (fn ((b (A Int (shape 5 5)))) (A Int (shape 5 5))
    (+ b (+ ((i-app forward 4 (shape)) b) ((i-app backward 4 (shape)) b)))))
(define lives (-> (Int Int) Int)
  (fn ((cell Int) (sum Int)) Int
    (bool->int (or (= sum 3) (and (= sum 4) (= cell 1))))))
(define generation (-> ((A Int (shape 5 5)) Int) (A Int (shape 5 5)))
  (fn ((b (A Int (shape 5 5))) (turn Int)) (A Int (shape 5 5))
    (lives b (three-rows (three-columns b)))))
(main ()
  ((i-app (t-app fold Int Int) 4 (shape) (shape 5 5))
   generation
   (array (5 5)
     0 1 0 0 0
     0 0 1 0 0
     1 1 1 0 0
     0 0 0 0 0
     0 0 0 0 0)
   (array (4) 1 2 3 4)))",
    ),
    (
        "(A Int (shape 2 2)) => * => * => (array (2 2) 58 64 139 154)",
        r"(define dot (Pi ((k Dim)) (-> ((A Int (shape k)) (A Int (shape k))) Int))
  (ifn ((k Dim))
    (fn ((a (A Int (shape k))) (b (A Int (shape k)))) Int
      ((i-app (t-app fold Int Int) k (shape) (shape)) + 0 (* a b)))))
(define product
  (Pi ((m Dim) (k Dim) (n Dim)) (-> ((A Int (shape m k)) (A Int (shape k n))) (A Int (shape m n))))
  (ifn ((m Dim) (k Dim) (n Dim))
    (fn ((a (A Int (shape m k))) (b (A Int (shape k n)))) (A Int (shape m n))
      ((fn ((row (A Int (shape k))) (columns (A Int (shape n k)))) (A Int (shape n))
         ((i-app dot k) row columns))
       a
       ((i-app (t-app transpose Int) k n (shape)) b)))))
(main ()
  ((i-app product 2 3 2)
   (array (2 3) 1 2 3 4 5 6)
   (array (3 2) 7 8 9 10 11 12)))",
    ),
    (
        "(A Int (shape 6)) => * => * => (array (6) 6 7 6 3 2 3)",
        r"(define moving-average (Pi ((n Dim)) (-> ((A Int (shape (+ n 2)))) (A Int (shape n))))
  (ifn ((n Dim))
    (fn ((xs (A Int (shape (+ n 2))))) (A Int (shape n))
      (div (+ ((i-app (t-app take Int) n 2 (shape)) xs)
              (+ ((i-app (t-app take Int) n 1 (shape)) ((i-app (t-app drop Int) 1 (+ n 1) (shape)) xs))
                 ((i-app (t-app drop Int) 2 n (shape)) xs)))
           3))))
(main () ((i-app moving-average 6) (array (8) 3 6 9 6 3 0 3 6)))",
    ),
    (
        "(A Int (shape 6)) => * => * => (array (6) 18 5 13 15 18 1)",
        r#"(define map (Forall (t u) (Pi ((d Dim)) (-> ((-> (t) u) (A t (shape d))) (A u (shape d)))))
  (tfn (t u)
    (ifn ((d Dim))
      (fn ((f (-> (t) u)) (xs (A t (shape d)))) (A u (shape d)) (f xs)))))
(main ()
  ((i-app (t-app map Char Int) 6)
   (fn ((c Char)) Int (- (char->int c) 96))
   "remora"))"#,
    ),
    (
        "(A (Sigma ((i0 Dim)) (A Int (shape i0))) (shape)) => * => * => (array () (box 10 (array (10) 2 3 5 7 11 13 17 19 23 29)))",
        r"(define divisors (Pi ((n Dim)) (-> (Int (A Int (shape n))) Int))
  (ifn ((n Dim))
    (fn ((x Int) (numbers (A Int (shape n)))) Int
      ((i-app (t-app fold Int Int) n (shape) (shape)) + 0 (bool->int (= 0 (mod x numbers)))))))
(define primes (Pi ((n Dim)) (-> ((A Int (shape n))) (Sigma ((d Dim)) (A Int (shape d)))))
  (ifn ((n Dim))
    (fn ((numbers (A Int (shape n)))) (Sigma ((d Dim)) (A Int (shape d)))
      ((i-app (t-app filter Int) n (shape)) (= 1 ((i-app divisors n) numbers numbers)) numbers))))
(define from-two (Pi ((n Dim)) (-> ((A Int (shape n))) (A Int (shape n))))
  (ifn ((n Dim))
    (fn ((places (A Int (shape n)))) (A Int (shape n)) (+ 2 places))))
(main ()
  ((i-app primes 29)
   ((i-app from-two 29)
    ((i-app (t-app positions Bool) 29 (shape)) ((i-app (t-app replicate Bool) 29 (shape)) #t)))))",
    ),
    (
        "(A Int (shape 3)) => * => * => (array (3) 3 24 0)",
        r"(define row-sum (Pi ((d Dim)) (-> ((A Int (shape d))) Int))
  (ifn ((d Dim))
    (fn ((row (A Int (shape d)))) Int ((i-app (t-app fold Int Int) d (shape) (shape)) + 0 row))))
(main ()
  (unbox (d row (array (3)
      (box (2) (array (2) 1 2) (Sigma ((d Dim)) (A Int (shape d))))
      (box (3) (array (3) 7 8 9) (Sigma ((d Dim)) (A Int (shape d))))
      (box (0) (array (0) Int) (Sigma ((d Dim)) (A Int (shape d))))))
    Int
    ((i-app row-sum d) row)))",
    ),
    (
        r"(A Char (shape 3 5)) => * => * => (array (3 5) #\s #\p #\o #\t #\s #\s #\p #\o #\o #\l #\d #\e #\v #\i #\l)",
        r#"(define each-row (Pi ((n Dim)) (-> ((A Char (shape n))) (A Char (shape n))))
  (ifn ((n Dim))
    (fn ((text (A Char (shape n)))) (A Char (shape n)) ((i-app (t-app reverse Char) n (shape)) text))))
(main () ((i-app each-row 5) (frame (3) "stops" "loops" "lived")))"#,
    ),
    (
        "(A Int (shape)) => * => * => (array () 7)",
        r#"(define is-blank (-> (Char) Bool) (fn ((c Char)) Bool (char= c #\u20)))
(define words (Pi ((n Dim)) (-> ((A Char (shape (+ n 1)))) Int))
  (ifn ((n Dim))
    (fn ((text (A Char (shape (+ n 1))))) Int
      ((fn ((before (A Char (shape (+ 1 n))))) Int
         ((i-app (t-app fold Int Int) (+ n 1) (shape) (shape))
          + 0 (bool->int (and (is-blank before) (not (is-blank text))))))
       ((i-app (t-app append Char) 1 n (shape))
        (array (1) #\u20)
        ((i-app (t-app take Char) n 1 (shape)) text))))))
(main () ((i-app words 24) "to be or  not to be: that"))"#,
    ),
];

// The same of those with inputs: their answers, their data and their texts.
static ON_DATA: &[(&str, &str, &str)] = &[
    (
        "(A Int (shape 2)) => * => * => (array (2) 7 16)",
        r"(array (2 3) 1 2 3
             4 5 6)
(array (3) 1 0 2)",
        r"(define dot (-> ((A Int (shape 3)) (A Int (shape 3))) Int)
  (fn ((a (A Int (shape 3))) (b (A Int (shape 3)))) Int
    ((i-app (t-app reduce Int) 2 (shape)) + (* a b))))
(main ((m (A Int (shape 2 3))) (v (A Int (shape 3)))) (dot m v))",
    ),
    (
        "(A Int (shape)) => * => * => (array () 15)",
        r"(box 8 (array (8) 3 14 15 9 26 5 35 16))",
        r"(define mean (Pi ((n Dim)) (-> ((A Int (shape n))) Int))
  (ifn ((n Dim))
    (fn ((xs (A Int (shape n)))) Int
      (div ((i-app (t-app fold Int Int) n (shape) (shape)) + 0 xs)
           (max 1 ((i-app (t-app length Int) n (shape)) xs))))))
(main ((numbers (Sigma ((n Dim)) (A Int (shape n)))))
  (unbox (n xs numbers) Int ((i-app mean n) xs)))",
    ),
    (
        "(A Int (shape)) => * => * => (array () 10)",
        r#"(box 42 "to be, or not to be:  that is the question")"#,
        r"(define is-blank (-> (Char) Bool) (fn ((c Char)) Bool (char= c #\u20)))
(define words (Pi ((n Dim)) (-> ((A Char (shape n))) Int))
  (ifn ((n Dim))
    (fn ((text (A Char (shape n)))) Int
      ((i-app (t-app fold Int Int) (+ n 1) (shape) (shape))
       +
       0
       (bool->int
        (and (is-blank ((i-app (t-app append Char) 1 n (shape)) (array (1) #\u20) text))
             (not (is-blank ((i-app (t-app append Char) n 1 (shape)) text (array (1) #\u20))))))))))
(main ((line (Sigma ((n Dim)) (A Char (shape n)))))
  (unbox (n text line) Int ((i-app words n) text)))",
    ),
];

#[test]
fn the_programs_of_examples(rt: HostRuntime) -> Result<(), Fail> {
    for (answers, source) in PROGRAMS.iter() {
        comes_to(&rt, rt.alloc(), source.as_bytes(), b"", answers)?;
    }
    for (answers, data, source) in ON_DATA.iter() {
        comes_to(&rt, rt.alloc(), source.as_bytes(), data.as_bytes(), answers)?;
    }
    Ok(())
}

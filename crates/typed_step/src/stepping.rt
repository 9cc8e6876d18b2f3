// Steps of closed terms (docs/LANGUAGE.md, "Reduction").
ghost use Rattle.std.specs.Prelude.{IfOk};
ghost use Rattle.core_syntax.specs.Lists.{each};
ghost use Rattle.core_syntax.specs.RefineTerms.{term_of};
ghost use Rattle.typed_step.specs.Steps.{Stepped, Reduced, IsEnd, Looked, Came, IsTrap};

use crate::closed::{Closed, Next};
use crate::outcome::End;
use crate::run::run;
use core_syntax::{Memory, TermExpr, TrapKind};
use sqlite_items::Items;
use std::alloc::Global;
use term_values::DEEPEST;

/// One step of a closed term (docs/LANGUAGE.md, "Reduction"): it is a value, it traps, or it goes to the next term.
///
/// # Errors
///
/// Where there is no memory, and where a term or a type would nest too deep (docs/LANGUAGE.md, "Limits"). The term is then given
/// up.
pub fn step(alloc: Global, closed: Closed) -> Result<Next, Memory>
    ensures { IfOk result (λ next. Stepped (each term_of closed.defs) (term_of closed.term) next) }
{
    let Closed { defs, mut term } = closed;
    let mut budget = 1;
    let ran = run(alloc, defs.as_slice(), &mut term, &mut budget, DEEPEST);
    next(looked(ran, budget), defs, term)
}

/// At most k steps of a closed term: it goes on exactly where it has neither reached a value nor trapped within k.
///
/// # Errors
///
/// As of [`step`]. They may also come of the step behind the k-th, which is looked at and not taken.
pub fn reduce(alloc: Global, closed: Closed, k: u64) -> Result<Next, Memory>
    ensures { IfOk result (λ next. Reduced (each term_of closed.defs) (term_of closed.term) k next) }
{
    let Closed { defs, mut term } = closed;
    let mut budget = k;
    let ran = run(alloc, defs.as_slice(), &mut term, &mut budget, DEEPEST);
    next(ran, defs, term)
}

/// Why one step ends: a value that has been reached by it is the next term.
fn looked(ran: Result<End, Memory>, left: u64) -> Result<End, Memory>
    ensures { Looked ran left result }
{
    match ran {
        Ok(End::Value) if left == 0 => Ok(End::Spent),
        ran => ran,
    }
}

/// Where steps end that end for this reason at this term.
fn next(ran: Result<End, Memory>, defs: Items<TermExpr>, term: TermExpr) -> Result<Next, Memory>
    requires { IfOk ran (λ end. IsEnd (each term_of defs) (term_of term) end) }
    ensures { IfOk result (λ next. Came ran defs term next) }
{
    match ran {
        Ok(End::Value) => Ok(Next::Value(Closed { defs, term })),
        Ok(End::Spent) => Ok(Next::Goes(Closed { defs, term })),
        Ok(End::Trap(kind)) => Ok(trapped(kind, defs, term)),
        Ok(End::Lost) => unreachable!(),
        Err(memory) => Err(given_up(memory, defs, term)),
    }
}

/// Steps that trap; the term is given up.
fn trapped(kind: TrapKind, _defs: Items<TermExpr>, _term: TermExpr) -> Next
    ensures { IsTrap kind result }
{
    Next::Trap(kind)
}

/// No memory; the term is given up.
fn given_up(memory: Memory, _defs: Items<TermExpr>, _term: TermExpr) -> Memory {
    memory
}

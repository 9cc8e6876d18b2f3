// Closed terms of typed programs, and where their steps end (docs/LANGUAGE.md, "Reduction").
ghost use Rattle.core_syntax.specs.Lists.{each};
ghost use Rattle.core_syntax.specs.RefineTerms.{term_of};
ghost use Rattle.typed_step.specs.Closing.{IsClosed};

use core_syntax::{TermExpr, TrapKind};
use sqlite_items::Items;

/// A closed term and the definitions that it names, all of which are typed.
#[derive(Drop)]
pub struct Closed {
    pub defs: Items<TermExpr>,
    pub term: TermExpr,
    ghost typed: { ∥ IsClosed (each term_of defs) (term_of term) ∥₁ },
}

/// Where steps of a closed term end.
#[derive(Drop)]
pub enum Next {
    /// At a value.
    Value(Closed),
    /// At a step that traps.
    Trap(TrapKind),
    /// The term goes on.
    Goes(Closed),
}

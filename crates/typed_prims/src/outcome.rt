use core_syntax::{TermExpr, TrapKind};

/// What the rule of a term gives whose parts are values (docs/LANGUAGE.md, "Reduction").
#[derive(Drop)]
pub enum Outcome {
    /// The term is a value.
    Rests,
    Trap(TrapKind),
    /// The next term.
    Goes(TermExpr),
    /// There is no rule, which no typed term meets.
    Lost,
}

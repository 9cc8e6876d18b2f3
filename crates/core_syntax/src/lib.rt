//! The data that all parts of the language share: places, errors, syntax trees, indices and their normal forms.
#![tactic(auto)]

mod checked;
mod def;
mod errors;
mod expr;
mod index;
mod limits;
mod norm;
mod note;
mod parts;
mod primitive;
mod program;
mod span;
mod term;
mod ty;

pub use checked::Checked;
pub use def::Def;
pub use errors::{Memory, StuckKind, TrapKind};
pub use expr::{Atom, AtomForm, Expr, ExprForm};
pub use index::{Index, IndexForm, Sort};
pub use limits::{MOST_BYTES, MOST_OPEN};
pub use norm::{
    Coef, LARGEST_DEPTH, LARGEST_NUMBER, LARGEST_SIZE, Letter, NormDim, NormIndex, NormShape,
};
pub use note::Note;
pub use parts::{Part, Parts};
pub use primitive::Primitive;
pub use program::Program;
pub use span::Span;
pub use term::{TermAtom, TermExpr};
pub use ty::{Base, Kind, Ty, TyForm};

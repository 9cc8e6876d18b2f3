use core_syntax::Note;
use type_equal::NormType;

/// What a rule concludes at a node: its note, and the type.
#[derive(Drop)]
pub(crate) struct Concluded {
    pub(crate) note: Note,
    pub(crate) ty: NormType,
}

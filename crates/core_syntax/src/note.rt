use crate::index::Sort;
use crate::norm::NormShape;
use crate::ty::Ty;
use sqlite_items::Items;

/// What the checker notes at a node of an expression (docs/LANGUAGE.md, "Notes"), all in normal form.
#[derive(Drop)]
pub struct Note {
    /// At an application: the cell shapes of its arguments.
    pub cells: Items<NormShape>,
    /// At an application of each kind, a frame and an `unbox`: the type of the result's cell.
    pub cell: Option<Ty>,
    /// The shape of that type.
    pub shape: NormShape,
    /// At an `unbox`: the sorts of the indices that it names.
    pub sorts: Items<Sort>,
}

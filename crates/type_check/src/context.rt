use core_syntax::{Sort, Ty};
use sqlite_items::Items;

/// What is in scope at an expression: the types of the definitions by their numbers, how many type
/// variables there are, and, the innermost first, the sorts of the index variables and the types of
/// the term variables. The types needn't be in normal form; those of definitions hold no variable.
/// Fewer than 2^31 variables of each space are in scope.
#[derive(Drop)]
pub struct Context {
    pub defs: Items<Ty>,
    pub types: u32,
    pub sorts: Items<Sort>,
    pub terms: Items<Ty>,
}

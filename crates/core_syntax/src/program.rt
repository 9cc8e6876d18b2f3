ghost use Rattle.std.specs.Prelude.{◌≡◌, IfOk};
ghost use Rattle.core_syntax.specs.Made.{IsWellMade};
ghost use Rattle.core_syntax.specs.MadeProps.{IsWellMade-prop};
ghost use Rattle.core_syntax.specs.Programs.{program_with};

use crate::def::{Def, copy_defs};
use crate::errors::Memory;
use crate::expr::Expr;
use crate::ty::{Ty, copy_types};
use sqlite_items::Items;
use std::alloc::Global;

/// A program: its definitions in order, the types of the inputs of `main`, and the body of `main`. It is well made: names are
/// numbers in range, lists have the items that the grammar asks for, and array types stand in their places.
#[derive(Drop)]
pub struct Program {
    pub defs: Items<Def>,
    pub inputs: Items<Ty>,
    pub body: Expr,
    ghost well_made: { IsWellMade (program_with defs inputs body) } by { IsWellMade-prop (program_with defs inputs body) },
}

impl Program {
    /// The same program once more, its places included.
    pub fn copy(&self, alloc: Global) -> Result<Program, Memory>
        ensures { IfOk result (λ c. c ≡ self.now) }
    {
        Ok(Program {
            defs: copy_defs(alloc, self.defs.as_slice())?,
            inputs: copy_types(alloc, self.inputs.as_slice())?,
            body: self.body.copy(alloc)?,
        })
    }
}

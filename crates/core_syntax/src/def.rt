ghost use Rattle.std.specs.Prelude.{◌≡◌, IfOk};

use crate::errors::Memory;
use crate::expr::Expr;
use crate::span::Span;
use crate::ty::Ty;
use sqlite_items::Items;
use std::alloc::Global;

/// A definition `(define x T e)`: its place, its type and its expression. Its number is its place among the definitions of the
/// program, 0 first.
#[derive(Drop)]
pub struct Def {
    pub at: Span,
    pub ty: Ty,
    pub value: Expr,
}

impl Def {
    /// The same definition once more, its places included.
    pub fn copy(&self, alloc: Global) -> Result<Def, Memory>
        ensures { IfOk result (λ c. c ≡ self.now) }
    {
        Ok(Def {
            at: self.at,
            ty: self.ty.copy(alloc)?,
            value: self.value.copy(alloc)?,
        })
    }
}

/// Copies of definitions.
pub(crate) fn copy_defs(alloc: Global, defs: &[Def]) -> Result<Items<Def>, Memory>
    ensures { IfOk result (λ c. c ≡ defs.now) }
{
    let mut copies = Vec::new(alloc);
    for def in defs {
        let copy = def.copy(alloc)?;
        copies.push(copy).map_err(|_| Memory)?;
    }
    Ok(Items::from_vec(copies))
}

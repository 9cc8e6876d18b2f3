ghost use Rattle.std.specs.Prelude.{◌≡◌, ◌+◌, ◌<◌, ◌^◌, [], ◌∷◌, ◌++◌, List, length, drop, None, OnOk, IfErr};
ghost use Rattle.core_syntax.specs.Lists.{onto};
ghost use Rattle.name_resolve.specs.Held.{held_names};
ghost use Rattle.name_resolve.specs.Scopes.{Scopes as Names, Name, under, behind, number_of, HasRoom};

use crate::binders::Binder;
use crate::definitions::Definitions;
use crate::errors::NameRefusal;
use crate::space::Space;
use crate::words::NameSpace;
use std::alloc::Global;
use std::marker::Model;

/// The names in scope: the definitions so far, and the binders of each space.
#[derive(Drop)]
pub struct Scopes<'a> {
    defs: Definitions<'a>,
    terms: Space<'a>,
    types: Space<'a>,
    indices: Space<'a>,
}

impl<'a> Model for Scopes<'a> {
    ghost use Rattle.name_resolve.specs.Scopes.{Scopes as Names};

    ghost Value = { Names };

    ghost view = { λ s. record { defs = s.defs; terms = s.terms; types = s.types; indices = s.indices } };
}

impl<'a> Scopes<'a> {
    pub fn new(alloc: Global) -> Self
        ensures { result ≡ behind [] }
    {
        Scopes {
            defs: Definitions::new(alloc),
            terms: Space::new(alloc),
            types: Space::new(alloc),
            indices: Space::new(alloc),
        }
    }

    /// The number of the definition of this name.
    pub fn find_definition(&self, name: &[u8]) -> Option<u32>
        ensures { result ≡ number_of name.now self.now.defs }
    {
        self.defs.find(name)
    }

    /// How many term variables are inside the innermost one of this name.
    pub fn find_term(&self, name: &[u8]) -> Option<u32>
        ensures { result ≡ number_of name.now self.now.terms }
    {
        self.terms.find(name)
    }

    /// The same for type variables.
    pub fn find_type(&self, name: &[u8]) -> Option<u32>
        ensures { result ≡ number_of name.now self.now.types }
    {
        self.types.find(name)
    }

    /// The index variables in scope.
    pub fn indices(&self) -> &Space<'a>
        ensures { result.now ≡ self.now.indices }
    {
        &self.indices
    }

    /// A definition of a new name.
    pub fn define(&mut self, name: &'a [u8]) -> Result<(), NameRefusal>
        requires new { number_of name.now self.old.defs ≡ None }
        requires room { HasRoom self.old 1 }
        ensures defined { OnOk result (self.new ≡ record self.old { defs = self.old.defs ++ name.now ∷ [] }) }
        ensures memory { IfErr result (λ e. e ≡ NameRefusal.Memory) }
    {
        self.defs.enter(name)
    }

    /// Enters binders of a space, the last of which is the innermost then.
    pub fn enter(&mut self, space: NameSpace, binders: &[Binder<'a>]) -> Result<(), NameRefusal>
        requires { HasRoom self.old (length binders.now) }
        ensures entered { OnOk result (self.new ≡ under space (held_names binders.now) self.old) }
        ensures memory { IfErr result (λ e. e ≡ NameRefusal.Memory) }
    {
        match space {
            NameSpace::Terms => enter_all(&mut self.terms, binders),
            NameSpace::Types => enter_all(&mut self.types, binders),
            NameSpace::Indices => enter_all(&mut self.indices, binders),
        }
    }

    /// Leaves so many binders of a space, the innermost first.
    pub fn leave(&mut self, space: NameSpace, count: usize)
        ensures { (names : List Name) (before : Names) → self.old ≡ under space names before → length names ≡ count → self.new ≡ before }
    {
        match space {
            NameSpace::Terms => leave_all(&mut self.terms, count),
            NameSpace::Types => leave_all(&mut self.types, count),
            NameSpace::Indices => leave_all(&mut self.indices, count),
        }
    }
}

/// Enters binders of one space.
fn enter_all<'a>(space: &mut Space<'a>, binders: &[Binder<'a>]) -> Result<(), NameRefusal>
    requires { length space.old + length binders.now < 2 ^ 31 }
    ensures entered { OnOk result (space.new ≡ onto (held_names binders.now) space.old) }
    ensures memory { IfErr result (λ e. e ≡ NameRefusal.Memory) }
{
    for binder in binders {
        space.enter(binder.name)?;
    }
    Ok(())
}

/// Leaves so many binders of one space.
fn leave_all(space: &mut Space, count: usize)
    ensures { space.new ≡ drop count space.old }
{
    for _ in 0..count {
        space.leave();
    }
}

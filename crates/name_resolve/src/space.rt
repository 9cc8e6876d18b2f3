ghost use Rattle.std.specs.Prelude.{◌≡◌, [], ◌∷◌, ◌<◌, ◌^◌, length, drop, OnOk, IfErr};
ghost use Rattle.name_resolve.specs.Scopes.{number_of};

use crate::errors::NameRefusal;
use indexmap::IndexMap;
use std::alloc::Global;
use std::marker::Model;

/// A binder in scope, and the binder of the same name that it hides.
#[derive(Drop)]
struct Bound<'a> {
    name: &'a [u8],
    hidden: Option<u32>,
}

/// The binders in scope in one space of names. A table has the innermost binder of each name.
#[derive(Drop)]
pub struct Space<'a> {
    bound: Vec<Bound<'a>>,
    innermost: IndexMap<&'a [u8], u32>,
}

impl<'a> Model for Space<'a> {
    ghost use Rattle.std.specs.Prelude.{◌≡◌, ◌≤◌, ◌^◌, [], List, ℕ, length};
    ghost use Rattle.std.specs.Str.{bytes_eq};
    ghost use Rattle.indexmap.specs.IndexMap.{get_by};
    ghost use Rattle.name_resolve.specs.Spaces.{names_in, level_in, AreHidden};

    ghost Value = { List (List ℕ) };

    ghost view = { λ s. names_in s.bound.items };

    ghost invariant = { λ s. (length s.bound.items ≤ 2 ^ 31) × AreHidden s.bound.items [] × ((x : List ℕ) → get_by (λ y. bytes_eq x y.now) s.innermost ≡ level_in x (names_in s.bound.items)) };
}

impl<'a> Space<'a> {
    pub fn new(alloc: Global) -> Self
        ensures { result ≡ [] }
    {
        Space {
            bound: Vec::new(alloc),
            innermost: IndexMap::new(alloc),
        }
    }

    /// How many binders are inside the innermost one of this name.
    pub fn find(&self, name: &[u8]) -> Option<u32>
        ensures { result ≡ number_of name.now self.now }
    {
        let level = *self.innermost.get(name)?;
        Some(self.bound.len() as u32 - 1 - level)
    }

    /// Enters a binder, which is the innermost then.
    pub fn enter(&mut self, name: &'a [u8]) -> Result<(), NameRefusal>
        requires { length self.old < 2 ^ 31 }
        ensures entered { OnOk result (self.new ≡ name.now ∷ self.old) }
        ensures memory { IfErr result (λ e. e ≡ NameRefusal.Memory) }
    {
        let level = self.bound.len() as u32;
        let hidden = self.innermost.get(name).copied();
        self.bound
            .push(Bound { name, hidden })
            .map_err(|_| NameRefusal::Memory)?;
        if self.innermost.insert(name, level).is_err() {
            self.bound.pop();
            return Err(NameRefusal::Memory);
        }
        Ok(())
    }

    /// Leaves the innermost binder.
    pub fn leave(&mut self)
        ensures { self.new ≡ drop 1 self.old }
    {
        let Some(bound) = self.bound.pop() else {
            return;
        };
        match bound.hidden {
            Some(level) => {
                // The table has the name, so this takes no memory.
                let _ = self.innermost.insert(bound.name, level);
            }
            None => {
                self.innermost.swap_remove(bound.name);
            }
        }
    }
}

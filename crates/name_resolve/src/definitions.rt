ghost use Rattle.std.specs.Prelude.{◌≡◌, ◌<◌, ◌^◌, [], ◌∷◌, ◌++◌, length, None, OnOk, IfErr};
ghost use Rattle.name_resolve.specs.Scopes.{number_of};

use crate::errors::NameRefusal;
use indexmap::IndexSet;
use std::alloc::Global;
use std::marker::Model;

/// The names of the definitions so far, in their order.
#[derive(Drop)]
pub struct Definitions<'a> {
    names: IndexSet<&'a [u8]>,
}

impl<'a> Model for Definitions<'a> {
    ghost use Rattle.std.specs.Prelude.{◌≤◌, ◌^◌, List, ℕ, length, map};

    ghost Value = { List (List ℕ) };

    ghost view = { λ d. map (λ x. x.now) d.names.keys };

    ghost invariant = { λ d. length d.names.keys ≤ 2 ^ 31 };
}

impl<'a> Definitions<'a> {
    pub fn new(alloc: Global) -> Self
        ensures { result ≡ [] }
    {
        Definitions {
            names: IndexSet::new(alloc),
        }
    }

    /// The number of the definition of this name.
    pub fn find(&self, name: &[u8]) -> Option<u32>
        ensures { result ≡ number_of name.now self.now }
    {
        let number = self.names.get_index_of(name)?;
        Some(number as u32)
    }

    /// A definition of a new name.
    pub fn enter(&mut self, name: &'a [u8]) -> Result<(), NameRefusal>
        requires new { number_of name.now self.old ≡ None }
        requires room { length self.old < 2 ^ 31 }
        ensures entered { OnOk result (self.new ≡ self.old ++ name.now ∷ []) }
        ensures memory { IfErr result (λ e. e ≡ NameRefusal.Memory) }
    {
        self.names.insert(name).map_err(|_| NameRefusal::Memory)?;
        Ok(())
    }
}

ghost use Rattle.std.specs.Prelude.{List, ◌≡◌, ◌+◌, ◌-◌, ◌<◌, ◌≤◌, ◌^◌, [], ◌∷◌, ◌++◌, length, slice_get, slice_set, take, Some, OnOk, IfErr};
ghost use Rattle.core_syntax.specs.Blame.{◌then◌, written as writes, written_atom as writes_atom, all_written};
ghost use Rattle.core_syntax.specs.Lists.{onto, each, Each};
ghost use Rattle.core_syntax.specs.Notes.{NodeNote};
ghost use Rattle.core_syntax.specs.Made.{IndexMade};
ghost use Rattle.core_syntax.specs.Refine.{index_of, ty_of, tys_of};
ghost use Rattle.core_syntax.specs.Syntax.{Expr, TypeApp, expr_at};
ghost use Rattle.core_syntax.specs.Typing.{Context};
ghost use Rattle.type_check.specs.Boxes.{OpensBox, OpensUnbox, AreFunctionTypes};
ghost use Rattle.type_check.specs.Contexts.{IsSound};
ghost use Rattle.type_check.specs.Found.{Found, Concludes};
ghost use Rattle.type_check.specs.Written.{IsWritten, HasScope, HasRoom, Tells, IsNormalOf, IsNormalAtomOf};
ghost use Rattle.type_check.specs.State.{State, bound_at, empty_note};

use crate::applied::apply_types;
use crate::boxes::{OpenedBox, OpenedUnbox, open_box, open_unbox};
use crate::concluded::Concluded;
use crate::functions::{FunctionTypes, function_types};
use crate::notes::no_note;
use crate::refusal::TypeRefusal;
use crate::written::{written, written_atom};
use core_syntax::{Index, Note, Sort, Span, Ty};
use std::alloc::Global;
use std::marker::Model;
use type_equal::NormType;

/// A term variable's type, and how many type variables and index variables were in scope where it was bound.
#[derive(Drop)]
pub(crate) struct Bound {
    pub(crate) ty: NormType,
    pub(crate) types: u32,
    pub(crate) indices: u32,
}

/// What is in scope, and the notes of the nodes so far.
#[derive(Drop)]
pub(crate) struct Checker {
    alloc: Global,
    defs: Vec<NormType>,
    types: u32,
    sorts: Vec<Sort>,
    terms: Vec<Bound>,
    notes: Vec<Note>,
}

impl Model for Checker {
    ghost use Rattle.std.specs.Coded.{codes};
    ghost use Rattle.core_syntax.specs.contracts.ty.Ty as tree;
    ghost use Rattle.type_check.specs.State.{State};

    ghost Value = { State };

    ghost coded = { Prim.hlevel (codes, tree.the_row.coded) };

    ghost view = { λ c. record { defs = c.defs.items; types = c.types; sorts = c.sorts.items; terms = c.terms.items; notes = c.notes.items } };
}

impl Checker {
    /// Nothing in scope, and no notes.
    pub(crate) fn new(alloc: Global) -> Self
        ensures { result ≡ record { defs = []; types = 0; sorts = []; terms = []; notes = [] } }
    {
        Checker {
            alloc,
            defs: Vec::new(alloc),
            types: 0,
            sorts: Vec::new(alloc),
            terms: Vec::new(alloc),
            notes: Vec::new(alloc),
        }
    }

    /// Enters so many type variables.
    pub(crate) fn enter_types(&mut self, count: u32)
        requires { count + self.old.types < 2 ^ 31 }
        ensures { self.new ≡ record self.old { types = count + self.old.types } }
    {
        self.types += count;
    }

    /// Leaves so many type variables.
    pub(crate) fn leave_types(&mut self, count: u32)
        requires { count ≤ self.old.types }
        ensures { self.new ≡ record self.old { types = self.old.types - count } }
    {
        self.types -= count;
    }

    /// Enters index variables of these sorts, the last of which is the innermost then.
    pub(crate) fn enter_sorts(&mut self, sorts: &[Sort]) -> Result<(), TypeRefusal>
        ensures entered { OnOk result (self.new ≡ record self.old { sorts = self.old.sorts ++ sorts.now }) }
        ensures memory { IfErr result (λ e. e ≡ TypeRefusal.Memory) }
    {
        self.sorts
            .extend_from_slice(sorts)
            .map_err(|_| TypeRefusal::Memory)
    }

    /// Leaves so many index variables.
    pub(crate) fn leave_sorts(&mut self, count: usize)
        ensures { self.new ≡ record self.old { sorts = take (length self.old.sorts - count) self.old.sorts } }
    {
        let left = self.sorts.len().saturating_sub(count);
        self.sorts.truncate(left);
    }

    /// Enters a term variable.
    pub(crate) fn enter_term(&mut self, ty: NormType) -> Result<(), TypeRefusal>
        requires { length self.old.sorts < 2 ^ 31 }
        ensures entered { OnOk result (self.new ≡ record self.old { terms = self.old.terms ++ bound_at self.old ty ∷ [] }) }
        ensures memory { IfErr result (λ e. e ≡ TypeRefusal.Memory) }
    {
        let bound = Bound {
            ty,
            types: self.types,
            indices: self.sorts.len() as u32,
        };
        self.terms.push(bound).map_err(|_| TypeRefusal::Memory)
    }

    /// Leaves so many term variables.
    pub(crate) fn leave_terms(&mut self, count: usize)
        ensures { self.new ≡ record self.old { terms = take (length self.old.terms - count) self.old.terms } }
    {
        let left = self.terms.len().saturating_sub(count);
        self.terms.truncate(left);
    }

    /// The allocator.
    pub(crate) fn alloc(&self) -> Global {
        self.alloc
    }

    /// How many type variables are in scope.
    pub(crate) fn types(&self) -> u32
        ensures { result ≡ self.now.types }
    {
        self.types
    }

    /// How many index variables are in scope.
    pub(crate) fn indices(&self) -> u32
        requires { length self.now.sorts < 2 ^ 31 }
        ensures { result ≡ length self.now.sorts }
    {
        self.sorts.len() as u32
    }

    /// The sorts of the index variables in scope, the outermost first.
    pub(crate) fn sorts(&self) -> &[Sort]
        ensures { result.now ≡ self.now.sorts }
    {
        self.sorts.as_slice()
    }

    /// The term variable with so many inside it.
    pub(crate) fn bound(&self, k: u32) -> &Bound
        requires { k < length self.now.terms }
        ensures { slice_get self.now.terms (length self.now.terms - 1 - k) ≡ Some result.now }
    {
        &self.terms[self.terms.len() - 1 - k as usize]
    }

    /// The type of a definition.
    pub(crate) fn definition_type(&self, k: u32) -> &NormType
        requires { k < length self.now.defs }
        ensures { slice_get self.now.defs k ≡ Some result.now }
    {
        &self.defs[k as usize]
    }

    /// The places for notes so far.
    pub(crate) fn noted(&self) -> usize
        ensures { result ≡ length self.now.notes }
    {
        self.notes.len()
    }

    /// Holds a place for the note of a node.
    pub(crate) fn hold_note(&mut self) -> Result<(), TypeRefusal>
        ensures held { OnOk result (self.new ≡ record self.old { notes = self.old.notes ++ empty_note ∷ [] }) }
        ensures memory { IfErr result (λ e. e ≡ TypeRefusal.Memory) }
    {
        self.notes
            .push(no_note(self.alloc))
            .map_err(|_| TypeRefusal::Memory)
    }

    /// Puts a note in its place.
    pub(crate) fn put_note(&mut self, place: usize, note: Note)
        requires { place < length self.old.notes }
        ensures { self.new ≡ record self.old { notes = slice_set self.old.notes place note } }
    {
        self.notes[place] = note;
    }

    /// The normal type of a written type.
    pub(crate) fn written(&mut self, t: &Ty) -> Result<NormType, TypeRefusal>
        requires { IsWritten self.old.types (length self.old.sorts) (ty_of t.now) }
        ensures written { (Γ : Context) → HasScope self.old.types self.old.sorts Γ → Tells (writes Γ (ty_of t.now)) (IsNormalOf Γ (ty_of t.now)) result }
        ensures kept { self.new ≡ self.old }
    {
        written(self.alloc, t, self.types, &mut self.sorts)
    }

    /// The same in an atom type's place.
    pub(crate) fn written_atom(&mut self, t: &Ty) -> Result<NormType, TypeRefusal>
        requires { IsWritten self.old.types (length self.old.sorts) (ty_of t.now) }
        ensures written { (Γ : Context) → HasScope self.old.types self.old.sorts Γ → Tells (writes_atom Γ (ty_of t.now)) (IsNormalAtomOf Γ (ty_of t.now)) result }
        ensures kept { self.new ≡ self.old }
    {
        written_atom(self.alloc, t, self.types, &mut self.sorts)
    }

    /// What the application of a callee to types comes to.
    pub(crate) fn apply_types(
        &mut self,
        at: Span,
        callee_at: Span,
        callee: &NormType,
        given: &[Ty],
    ) -> Result<Concluded, TypeRefusal>
        requires sound { IsSound self.old.types (onto self.old.sorts []) (ty_of callee.now) }
        requires room { HasRoom self.old.types self.old.sorts }
        requires written { Each (IsWritten self.old.types (length self.old.sorts)) (each ty_of given.now) }
        ensures concludes { (Γ : Context) (e : Expr) (ns : List NodeNote) → HasScope self.old.types self.old.sorts Γ → expr_at e ≡ callee_at → Found Γ e (ty_of callee.now) ns →
            Concludes Γ (TypeApp at e (each ty_of given.now)) ns result }
        ensures kept { self.new ≡ self.old }
    {
        apply_types(
            self.alloc,
            at,
            callee_at,
            callee,
            given,
            self.types,
            &mut self.sorts,
        )
    }

    /// The type of a box with these indices, before its content is looked at.
    pub(crate) fn open_box(
        &mut self,
        at: Span,
        t: &Ty,
        given: &[Index],
    ) -> Result<OpenedBox, TypeRefusal>
        requires room { HasRoom self.old.types self.old.sorts }
        requires written { IsWritten self.old.types (length self.old.sorts) (ty_of t.now) }
        requires made { Each (IndexMade (length self.old.sorts)) (each index_of given.now) }
        ensures opens { (Γ : Context) → HasScope self.old.types self.old.sorts Γ → OpensBox Γ at (each index_of given.now) (ty_of t.now) result }
        ensures kept { self.new ≡ self.old }
    {
        open_box(self.alloc, at, t, given, self.types, &mut self.sorts)
    }

    /// What an `unbox` names at boxes of this type, before its body is looked at.
    pub(crate) fn open_unbox(
        &mut self,
        at: Span,
        boxes_at: Span,
        boxes: &NormType,
        count: u32,
        cell: &Ty,
    ) -> Result<OpenedUnbox, TypeRefusal>
        requires room { HasRoom self.old.types self.old.sorts }
        requires written { IsWritten self.old.types (length self.old.sorts) (ty_of cell.now) }
        ensures opens { (Γ : Context) (e : Expr) (ns : List NodeNote) → HasScope self.old.types self.old.sorts Γ → expr_at e ≡ boxes_at → Found Γ e (ty_of boxes.now) ns →
            OpensUnbox Γ at count e (ty_of cell.now) (ty_of boxes.now) result }
        ensures kept { self.new ≡ self.old }
    {
        open_unbox(
            self.alloc,
            at,
            boxes_at,
            boxes,
            count,
            cell,
            self.types,
            &mut self.sorts,
        )
    }

    /// Adds the type of a definition.
    pub(crate) fn define(&mut self, ty: NormType) -> Result<(), TypeRefusal>
        ensures defined { OnOk result (self.new ≡ record self.old { defs = self.old.defs ++ ty ∷ [] }) }
        ensures memory { IfErr result (λ e. e ≡ TypeRefusal.Memory) }
    {
        self.defs.push(ty).map_err(|_| TypeRefusal::Memory)
    }

    /// The term variables in scope, the outermost first.
    pub(crate) fn terms(&self) -> &[Bound]
        ensures { result.now ≡ self.now.terms }
    {
        self.terms.as_slice()
    }

    /// The notes.
    pub(crate) fn into_notes(self) -> Vec<Note>
        ensures { result.items ≡ self.notes }
    {
        let Checker { notes, .. } = self;
        notes
    }

    /// The normal types that a function writes.
    pub(crate) fn function_types(
        &mut self,
        inputs: &[Ty],
        output: &Ty,
    ) -> Result<FunctionTypes, TypeRefusal>
        requires inputs { Each (IsWritten self.old.types (length self.old.sorts)) (each ty_of inputs.now) }
        requires output { IsWritten self.old.types (length self.old.sorts) (ty_of output.now) }
        ensures written { (Γ : Context) → HasScope self.old.types self.old.sorts Γ →
            Tells (all_written Γ (tys_of inputs.now) then writes Γ (ty_of output.now)) (AreFunctionTypes Γ (tys_of inputs.now) (ty_of output.now)) result }
        ensures kept { self.new ≡ self.old }
    {
        function_types(self.alloc, inputs, output, self.types, &mut self.sorts)
    }
}

//! The rules of arrays of atoms.
ghost use Rattle.std.specs.Prelude.{◌≡◌, List, [], ◌++◌, IfOk};
ghost use Rattle.core_syntax.specs.Syntax.{Ty as Plain, Array, NoAtoms, Atom, Atoms, more_atoms, atom_at};
ghost use Rattle.core_syntax.specs.Refine.{ty_of};
ghost use Rattle.core_syntax.specs.NormTypes.{norm_ty};
ghost use Rattle.core_syntax.specs.Prims.{array_of};
ghost use Rattle.core_syntax.specs.Typing.{Context, numbers as shape_of};
ghost use Rattle.core_syntax.specs.Blame.{written_atom};
ghost use Rattle.core_syntax.specs.Notes.{NodeNote};
ghost use Rattle.type_check.specs.Contexts.{IsSoundAtom};
ghost use Rattle.type_check.specs.Found.{FoundAtom, Concludes};
ghost use Rattle.type_check.specs.FoundParts.{FoundAtoms, TestsAtom};

use crate::concluded::Concluded;
use crate::conclusion::conclusion;
use crate::notes::no_note;
use crate::refusal::TypeRefusal;
use crate::shapes::{array, numbers};
use core_syntax::{Memory, Span, Ty};
use std::alloc::Global;
use type_equal::{NormType, same_part};

/// Tests that the type of an atom of an array, at this place, is that of the first.
pub(crate) fn later_atom(first: &Ty, found: &Ty, at: Span) -> Result<(), TypeRefusal>
    requires first { norm_ty (ty_of first.now) ≡ ty_of first.now }
    requires found { norm_ty (ty_of found.now) ≡ ty_of found.now }
    ensures { (Γ : Context) (x : Atom) (ns : List NodeNote) → atom_at x ≡ at → FoundAtom Γ x (ty_of found.now) ns → TestsAtom Γ (ty_of first.now) x ns result }
{
    if same_part(found, first) {
        Ok(())
    } else {
        Err(TypeRefusal::Refused {
            number: 17,
            span: at,
        })
    }
}

/// The type of arrays of these atoms, with these dims.
fn array_type(alloc: Global, dims: &[u32], element: &Ty) -> Result<Ty, Memory>
    ensures { IfOk result (λ t. ty_of t ≡ array_of (ty_of element.now) (shape_of dims.now)) }
{
    let shape = numbers(alloc, dims)?;
    array(alloc, element, shape)
}

/// What follows at an array of atoms, of which the first has this type.
pub(crate) fn literal(
    alloc: Global,
    at: Span,
    dims: &[u32],
    atom: &Ty,
) -> Result<Concluded, TypeRefusal>
    ensures { (Γ : Context) (x : Atom) (xs : Atoms) (ns ms : List NodeNote) → FoundAtom Γ x (ty_of atom.now) ns →
        FoundAtoms Γ (ty_of atom.now) xs ms → Concludes Γ (Array at dims.now (more_atoms x xs)) (ns ++ ms) result }
{
    match array_type(alloc, dims, atom) {
        Ok(ty) => conclusion(alloc, at, &ty, no_note(alloc)),
        Err(_) => Err(TypeRefusal::Memory),
    }
}

/// What follows at an array without atoms, whose written atom type has this normal form.
pub(crate) fn empty_literal(
    alloc: Global,
    at: Span,
    dims: &[u32],
    atom: &NormType,
) -> Result<Concluded, TypeRefusal>
    ensures { (Γ : Context) (t : Plain) → (written_atom Γ t).met → IsSoundAtom Γ t → ty_of atom.now ≡ norm_ty t →
        Concludes Γ (NoAtoms at dims.now t) [] result }
{
    match array_type(alloc, dims, atom.ty()) {
        Ok(ty) => conclusion(alloc, at, &ty, no_note(alloc)),
        Err(_) => Err(TypeRefusal::Memory),
    }
}

// Substitution in terms (docs/LANGUAGE.md, "Reduction"). What is put in the place of a variable is closed.
ghost use Rattle.std.specs.Prelude.{◌≡◌, [], ◌∷◌, IfOk};
ghost use Rattle.core_syntax.specs.Lists.{each};
ghost use Rattle.core_syntax.specs.Refine.{index_of, ty_of};
ghost use Rattle.core_syntax.specs.RefineTerms.{term_of, terms_of, cell_of, cells_of};
ghost use Rattle.core_syntax.specs.Subst.{in_place, kept, put_all, put_first};
ghost use Rattle.core_syntax.specs.TermPut.{term_put, terms_put, cell_put, cells_put};
ghost use Rattle.core_syntax.specs.Terms.{TVar};
ghost use Rattle.core_syntax.specs.Typed.{typed_rules};
ghost use Rattle.term_values.specs.Indices.{AreValues};
ghost use Rattle.type_substitution.specs.Putting.{puts_at, terms_at};

use crate::rebuilt;
use core_syntax::{Index, Memory, Part, TermAtom, TermExpr, Ty};
use std::alloc::Global;
use std::slice;
use term_values::{array_over, index_function, type_function};
use type_substitution::{Puts, Under, binders, more};

/// What stands in the place of a term variable.
fn put_variable(
    alloc: Global,
    var: u32,
    terms: &[TermExpr],
    under: u32,
    room: u32,
) -> Result<TermExpr, Memory>
    ensures { IfOk result (λ t. term_of t ≡ in_place TVar (terms_at under terms.now var)) }
{
    if var < under {
        return Ok(TermExpr::Var(var));
    }
    let place = (var - under) as usize;
    if place >= terms.len() {
        return Ok(TermExpr::Var(var - terms.len() as u32));
    }
    terms[terms.len() - 1 - place].copy(alloc, room)
}

/// A term with what is put in the places of its variables.
#[cycle(put)]
fn put_term(
    alloc: Global,
    term: &TermExpr,
    puts: Puts<'_>,
    under: Under,
    room: u32,
) -> Result<TermExpr, Memory>
    ensures { IfOk result (λ t. term_of t ≡ term_put typed_rules (puts_at under.indices under.types puts.entry.indices.now puts.entry.types.now) (terms_at under.terms puts.entry.terms.now) (term_of term.now)) }
{
    match term {
        TermExpr::Var(k) => put_variable(alloc, *k, puts.terms, under.terms, room),
        TermExpr::Def(k) => Ok(TermExpr::Def(*k)),
        TermExpr::Array(dims, atoms) => {
            let atoms = put_atoms(alloc, atoms.as_slice(), puts, under, room)?;
            array_over(alloc, dims.as_slice(), atoms)
        }
        TermExpr::NoAtoms(dims, ty) => rebuilt::no_atoms(alloc, dims.as_slice(), ty, puts, under),
        TermExpr::Frame(dims, cells, ty) => {
            let cells = put_terms(alloc, cells.as_slice(), puts, under, room)?;
            rebuilt::frame(alloc, dims.as_slice(), cells, ty, puts, under)
        }
        TermExpr::NoCells(dims, ty) => rebuilt::no_cells(alloc, dims.as_slice(), ty, puts, under),
        TermExpr::App(function, args, cells, ty) => {
            let function = put_part(alloc, function.get(), puts, under, room)?;
            let args = put_terms(alloc, args.as_slice(), puts, under, room)?;
            rebuilt::application(alloc, function, args, cells.as_slice(), ty, puts, under)
        }
        TermExpr::TypeApp(function, types, ty) => {
            let function = put_part(alloc, function.get(), puts, under, room)?;
            rebuilt::type_application(alloc, function, types.as_slice(), ty, puts, under)
        }
        TermExpr::IndexApp(function, indices, ty) => {
            let function = put_part(alloc, function.get(), puts, under, room)?;
            rebuilt::index_application(alloc, function, indices.as_slice(), ty, puts, under)
        }
        TermExpr::Unbox(sorts, boxed, body, ty) => {
            let inside = Under {
                indices: binders(under.indices, sorts.len())?,
                types: under.types,
                terms: more(under.terms, 1)?,
            };
            let boxed = put_part(alloc, boxed.get(), puts, under, room)?;
            let body = put_part(alloc, body.get(), puts, inside, room)?;
            rebuilt::unboxing(alloc, sorts.as_slice(), boxed, body, ty, puts, under)
        }
    }
}

/// The same in a part of a term.
#[cycle(put)]
fn put_part(
    alloc: Global,
    term: &TermExpr,
    puts: Puts<'_>,
    under: Under,
    room: u32,
) -> Result<Part<TermExpr>, Memory>
    ensures { IfOk result (λ t. term_of t ≡ term_put typed_rules (puts_at under.indices under.types puts.entry.indices.now puts.entry.types.now) (terms_at under.terms puts.entry.terms.now) (term_of term.now)) }
{
    let room = room.checked_sub(1).ok_or(Memory)?;
    let term = put_term(alloc, term, puts, under, room)?;
    Part::new(alloc, term)
}

/// The same in each part of a list.
#[cycle(put)]
fn put_terms(
    alloc: Global,
    terms: &[TermExpr],
    puts: Puts<'_>,
    under: Under,
    room: u32,
) -> Result<Vec<TermExpr>, Memory>
    ensures { IfOk result (λ ts. terms_of ts.items ≡ terms_put typed_rules (puts_at under.indices under.types puts.entry.indices.now puts.entry.types.now) (terms_at under.terms puts.entry.terms.now) (terms_of terms.now)) }
{
    let room = room.checked_sub(1).ok_or(Memory)?;
    let mut put = Vec::new(alloc);
    for term in terms {
        let one = put_term(alloc, term, puts, under, room)?;
        put.push(one)?;
    }
    Ok(put)
}

/// An atom with what is put in the places of its variables.
#[cycle(put)]
fn put_atom(
    alloc: Global,
    atom: &TermAtom,
    puts: Puts<'_>,
    under: Under,
    room: u32,
) -> Result<TermAtom, Memory>
    ensures { IfOk result (λ a. cell_of a ≡ cell_put typed_rules (puts_at under.indices under.types puts.entry.indices.now puts.entry.types.now) (terms_at under.terms puts.entry.terms.now) (cell_of atom.now)) }
{
    match atom {
        TermAtom::Int(n) => Ok(TermAtom::Int(*n)),
        TermAtom::Bool(b) => Ok(TermAtom::Bool(*b)),
        TermAtom::Char(c) => Ok(TermAtom::Char(*c)),
        TermAtom::Prim(p, types, indices) => {
            rebuilt::primitive(alloc, *p, types, indices, puts, under)
        }
        TermAtom::Fn(inputs, answer, body) => {
            let inside = Under {
                indices: under.indices,
                types: under.types,
                terms: binders(under.terms, inputs.len())?,
            };
            let body = put_part(alloc, body.get(), puts, inside, room)?;
            rebuilt::function(alloc, inputs.as_slice(), answer, body, puts, under)
        }
        TermAtom::TypeFn(count, body) => {
            let inside = Under {
                indices: under.indices,
                types: more(under.types, *count)?,
                terms: under.terms,
            };
            let body = put_part(alloc, body.get(), puts, inside, room)?;
            Ok(type_function(*count, body))
        }
        TermAtom::IndexFn(sorts, body) => {
            let inside = Under {
                indices: binders(under.indices, sorts.len())?,
                types: under.types,
                terms: under.terms,
            };
            let body = put_part(alloc, body.get(), puts, inside, room)?;
            index_function(alloc, sorts.as_slice(), body)
        }
        TermAtom::Boxed(indices, content, ty) => {
            let content = put_part(alloc, content.get(), puts, under, room)?;
            rebuilt::boxed(alloc, indices.as_slice(), content, ty, puts, under)
        }
    }
}

/// The same in each atom of a list.
#[cycle(put)]
fn put_atoms(
    alloc: Global,
    atoms: &[TermAtom],
    puts: Puts<'_>,
    under: Under,
    room: u32,
) -> Result<Vec<TermAtom>, Memory>
    ensures { IfOk result (λ xs. cells_of xs.items ≡ cells_put typed_rules (puts_at under.indices under.types puts.entry.indices.now puts.entry.types.now) (terms_at under.terms puts.entry.terms.now) (cells_of atoms.now)) }
{
    let mut put = Vec::new(alloc);
    for atom in atoms {
        let one = put_atom(alloc, atom, puts, under, room)?;
        put.push(one)?;
    }
    Ok(put)
}

/// A term with what is put in the places of its variables, where no binders stand around it.
fn put(alloc: Global, term: &TermExpr, puts: Puts<'_>, room: u32) -> Result<TermExpr, Memory>
    ensures { IfOk result (λ t. term_of t ≡ term_put typed_rules (puts_at 0 0 puts.entry.indices.now puts.entry.types.now) (terms_at 0 puts.entry.terms.now) (term_of term.now)) }
{
    let outside = Under {
        indices: 0,
        types: 0,
        terms: 0,
    };
    put_term(alloc, term, puts, outside, room)
}

/// The body of a `fn` with arguments in the place of its variables.
pub fn with_arguments(
    alloc: Global,
    body: &TermExpr,
    args: &[TermExpr],
    room: u32,
) -> Result<TermExpr, Memory>
    ensures { IfOk result (λ t. term_of t ≡ term_put typed_rules typed_rules.put_none (put_all (each term_of args.now)) (term_of body.now)) }
{
    let puts = Puts {
        indices: &[],
        types: &[],
        terms: args,
    };
    put(alloc, body, puts, room)
}

/// The body of a `tfn` with types in the place of its variables.
pub fn with_types(
    alloc: Global,
    body: &TermExpr,
    types: &[Ty],
    room: u32,
) -> Result<TermExpr, Memory>
    ensures { IfOk result (λ t. term_of t ≡ term_put typed_rules (typed_rules.put_types (each ty_of types.now)) kept (term_of body.now)) }
{
    let puts = Puts {
        indices: &[],
        types,
        terms: &[],
    };
    put(alloc, body, puts, room)
}

/// The body of an `ifn` with the values of indices in the place of its variables.
pub fn with_indices(
    alloc: Global,
    body: &TermExpr,
    values: &[Index],
    room: u32,
) -> Result<TermExpr, Memory>
    requires { AreValues (each index_of values.now) }
    ensures { IfOk result (λ t. term_of t ≡ term_put typed_rules (record { indices = put_all (each index_of values.now); types = kept }) kept (term_of body.now)) }
{
    let puts = Puts {
        indices: values,
        types: &[],
        terms: &[],
    };
    put(alloc, body, puts, room)
}

/// The body of an `unbox` with the values of a box's indices and its content in the place of its variables.
pub fn with_box(
    alloc: Global,
    body: &TermExpr,
    values: &[Index],
    content: &TermExpr,
    room: u32,
) -> Result<TermExpr, Memory>
    requires { AreValues (each index_of values.now) }
    ensures { IfOk result (λ t. term_of t ≡ term_put typed_rules (record { indices = put_all (each index_of values.now); types = kept }) (put_first (term_of content.now ∷ [])) (term_of body.now)) }
{
    let puts = Puts {
        indices: values,
        types: &[],
        terms: slice::from_ref(content),
    };
    put(alloc, body, puts, room)
}

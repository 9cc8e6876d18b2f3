// The typed terms of a checked program (docs/LANGUAGE.md, "Reduction").
ghost use Rattle.std.specs.Prelude.{◌≡◌, length, IfOk};
ghost use Rattle.std.specs.Option.{option_copied};
ghost use Rattle.core_syntax.specs.Annotate.{annotated as annotated_expr, annotated_all as annotated_exprs, annotated_atom as annotated_item, annotated_atoms as annotated_items, annotated_defs as annotated_list, first_note, later_notes};
ghost use Rattle.array_values.specs.Data.{array_data};
ghost use Rattle.core_syntax.specs.Data.{FitsValues, data_terms};
ghost use Rattle.core_syntax.specs.Lists.{each};
ghost use Rattle.core_syntax.specs.Programs.{def_of};
ghost use Rattle.core_syntax.specs.Refine.{expr_of, exprs_of, atom_of, atoms_of, ty_of};
ghost use Rattle.core_syntax.specs.RefineTerms.{term_of, terms_of, cell_of, cells_of};
ghost use Rattle.typed_start.specs.Starting.{StartsAt};
ghost use Rattle.reduction_laws.specs.Readings.{note_read, notes_from};

use crate::inputs::arrays;
use crate::noted;
use array_values::Array;
use core_syntax::{
    Atom, AtomForm, Def, Expr, ExprForm, Memory, Note, Part, TermAtom, TermExpr, Ty,
};
use sqlite_items::Items;
use std::alloc::Global;
use substitution::with_arguments;
use term_values::{DEEPEST, array_over, index_function, type_function};

/// The notes at a place, if there are any; the place goes behind them.
fn next_note<'a>(notes: &'a [Note], at: &mut usize) -> Option<&'a Note>
    ensures note { note_read (option_copied result) ≡ first_note (notes_from at.old notes.now) }
    ensures place { notes_from at.new notes.now ≡ later_notes (notes_from at.old notes.now) }
{
    if *at >= notes.len() {
        return None;
    }
    let note = &notes[*at];
    *at += 1;
    Some(note)
}

/// The typed term of an expression whose nodes have the notes from a place on; the place goes behind them.
#[cycle(annotated)]
fn annotated(alloc: Global, expr: &Expr, notes: &[Note], at: &mut usize) -> Result<TermExpr, Memory>
    ensures { IfOk result (λ t. annotated_expr (expr_of expr.now) (notes_from at.old notes.now) ≡ (term_of t, notes_from at.new notes.now)) }
{
    let note = next_note(notes, at);
    match &expr.form {
        ExprForm::Var(k) => Ok(TermExpr::Var(*k)),
        ExprForm::Def(k) => Ok(TermExpr::Def(*k)),
        ExprForm::Array(dims, atoms) => {
            let atoms = annotated_atoms(alloc, atoms.as_slice(), notes, at)?;
            array_over(alloc, dims.as_slice(), atoms)
        }
        ExprForm::NoAtoms(dims, ty) => noted::no_atoms(alloc, dims.as_slice(), ty),
        ExprForm::Frame(dims, cells) => {
            let cells = annotated_all(alloc, cells.as_slice(), notes, at)?;
            noted::frame(alloc, dims.as_slice(), cells, note)
        }
        ExprForm::NoCells(dims, ty) => noted::no_cells(alloc, dims.as_slice(), ty),
        ExprForm::App(function, args) => {
            let function = annotated_part(alloc, function.get(), notes, at)?;
            let args = annotated_all(alloc, args.as_slice(), notes, at)?;
            noted::application(alloc, function, args, note)
        }
        ExprForm::TypeApp(function, types) => {
            let function = annotated_part(alloc, function.get(), notes, at)?;
            noted::type_application(alloc, function, types.as_slice(), note)
        }
        ExprForm::IndexApp(function, indices) => {
            let function = annotated_part(alloc, function.get(), notes, at)?;
            noted::index_application(alloc, function, indices.as_slice(), note)
        }
        ExprForm::Unbox(_, boxed, _, body) => {
            let boxed = annotated_part(alloc, boxed.get(), notes, at)?;
            let body = annotated_part(alloc, body.get(), notes, at)?;
            noted::unboxing(alloc, boxed, body, note)
        }
    }
}

/// The typed term of a part of an expression.
#[cycle(annotated)]
fn annotated_part(
    alloc: Global,
    expr: &Expr,
    notes: &[Note],
    at: &mut usize,
) -> Result<Part<TermExpr>, Memory>
    ensures { IfOk result (λ t. annotated_expr (expr_of expr.now) (notes_from at.old notes.now) ≡ (term_of t, notes_from at.new notes.now)) }
{
    let term = annotated(alloc, expr, notes, at)?;
    Part::new(alloc, term)
}

/// The typed terms of the parts of a list.
#[cycle(annotated)]
fn annotated_all(
    alloc: Global,
    exprs: &[Expr],
    notes: &[Note],
    at: &mut usize,
) -> Result<Vec<TermExpr>, Memory>
    ensures { IfOk result (λ ts. annotated_exprs (exprs_of exprs.now) (notes_from at.old notes.now) ≡ (terms_of ts.items, notes_from at.new notes.now)) }
{
    let mut terms = Vec::new(alloc);
    for expr in exprs {
        let term = annotated(alloc, expr, notes, at)?;
        terms.push(term)?;
    }
    Ok(terms)
}

/// The typed atom of an atom.
#[cycle(annotated)]
fn annotated_atom(
    alloc: Global,
    atom: &Atom,
    notes: &[Note],
    at: &mut usize,
) -> Result<TermAtom, Memory>
    ensures { IfOk result (λ a. annotated_item (atom_of atom.now) (notes_from at.old notes.now) ≡ (cell_of a, notes_from at.new notes.now)) }
{
    match &atom.form {
        AtomForm::Int(n) => Ok(TermAtom::Int(*n)),
        AtomForm::Bool(b) => Ok(TermAtom::Bool(*b)),
        AtomForm::Char(c) => Ok(TermAtom::Char(*c)),
        AtomForm::Prim(p) => Ok(TermAtom::Prim(*p, None, None)),
        AtomForm::Fn(inputs, answer, body) => {
            let body = annotated_part(alloc, body.get(), notes, at)?;
            noted::function(alloc, inputs.as_slice(), answer, body)
        }
        AtomForm::TypeFn(count, body) => {
            let body = annotated_part(alloc, body.get(), notes, at)?;
            Ok(type_function(*count, body))
        }
        AtomForm::IndexFn(sorts, body) => {
            let body = annotated_part(alloc, body.get(), notes, at)?;
            index_function(alloc, sorts.as_slice(), body)
        }
        AtomForm::Boxed(indices, content, ty) => {
            let content = annotated_part(alloc, content.get(), notes, at)?;
            noted::boxed(alloc, indices.as_slice(), content, ty)
        }
    }
}

/// The typed atoms of a list.
#[cycle(annotated)]
fn annotated_atoms(
    alloc: Global,
    atoms: &[Atom],
    notes: &[Note],
    at: &mut usize,
) -> Result<Vec<TermAtom>, Memory>
    ensures { IfOk result (λ xs. annotated_items (atoms_of atoms.now) (notes_from at.old notes.now) ≡ (cells_of xs.items, notes_from at.new notes.now)) }
{
    let mut made = Vec::new(alloc);
    for atom in atoms {
        let one = annotated_atom(alloc, atom, notes, at)?;
        made.push(one)?;
    }
    Ok(made)
}

/// The typed terms of definitions, likewise.
pub fn annotated_defs(
    alloc: Global,
    defs: &[Def],
    notes: &[Note],
    at: &mut usize,
) -> Result<Items<TermExpr>, Memory>
    ensures { IfOk result (λ ts. annotated_list (each def_of defs.now) (notes_from at.old notes.now) ≡ (each term_of ts, notes_from at.new notes.now)) }
{
    let mut terms = Vec::new(alloc);
    for def in defs {
        let term = annotated(alloc, &def.value, notes, at)?;
        terms.push(term)?;
    }
    Ok(Items::from_vec(terms))
}

/// The typed term of the body of a program whose definitions have the notes before a place, with data in the place of inputs
/// of these types.
pub fn started(
    alloc: Global,
    body: &Expr,
    notes: &[Note],
    at: usize,
    types: &[Ty],
    inputs: &[Array],
) -> Result<TermExpr, Memory>
    requires { length types.now ≡ length inputs.now }
    ensures { IfOk result (λ t. StartsAt (expr_of body.now) (notes_from at notes.now) (data_terms (each ty_of types.now) (each array_data inputs.now)) (term_of t)) }
{
    let mut at = at;
    let inputs = arrays(alloc, types, inputs, DEEPEST)?;
    match annotated(alloc, body, notes, &mut at) {
        Ok(body) => with_arguments(alloc, &body, inputs.as_slice(), DEEPEST),
        Err(_) => Err(Memory),
    }
}

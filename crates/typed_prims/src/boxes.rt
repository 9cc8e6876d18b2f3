// Primitives that give boxes (docs/LANGUAGE.md, "What primitives give").
ghost use Rattle.std.specs.Prelude.{◌≡◌, ◌<◌, ◌%◌, ◌++◌, [], ◌∷◌, IfOk, OnOk, List, Some, if◌then◌else◌, length, take, slice_get, slice_index_or};
ghost use Rattle.core_syntax.specs.Arrays.{array as array_data, runs};
ghost use Rattle.core_syntax.specs.Delta.{at_least_0, filtered, gives_box, iota as numbered_box, masked, raveled as raveled_box, reshaped};
ghost use Rattle.core_syntax.specs.Lists.{each, joined, product};
ghost use Rattle.core_syntax.specs.Refine.{index_of, ty_of};
ghost use Rattle.core_syntax.specs.RefineTerms.{cell_of, term_of};
ghost use Rattle.core_syntax.specs.Rules.{array_term_of, atom_rules};
ghost use Rattle.core_syntax.specs.Syntax.{Ty as SyntaxTy};
ghost use Rattle.core_syntax.specs.Terms.{IndexValue, DimValue, ShapeValue, TBoxed, TNoAtoms};
ghost use Rattle.core_syntax.specs.Typed.{atom_type as atoms_type, content_type, typed_rules, value_index};
ghost use Rattle.prim_kernels.specs.Kernels.{formed_dims};
ghost use Rattle.typed_prims.specs.Answers.{answer_on, array_of};
ghost use Rattle.typed_prims.specs.ArrayAnswers.{answer_is, gives_single};
ghost use Rattle.typed_prims.specs.Boxes.{count_marks, cycled as cycled_items, mark, wanted, GivesBox};

use crate::answer::{Answer, at, copied_atoms, led, single};
use crate::arrays::numbers;
use core_syntax::{Index, IndexForm, Memory, Part, Primitive, TermAtom, TermExpr, TrapKind, Ty};
use sqlite_items::Items;
use std::alloc::Global;
use term_values::{MOST_DIMS, NOWHERE, array, atom_type, no_atoms, push_copies};
use type_substitution::content_ty;

/// A primitive that gives a box, on arguments, where the result's cell has this type.
pub(crate) fn on_boxes(
    alloc: Global,
    primitive: Primitive,
    args: &[TermExpr],
    cell: &Ty,
    room: u32,
) -> Result<Answer, Memory>
    requires { GivesBox primitive }
    ensures { (is : List IndexValue) → IfOk result (λ x. answer_is x ≡ answer_on (ty_of cell.now) primitive is args.now) }
{
    match args {
        [a] => on_one(alloc, primitive, a, cell, room),
        [mask, a] => match primitive {
            Primitive::Filter => filter(alloc, mask, a, cell, room),
            _ => Ok(Answer::Unfit),
        },
        [dims, a, fill] => match primitive {
            Primitive::Reshape => reshape(alloc, dims, a, fill, cell, room),
            _ => Ok(Answer::Unfit),
        },
        _ => Ok(Answer::Unfit),
    }
}

/// One of them on one array.
fn on_one(
    alloc: Global,
    primitive: Primitive,
    a: &TermExpr,
    cell: &Ty,
    room: u32,
) -> Result<Answer, Memory>
    requires { GivesBox primitive }
    ensures { (is : List IndexValue) → IfOk result (λ x. answer_is x ≡ answer_on (ty_of cell.now) primitive is (a.now ∷ [])) }
{
    match primitive {
        Primitive::Iota => iota(alloc, a, cell),
        Primitive::Ravel => ravel(alloc, a, cell, room),
        _ => Ok(Answer::Unfit),
    }
}

/// A scalar box of an array under its dims.
fn boxed_by_dims(
    alloc: Global,
    dims: Items<u32>,
    atoms: Vec<TermAtom>,
    cell: &Ty,
) -> Result<Answer, Memory>
    ensures { IfOk result (λ x. answer_is x ≡ gives_box (atom_rules typed_rules (ty_of cell.now)) (ShapeValue dims) (array_data dims (each cell_of atoms.items))) }
{
    match shape_index(alloc, dims.as_slice()) {
        Ok(indices) => boxed(alloc, indices, dims, atoms, cell),
        Err(memory) => Err(memory),
    }
}

/// A scalar box of an array under a number.
fn boxed_by_count(
    alloc: Global,
    count: u32,
    dims: Items<u32>,
    atoms: Vec<TermAtom>,
    cell: &Ty,
) -> Result<Answer, Memory>
    ensures { IfOk result (λ x. answer_is x ≡ gives_box (atom_rules typed_rules (ty_of cell.now)) (DimValue count) (array_data dims (each cell_of atoms.items))) }
{
    match count_index(alloc, count) {
        Ok(indices) => boxed(alloc, indices, dims, atoms, cell),
        Err(memory) => Err(memory),
    }
}

/// Dims as the one index of a box.
fn shape_index(alloc: Global, dims: &[u32]) -> Result<Items<Index>, Memory>
    ensures { IfOk result (λ is. each index_of is ≡ value_index (ShapeValue dims.now) ∷ []) }
{
    match term_values::numbers(alloc, dims) {
        Ok(index) => one_index(alloc, index),
        Err(memory) => Err(memory),
    }
}

/// A number as the one index of a box.
fn count_index(alloc: Global, count: u32) -> Result<Items<Index>, Memory>
    ensures { IfOk result (λ is. each index_of is ≡ value_index (DimValue count) ∷ []) }
{
    let index = Index {
        at: NOWHERE,
        form: IndexForm::Num(u64::from(count)),
    };
    one_index(alloc, index)
}

/// One index.
fn one_index(alloc: Global, index: Index) -> Result<Items<Index>, Memory>
    ensures { IfOk result (λ is. is ≡ index ∷ []) }
{
    let mut indices = Vec::new(alloc);
    match indices.push(index) {
        Ok(()) => Ok(Items::from_vec(indices)),
        Err(_) => Err(Memory),
    }
}

/// A scalar box of an array under an index.
fn boxed(
    alloc: Global,
    indices: Items<Index>,
    dims: Items<u32>,
    atoms: Vec<TermAtom>,
    cell: &Ty,
) -> Result<Answer, Memory>
    ensures { (v : IndexValue) → each index_of indices ≡ value_index v ∷ [] → IfOk result (λ x. answer_is x ≡ gives_box (atom_rules typed_rules (ty_of cell.now)) v (array_data dims (each cell_of atoms.items))) }
{
    match content(alloc, indices.as_slice(), dims, atoms, cell) {
        Ok(content) => boxed_content(alloc, indices, content, cell),
        Err(memory) => Err(memory),
    }
}

/// A scalar box of this content.
fn boxed_content(
    alloc: Global,
    indices: Items<Index>,
    content: Part<TermExpr>,
    cell: &Ty,
) -> Result<Answer, Memory>
    ensures { IfOk result (λ x. answer_is x ≡ gives_single (TBoxed (each index_of indices) (term_of content) (atoms_type (ty_of cell.now)))) }
{
    match atom_type(alloc, cell) {
        Ok(ty) => single(alloc, TermAtom::Boxed(indices, content, ty)),
        Err(memory) => Err(memory),
    }
}

/// An array as the content of a box under indices, where this is the type of a cell of boxes.
fn content(
    alloc: Global,
    indices: &[Index],
    dims: Items<u32>,
    atoms: Vec<TermAtom>,
    cell: &Ty,
) -> Result<Part<TermExpr>, Memory>
    ensures { IfOk result (λ t. term_of t ≡ array_term_of typed_rules (atoms_type (content_type (atoms_type (ty_of cell.now)) (each index_of indices.now))) dims (each cell_of atoms.items)) }
{
    match content_term(alloc, indices, dims, atoms, cell) {
        Ok(term) => Part::new(alloc, term),
        Err(memory) => Err(memory),
    }
}

/// The same, as a term.
fn content_term(
    alloc: Global,
    indices: &[Index],
    dims: Items<u32>,
    atoms: Vec<TermAtom>,
    cell: &Ty,
) -> Result<TermExpr, Memory>
    ensures { IfOk result (λ t. term_of t ≡ array_term_of typed_rules (atoms_type (content_type (atoms_type (ty_of cell.now)) (each index_of indices.now))) dims (each cell_of atoms.items)) }
{
    if atoms.is_empty() {
        return no_content(alloc, indices, dims, cell);
    }
    Ok(array(dims, atoms))
}

/// The same of an array without atoms.
fn no_content(
    alloc: Global,
    indices: &[Index],
    dims: Items<u32>,
    cell: &Ty,
) -> Result<TermExpr, Memory>
    ensures { IfOk result (λ t. term_of t ≡ TNoAtoms dims (atoms_type (content_type (atoms_type (ty_of cell.now)) (each index_of indices.now)))) }
{
    let ty = atom_type(alloc, cell)?;
    let content = content_ty(alloc, &ty, indices)?;
    no_atoms(alloc, dims, &content)
}

/// The dim that an integer asks for: a negative one counts as 0.
fn dim(z: i64) -> u64
    ensures { result ≡ at_least_0 z }
{
    if z < 0 { 0 } else { z as u64 }
}

/// The dim that an atom asks for.
fn asked(atom: &TermAtom) -> u64
    ensures { result ≡ wanted (cell_of atom.now) }
{
    match atom {
        TermAtom::Int(z) => dim(*z),
        TermAtom::Bool(_)
        | TermAtom::Char(_)
        | TermAtom::Prim(_, _, _)
        | TermAtom::Fn(_, _, _)
        | TermAtom::TypeFn(_, _)
        | TermAtom::IndexFn(_, _)
        | TermAtom::Boxed(_, _, _) => 0,
    }
}

/// The dim that the atom at a place asks for.
fn asked_at(atoms: &[TermAtom], place: usize) -> u64
    requires { place < length atoms.now }
    ensures { slice_get (each wanted (each cell_of atoms.now)) place ≡ Some result }
{
    asked(&atoms[place])
}

/// The dims that atoms ask for, where an array may have them.
fn asked_dims(alloc: Global, atoms: &[TermAtom]) -> Result<Option<Items<u32>>, Memory>
    ensures { IfOk result (λ dims. dims ≡ formed_dims (each wanted (each cell_of atoms.now))) }
{
    if atoms.len() > MOST_DIMS {
        return Ok(None);
    }
    let mut dims = Vec::new(alloc);
    for place in 0..atoms.len() {
        let dim = asked_at(atoms, place);
        if dim > u64::from(u32::MAX) {
            return Ok(None);
        }
        dims.push(dim as u32)?;
    }
    if term_values::forms(dims.as_slice()) {
        Ok(Some(Items::from_vec(dims)))
    } else {
        Ok(None)
    }
}

/// `iota`: the numbers 0 to the product of the asked dims.
fn iota(alloc: Global, q: &TermExpr, cell: &Ty) -> Result<Answer, Memory>
    ensures { IfOk result (λ x. answer_is x ≡ numbered_box (atom_rules typed_rules (ty_of cell.now)) (each wanted (array_of q.now).atoms)) }
{
    match asked_dims(alloc, term_values::atoms(q))? {
        None => Ok(Answer::Trap(TrapKind::Size)),
        Some(dims) => {
            let atoms = numbers(alloc, term_values::count(dims.as_slice()) as u32)?;
            boxed_by_dims(alloc, dims, atoms, cell)
        }
    }
}

/// `reshape`: the atoms of an array again and again, or the fill where it has none, as an array of the asked dims.
fn reshape(
    alloc: Global,
    q: &TermExpr,
    a: &TermExpr,
    fill: &TermExpr,
    cell: &Ty,
    room: u32,
) -> Result<Answer, Memory>
    ensures { IfOk result (λ x. answer_is x ≡ reshaped (atom_rules typed_rules (ty_of cell.now)) (each wanted (array_of q.now).atoms) (array_of a.now).atoms (array_of fill.now).atoms) }
{
    match term_values::atoms(fill) {
        [fill] => reshape_with(alloc, q, term_values::atoms(a), fill, cell, room),
        _ => Ok(Answer::Unfit),
    }
}

/// The same with the atom of a fill.
fn reshape_with(
    alloc: Global,
    q: &TermExpr,
    atoms: &[TermAtom],
    fill: &TermAtom,
    cell: &Ty,
    room: u32,
) -> Result<Answer, Memory>
    ensures { IfOk result (λ x. answer_is x ≡ reshaped (atom_rules typed_rules (ty_of cell.now)) (each wanted (array_of q.now).atoms) (each cell_of atoms.now) (cell_of fill.now ∷ [])) }
{
    match asked_dims(alloc, term_values::atoms(q))? {
        None => Ok(Answer::Trap(TrapKind::Size)),
        Some(dims) => {
            let atoms = cycled(
                alloc,
                atoms,
                fill,
                term_values::count(dims.as_slice()) as u32,
                room,
            )?;
            boxed_by_dims(alloc, dims, atoms, cell)
        }
    }
}

/// So many atoms: copies of those of a list again and again, or of the fill where it has none.
fn cycled(
    alloc: Global,
    atoms: &[TermAtom],
    fill: &TermAtom,
    count: u32,
    room: u32,
) -> Result<Vec<TermAtom>, Memory>
    ensures { IfOk result (λ all. all.items ≡ cycled_items atoms.now fill.now count) }
{
    let room = room.checked_sub(1).ok_or(Memory)?;
    let mut all = Vec::new(alloc);
    for place in 0..count {
        let atom = picked(alloc, atoms, fill, place as usize, room)?;
        all.push(atom)?;
    }
    Ok(all)
}

/// A copy of the atom at a place modulo their count, or of the fill where there is none.
fn picked(
    alloc: Global,
    atoms: &[TermAtom],
    fill: &TermAtom,
    place: usize,
    room: u32,
) -> Result<TermAtom, Memory>
    ensures { IfOk result (λ atom. atom ≡ slice_index_or atoms.now (place % length atoms.now) fill.now) }
{
    if atoms.is_empty() {
        fill.copy(alloc, room)
    } else {
        atoms[place % atoms.len()].copy(alloc, room)
    }
}

/// `ravel`: the atoms as a vector. More than a number of 32 bits counts are no array's, and find no memory here.
fn ravel(alloc: Global, a: &TermExpr, cell: &Ty, room: u32) -> Result<Answer, Memory>
    ensures { IfOk result (λ x. answer_is x ≡ raveled_box (atom_rules typed_rules (ty_of cell.now)) (array_of a.now)) }
{
    let atoms = term_values::atoms(a);
    match u32::try_from(atoms.len()) {
        Ok(count) => raveled(alloc, count, atoms, cell, room),
        Err(_) => Err(Memory),
    }
}

/// So many atoms as a vector.
fn raveled(
    alloc: Global,
    count: u32,
    atoms: &[TermAtom],
    cell: &Ty,
    room: u32,
) -> Result<Answer, Memory>
    ensures { IfOk result (λ x. answer_is x ≡ gives_box (atom_rules typed_rules (ty_of cell.now)) (DimValue count) (array_data (count ∷ []) (each cell_of atoms.now))) }
{
    let room = room.checked_sub(1).ok_or(Memory)?;
    let dims = led(alloc, count, &[])?;
    let atoms = copied_atoms(alloc, atoms, room)?;
    boxed_by_count(alloc, count, dims, atoms, cell)
}

/// `filter`: the leading cells at whose places the mask is true.
fn filter(
    alloc: Global,
    mask: &TermExpr,
    a: &TermExpr,
    cell: &Ty,
    room: u32,
) -> Result<Answer, Memory>
    ensures { IfOk result (λ x. answer_is x ≡ filtered (atom_rules typed_rules (ty_of cell.now)) (array_of mask.now) (array_of a.now)) }
{
    match term_values::dims(a) {
        [] => Ok(Answer::Unfit),
        [count, rest @ ..] => {
            let marks = term_values::atoms(mask);
            let kept = kept_count(marks, *count);
            let dims = led(alloc, kept, rest)?;
            let atoms = kept_atoms(alloc, marks, term_values::atoms(a), *count, rest, room)?;
            boxed_by_count(alloc, kept, dims, atoms, cell)
        }
    }
}

/// How many of the first so many marks are true.
fn kept_count(marks: &[TermAtom], count: u32) -> u32
    ensures { result ≡ count_marks (take count (each cell_of marks.now)) }
{
    let mut kept: u32 = 0;
    for place in 0..marks.len().min(count as usize) {
        kept += one_if(is_marked(marks, place));
    }
    kept
}

/// 1 for true, 0 for false.
fn one_if(b: bool) -> u32
    ensures { result ≡ (if b then 1 else 0) }
{
    if b { 1 } else { 0 }
}

/// Whether the mark at a place is true.
fn is_marked(marks: &[TermAtom], place: usize) -> bool
    requires { place < length marks.now }
    ensures { slice_get (each mark (each cell_of marks.now)) place ≡ Some result }
{
    is_true(&marks[place])
}

/// Whether an atom is true.
fn is_true(atom: &TermAtom) -> bool
    ensures { result ≡ mark (cell_of atom.now) }
{
    match atom {
        TermAtom::Bool(b) => *b,
        TermAtom::Int(_)
        | TermAtom::Char(_)
        | TermAtom::Prim(_, _, _)
        | TermAtom::Fn(_, _, _)
        | TermAtom::TypeFn(_, _)
        | TermAtom::IndexFn(_, _)
        | TermAtom::Boxed(_, _, _) => false,
    }
}

/// Copies of the atoms of the first so many cells at whose places the mark is true.
fn kept_atoms(
    alloc: Global,
    marks: &[TermAtom],
    atoms: &[TermAtom],
    count: u32,
    cell: &[u32],
    room: u32,
) -> Result<Vec<TermAtom>, Memory>
    ensures { (r : SyntaxTy) → IfOk result (λ all. all.items ≡ joined (masked (atom_rules typed_rules r) (each cell_of marks.now) (runs count (product cell.now) atoms.now))) }
{
    let room = room.checked_sub(1).ok_or(Memory)?;
    let mut all = Vec::new(alloc);
    for place in 0..marks.len().min(count as usize) {
        push_if(
            &mut all,
            alloc,
            is_marked(marks, place),
            at(atoms, place, cell),
            room,
        )?;
    }
    Ok(all)
}

/// Pushes copies of atoms, where they are wanted.
fn push_if(
    all: &mut Vec<TermAtom>,
    alloc: Global,
    wanted: bool,
    atoms: &[TermAtom],
    room: u32,
) -> Result<(), Memory>
    ensures { OnOk result (all.new.items ≡ all.old.items ++ (if wanted then atoms.now else [])) }
{
    if wanted {
        push_copies(all, alloc, atoms, room)
    } else {
        Ok(())
    }
}

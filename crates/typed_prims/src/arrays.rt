// Primitives that cut, join and reorder arrays (docs/LANGUAGE.md, "What primitives give").
ghost use Rattle.std.specs.Prelude.{◌≡◌, ◌<◌, ◌*◌, ◌++◌, [], ◌∷◌, IfOk, OnOk, List, option_map, pos, replicate as repeats};
ghost use Rattle.core_syntax.specs.declared.term.TermAtom.TheVariants as atom;
ghost use Rattle.core_syntax.specs.Arrays.{runs, columns};
ghost use Rattle.core_syntax.specs.Delta.{appended, reversed as reversed_array, taken, dropped, transposed as transposed_array, copied, length_of, positions_of, index_or as selected, cell_or as cell_at_or, number_at};
ghost use Rattle.core_syntax.specs.Lists.{each, joined, onto, product};
ghost use Rattle.core_syntax.specs.Refine.{index_of};
ghost use Rattle.core_syntax.specs.RefineTerms.{cell_of};
ghost use Rattle.core_syntax.specs.Rules.{atom_rules, values_of};
ghost use Rattle.core_syntax.specs.Syntax.{Ty as SyntaxTy};
ghost use Rattle.core_syntax.specs.Terms.{IndexValue};
ghost use Rattle.core_syntax.specs.Typed.{typed_rules, closed_value};
ghost use Rattle.prim_kernels.specs.Kernels.{column_at, place_below};
ghost use Rattle.typed_prims.specs.Answers.{answer_on, array_of};
ghost use Rattle.typed_prims.specs.ArrayAnswers.{answer_is, gives, places, IsOnArrays};

use crate::answer::{Answer, at, behind, copied_atoms, formed, front, led, single};
use crate::deltas::{Look, seen};
use core_syntax::{Index, IndexForm, Memory, Primitive, TermAtom, TermExpr, TrapKind};
use sqlite_items::Items;
use std::alloc::Global;
use term_values::push_copies;

/// A primitive that cuts, joins or reorders arrays, on arguments.
pub(crate) fn on_arrays(
    alloc: Global,
    primitive: Primitive,
    indices: &Option<Items<Index>>,
    args: &[TermExpr],
    room: u32,
) -> Result<Answer, Memory>
    requires { IsOnArrays primitive }
    ensures { (r : SyntaxTy) → IfOk result (λ a. answer_is a ≡ answer_on r primitive (values_of closed_value (option_map (each index_of) indices.now)) args.now) }
{
    match args {
        [a] => on_array(alloc, primitive, indices, a, room),
        [a, b] => match primitive {
            Primitive::Append => append(alloc, a, b, room),
            _ => Ok(Answer::Unfit),
        },
        [a, i, other] => match primitive {
            Primitive::IndexOr => index_or(alloc, a, i, other, room),
            _ => Ok(Answer::Unfit),
        },
        _ => Ok(Answer::Unfit),
    }
}

/// One of them on one array.
fn on_array(
    alloc: Global,
    primitive: Primitive,
    indices: &Option<Items<Index>>,
    a: &TermExpr,
    room: u32,
) -> Result<Answer, Memory>
    requires { IsOnArrays primitive }
    ensures { (r : SyntaxTy) → IfOk result (λ x. answer_is x ≡ answer_on r primitive (values_of closed_value (option_map (each index_of) indices.now)) (a.now ∷ [])) }
{
    match primitive {
        Primitive::Reverse => reverse(alloc, a, room),
        Primitive::Take => take(alloc, dim_at(indices, 0)?, a, room),
        Primitive::Drop => drop_front(alloc, dim_at(indices, 0)?, dim_at(indices, 1)?, a, room),
        Primitive::Transpose => transpose(alloc, a, room),
        Primitive::Replicate => replicate(alloc, dim_at(indices, 0)?, a, room),
        Primitive::Length => length(alloc, a),
        Primitive::Positions => positions(alloc, a),
        _ => Ok(Answer::Unfit),
    }
}

/// The number at a place of index arguments, 0 where there is none.
fn dim_at(indices: &Option<Items<Index>>, place: usize) -> Result<u32, Memory>
    ensures { IfOk result (λ n. n ≡ number_at (values_of closed_value (option_map (each index_of) indices.now)) place) }
{
    match indices {
        None => Ok(0),
        Some(indices) => {
            let indices = indices.as_slice();
            if place < indices.len() {
                dim(&indices[place])
            } else {
                Ok(0)
            }
        }
    }
}

/// The number that an index argument of a primitive is, which is a value that a run can keep: any other finds no memory.
fn dim(index: &Index) -> Result<u32, Memory>
    ensures { (rest : List IndexValue) → IfOk result (λ n. n ≡ number_at (closed_value (index_of index.now) ∷ rest) 0) }
{
    match &index.form {
        IndexForm::Num(n) => u32::try_from(*n).map_err(|_| Memory),
        _ => Err(Memory),
    }
}

/// `append`: the cells of the first and then those of the second.
fn append(alloc: Global, a: &TermExpr, b: &TermExpr, room: u32) -> Result<Answer, Memory>
    ensures { (r : SyntaxTy) → IfOk result (λ x. answer_is x ≡ appended (atom_rules typed_rules r) (array_of a.now) (array_of b.now)) }
{
    match (term_values::dims(a), term_values::dims(b)) {
        ([m, cell @ ..], [n, ..]) => match formed(alloc, u64::from(*m) + u64::from(*n), cell)? {
            None => Ok(Answer::Trap(TrapKind::Size)),
            Some(dims) => {
                let atoms = joined_atoms(
                    alloc,
                    term_values::atoms(a),
                    term_values::atoms(b),
                    room,
                )?;
                Ok(Answer::Gives(dims, atoms))
            }
        },
        _ => Ok(Answer::Unfit),
    }
}

/// Copies of atoms and then of others.
fn joined_atoms(
    alloc: Global,
    atoms: &[TermAtom],
    others: &[TermAtom],
    room: u32,
) -> Result<Vec<TermAtom>, Memory>
    ensures { IfOk result (λ all. all.items ≡ atoms.now ++ others.now) }
{
    let mut all = Vec::new(alloc);
    push_copies(&mut all, alloc, atoms, room)?;
    push_copies(&mut all, alloc, others, room)?;
    Ok(all)
}

/// `reverse`: the leading cells from the last to the first.
fn reverse(alloc: Global, a: &TermExpr, room: u32) -> Result<Answer, Memory>
    ensures { (r : SyntaxTy) → IfOk result (λ x. answer_is x ≡ reversed_array (atom_rules typed_rules r) (array_of a.now)) }
{
    match term_values::dims(a) {
        [] => Ok(Answer::Unfit),
        [count, cell @ ..] => {
            let dims = led(alloc, *count, cell)?;
            let atoms = reversed(alloc, *count as usize, cell, term_values::atoms(a), room)?;
            Ok(Answer::Gives(dims, atoms))
        }
    }
}

/// The atoms of so many cells, the last cell first.
fn reversed(
    alloc: Global,
    count: usize,
    cell: &[u32],
    atoms: &[TermAtom],
    room: u32,
) -> Result<Vec<TermAtom>, Memory>
    ensures { IfOk result (λ all. all.items ≡ joined (onto (runs count (product cell.now) atoms.now) [])) }
{
    let mut all = Vec::new(alloc);
    if atoms.is_empty() {
        return Ok(all);
    }
    for done in 0..count {
        push_copies(&mut all, alloc, at(atoms, count - 1 - done, cell), room)?;
    }
    Ok(all)
}

/// `take`: the first so many leading cells.
fn take(alloc: Global, count: u32, a: &TermExpr, room: u32) -> Result<Answer, Memory>
    ensures { (r : SyntaxTy) → IfOk result (λ x. answer_is x ≡ taken (atom_rules typed_rules r) count (array_of a.now)) }
{
    match term_values::dims(a) {
        [] => Ok(Answer::Unfit),
        [_, cell @ ..] => {
            let dims = led(alloc, count, cell)?;
            let atoms = copied_atoms(
                alloc,
                front(term_values::atoms(a), count as usize, cell),
                room,
            )?;
            Ok(Answer::Gives(dims, atoms))
        }
    }
}

/// `drop`: the leading cells behind the first so many, of which there are `left`.
fn drop_front(
    alloc: Global,
    count: u32,
    left: u32,
    a: &TermExpr,
    room: u32,
) -> Result<Answer, Memory>
    ensures { (r : SyntaxTy) → IfOk result (λ x. answer_is x ≡ dropped (atom_rules typed_rules r) count left (array_of a.now)) }
{
    match term_values::dims(a) {
        [] => Ok(Answer::Unfit),
        [_, cell @ ..] => {
            let dims = led(alloc, left, cell)?;
            let atoms = copied_atoms(
                alloc,
                behind(term_values::atoms(a), count as usize, cell),
                room,
            )?;
            Ok(Answer::Gives(dims, atoms))
        }
    }
}

/// `transpose`: the cell at (j, i) is the one at (i, j).
fn transpose(alloc: Global, a: &TermExpr, room: u32) -> Result<Answer, Memory>
    ensures { (r : SyntaxTy) → IfOk result (λ x. answer_is x ≡ transposed_array (atom_rules typed_rules r) (array_of a.now)) }
{
    match term_values::dims(a) {
        [m, n, cell @ ..] => {
            let inner = led(alloc, *m, cell)?;
            let dims = led(alloc, *n, inner.as_slice())?;
            let atoms = transposed(alloc, *m, *n, cell, term_values::atoms(a), room)?;
            Ok(Answer::Gives(dims, atoms))
        }
        _ => Ok(Answer::Unfit),
    }
}

/// The atoms of the cells of so many rows of a length, column by column.
fn transposed(
    alloc: Global,
    rows: u32,
    row_length: u32,
    cell: &[u32],
    atoms: &[TermAtom],
    room: u32,
) -> Result<Vec<TermAtom>, Memory>
    ensures { IfOk result (λ all. all.items ≡ joined (each joined (columns row_length (each (runs row_length (product cell.now)) (runs rows (row_length * product cell.now) atoms.now))))) }
{
    let mut all = Vec::new(alloc);
    if atoms.is_empty() {
        return Ok(all);
    }
    for column in 0..row_length {
        push_column(&mut all, alloc, column, rows, row_length, cell, atoms, room)?;
    }
    Ok(all)
}

/// Pushes copies of the atoms of the cells of a column.
fn push_column(
    all: &mut Vec<TermAtom>,
    alloc: Global,
    column: u32,
    rows: u32,
    row_length: u32,
    cell: &[u32],
    atoms: &[TermAtom],
    room: u32,
) -> Result<(), Memory>
    requires { column < row_length }
    ensures { OnOk result (all.new.items ≡ all.old.items ++ joined (column_at column (each (runs row_length (product cell.now)) (runs rows (row_length * product cell.now) atoms.now)))) }
{
    for row in 0..rows {
        let place = row as usize * row_length as usize + column as usize;
        push_copies(all, alloc, at(atoms, place, cell), room)?;
    }
    Ok(())
}

/// `replicate`: the array so many times.
fn replicate(alloc: Global, count: u32, a: &TermExpr, room: u32) -> Result<Answer, Memory>
    ensures { (r : SyntaxTy) → IfOk result (λ x. answer_is x ≡ copied (atom_rules typed_rules r) count (array_of a.now)) }
{
    match formed(alloc, u64::from(count), term_values::dims(a))? {
        None => Ok(Answer::Trap(TrapKind::Size)),
        Some(dims) => {
            let atoms = repeated(alloc, count, term_values::atoms(a), room)?;
            Ok(Answer::Gives(dims, atoms))
        }
    }
}

/// So many copies of atoms.
fn repeated(
    alloc: Global,
    count: u32,
    atoms: &[TermAtom],
    room: u32,
) -> Result<Vec<TermAtom>, Memory>
    ensures { IfOk result (λ all. all.items ≡ joined (repeats count atoms.now)) }
{
    let mut all = Vec::new(alloc);
    if atoms.is_empty() {
        return Ok(all);
    }
    for _done in 0..count {
        push_copies(&mut all, alloc, atoms, room)?;
    }
    Ok(all)
}

/// `length`: how many leading cells there are.
fn length(alloc: Global, a: &TermExpr) -> Result<Answer, Memory>
    ensures { (r : SyntaxTy) → IfOk result (λ x. answer_is x ≡ length_of (atom_rules typed_rules r) (array_of a.now)) }
{
    match term_values::dims(a) {
        [] => Ok(Answer::Unfit),
        [count, ..] => single(alloc, TermAtom::Int(i64::from(*count))),
    }
}

/// `positions`: the places of the leading cells.
fn positions(alloc: Global, a: &TermExpr) -> Result<Answer, Memory>
    ensures { (r : SyntaxTy) → IfOk result (λ x. answer_is x ≡ positions_of (atom_rules typed_rules r) (array_of a.now)) }
{
    match term_values::dims(a) {
        [] => Ok(Answer::Unfit),
        [count, ..] => match formed(alloc, u64::from(*count), &[])? {
            None => Ok(Answer::Trap(TrapKind::Size)),
            Some(dims) => {
                let atoms = numbers(alloc, *count)?;
                Ok(Answer::Gives(dims, atoms))
            }
        },
    }
}

/// The numbers below one.
pub(crate) fn numbers(alloc: Global, count: u32) -> Result<Vec<TermAtom>, Memory>
    ensures { IfOk result (λ atoms. each cell_of atoms.items ≡ places count) }
{
    let mut atoms = Vec::new(alloc);
    for place in 0..count {
        push_number(&mut atoms, place)?;
    }
    Ok(atoms)
}

/// Pushes a number.
fn push_number(atoms: &mut Vec<TermAtom>, number: u32) -> Result<(), Memory>
    ensures { OnOk result (atoms.new.items ≡ atoms.old.items ++ atom.Int (pos number) ∷ []) }
{
    atoms.push(TermAtom::Int(i64::from(number)))?;
    Ok(())
}

/// `index-or`: the leading cell at a place, or the other array where there is none.
fn index_or(
    alloc: Global,
    a: &TermExpr,
    place: &TermExpr,
    other: &TermExpr,
    room: u32,
) -> Result<Answer, Memory>
    ensures { (r : SyntaxTy) → IfOk result (λ x. answer_is x ≡ selected (atom_rules typed_rules r) (array_of a.now) (array_of place.now) (array_of other.now)) }
{
    match term_values::dims(a) {
        [] => Ok(Answer::Unfit),
        [count, cell @ ..] => match seen(place) {
            Look::Int(place) => cell_or(
                alloc,
                *count,
                cell,
                term_values::atoms(a),
                place,
                other,
                room,
            ),
            _ => Ok(Answer::Unfit),
        },
    }
}

/// The cell at a place of so many cells of these dims, or the other array where there is none.
fn cell_or(
    alloc: Global,
    count: u32,
    cell: &[u32],
    atoms: &[TermAtom],
    place: i64,
    other: &TermExpr,
    room: u32,
) -> Result<Answer, Memory>
    ensures { (r : SyntaxTy) → IfOk result (λ x. answer_is x ≡ cell_at_or (atom_rules typed_rules r) count cell.now (each cell_of atoms.now) (array_of other.now) place) }
{
    match cell_place(place, count) {
        Some(place) => copied(alloc, cell, at(atoms, place, cell), room),
        None => copied(
            alloc,
            term_values::dims(other),
            term_values::atoms(other),
            room,
        ),
    }
}

/// A place of so many cells, none where it is before the first or behind the last.
fn cell_place(place: i64, count: u32) -> Option<usize>
    ensures { result ≡ place_below place count }
{
    if 0 <= place && place < i64::from(count) {
        Some(place as usize)
    } else {
        None
    }
}

/// A copy of an array.
fn copied(alloc: Global, dims: &[u32], atoms: &[TermAtom], room: u32) -> Result<Answer, Memory>
    ensures { IfOk result (λ x. answer_is x ≡ gives dims.now (each cell_of atoms.now)) }
{
    let dims = Items::from_slice(alloc, dims)?;
    let atoms = copied_atoms(alloc, atoms, room)?;
    Ok(Answer::Gives(dims, atoms))
}

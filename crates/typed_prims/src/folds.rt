// `reduce` and `fold`: the nested applications that they go to (docs/LANGUAGE.md, "What primitives give").
ghost use Rattle.std.specs.Prelude.{◌≡◌, ◌≤◌, ◌*◌, ◌++◌, [], ◌∷◌, IfOk, OnOk, None, Some, drop, option_map, slice_index_or, take};
ghost use Rattle.core_syntax.specs.declared.primitive.Primitive.TheVariants as p;
ghost use Rattle.core_syntax.specs.Delta.{folds};
ghost use Rattle.core_syntax.specs.Lists.{each, product};
ghost use Rattle.core_syntax.specs.Move.{Goes};
ghost use Rattle.core_syntax.specs.Prims.{int_ty};
ghost use Rattle.core_syntax.specs.Refine.{index_of, ty_of};
ghost use Rattle.core_syntax.specs.RefineTerms.{cell_of, term_of, terms_of};
ghost use Rattle.core_syntax.specs.Rules.{answered, array_term_of, atom_rules, fold_from, fold_term, goes_fold, reduce_term};
ghost use Rattle.core_syntax.specs.Syntax.{Ty as SyntaxTy};
ghost use Rattle.core_syntax.specs.Terms.{TApp, more_terms, no_terms, scalar_of};
ghost use Rattle.core_syntax.specs.Typed.{atom_type as atoms_type, typed_rules, TypedTerm};
ghost use Rattle.typed_prims.specs.Answers.{array_of, move_on};
ghost use Rattle.typed_prims.specs.Folds.{cells_of, item_terms};
ghost use Rattle.typed_prims.specs.Outcomes.{move_of};

use crate::answer::{at, copied_atoms};
use crate::outcome::Outcome;
use core_syntax::{Base, Index, Memory, Part, TermAtom, TermExpr, TrapKind, Ty, TyForm};
use sqlite_items::Items;
use std::alloc::Global;
use term_values::{NOWHERE, application, copied_indices, copied_scalar, with_atoms};

/// The most items of a fold.
const MOST_ITEMS: u32 = 1 << 24;

/// The cells of an array along its leading dim: how many, their dims, and the atoms of all of them.
#[derive(Clone, Copy)]
struct Cells<'a> {
    count: u32,
    dims: &'a [u32],
    atoms: &'a [TermAtom],
}

/// What is applied again and again: the function, the shapes of its two arguments' cells, the type of the result's cell, and
/// the type of an item's cell.
#[derive(Clone, Copy)]
struct FoldStep<'a> {
    function: &'a TermAtom,
    shapes: &'a [Index],
    answer: &'a Ty,
    item: &'a Ty,
}

/// `reduce`: the function on the first item and the second, on what that gives and the third, and so on. More items than
/// `room` would nest deeper, and find no memory.
pub(crate) fn reduce(
    alloc: Global,
    types: &Option<Items<Ty>>,
    indices: &Option<Items<Index>>,
    args: &[TermExpr],
    room: u32,
) -> Result<Outcome, Memory>
    ensures { (r : SyntaxTy) → IfOk result (λ o. move_of o ≡ move_on r p.Reduce (option_map (each ty_of) types.now) (option_map (each index_of) indices.now) args.now) }
{
    match args {
        [function, items] => {
            let function = term_values::atoms(function);
            reduce_over(alloc, types, indices, function, items, room)
        }
        _ => Ok(Outcome::Lost),
    }
}

/// `reduce` by the atoms of a function over items.
fn reduce_over(
    alloc: Global,
    types: &Option<Items<Ty>>,
    indices: &Option<Items<Index>>,
    function: &[TermAtom],
    items: &TermExpr,
    room: u32,
) -> Result<Outcome, Memory>
    ensures { (r : SyntaxTy) → IfOk result (λ o. move_of o ≡ answered typed_rules r (option_map (each ty_of) types.now) (option_map (each index_of) indices.now) (folds (atom_rules typed_rules r) (each cell_of function.now) None (array_of items.now))) }
{
    match function {
        [function] => reduce_by(alloc, types, indices, function, items, room),
        _ => Ok(Outcome::Lost),
    }
}

/// `reduce` by an atom over items.
fn reduce_by(
    alloc: Global,
    types: &Option<Items<Ty>>,
    indices: &Option<Items<Index>>,
    function: &TermAtom,
    items: &TermExpr,
    room: u32,
) -> Result<Outcome, Memory>
    ensures { (r : SyntaxTy) → IfOk result (λ o. move_of o ≡ answered typed_rules r (option_map (each ty_of) types.now) (option_map (each index_of) indices.now) (folds (atom_rules typed_rules r) (cell_of function.now ∷ []) None (array_of items.now))) }
{
    match term_values::dims(items) {
        [] => Ok(Outcome::Lost),
        [count, dims @ ..] => {
            if *count > MOST_ITEMS {
                return Ok(Outcome::Trap(TrapKind::Size));
            }
            let cells = Cells {
                count: *count,
                dims,
                atoms: term_values::atoms(items),
            };
            reduce_cells(alloc, types, indices, function, cells, room)
        }
    }
}

/// `reduce` by an atom over so many cells.
fn reduce_cells(
    alloc: Global,
    types: &Option<Items<Ty>>,
    indices: &Option<Items<Index>>,
    function: &TermAtom,
    cells: Cells<'_>,
    room: u32,
) -> Result<Outcome, Memory>
    ensures { IfOk result (λ o. move_of o ≡ goes_fold typed_rules (option_map (each ty_of) types.now) (option_map (each index_of) indices.now) (cell_of function.now) None (cells_of cells.entry.count cells.entry.dims.now (each cell_of cells.entry.atoms.now))) }
{
    match (types, indices) {
        (Some(types), Some(indices)) => match indices.as_slice() {
            [_, shape] => reduce_with(alloc, types.as_slice(), shape, function, cells, room),
            _ => Ok(Outcome::Lost),
        },
        _ => Ok(Outcome::Lost),
    }
}

/// `reduce` with its type arguments and the shape of its cells.
fn reduce_with(
    alloc: Global,
    types: &[Ty],
    shape: &Index,
    function: &TermAtom,
    cells: Cells<'_>,
    room: u32,
) -> Result<Outcome, Memory>
    ensures { IfOk result (λ o. move_of o ≡ reduce_term typed_rules (cell_of function.now) (each ty_of types.now) (index_of shape.now) (cells_of cells.entry.count cells.entry.dims.now (each cell_of cells.entry.atoms.now))) }
{
    if cells.count == 0 {
        return Ok(Outcome::Lost);
    }
    if cells.count > room {
        return Err(Memory);
    }
    let answer = result_type(alloc, types, 0, shape)?;
    let shapes = two_shapes(alloc, shape, shape)?;
    let fold = FoldStep {
        function,
        shapes: shapes.as_slice(),
        answer: &answer,
        item: &answer,
    };
    match item_at(alloc, fold.item, cells, 0, room) {
        Ok(first) => goes(nested(alloc, fold, first, cells, 1, room)),
        Err(memory) => Err(memory),
    }
}

/// `fold`: the function on an accumulator and the first item, on what that gives and the second, and so on. More items than
/// `room` would nest deeper, and find no memory.
pub(crate) fn fold(
    alloc: Global,
    types: &Option<Items<Ty>>,
    indices: &Option<Items<Index>>,
    args: &[TermExpr],
    room: u32,
) -> Result<Outcome, Memory>
    ensures { (r : SyntaxTy) → IfOk result (λ o. move_of o ≡ move_on r p.Fold (option_map (each ty_of) types.now) (option_map (each index_of) indices.now) args.now) }
{
    match args {
        [function, first, items] => {
            let function = term_values::atoms(function);
            fold_over(alloc, types, indices, function, first, items, room)
        }
        _ => Ok(Outcome::Lost),
    }
}

/// `fold` by the atoms of a function over items.
fn fold_over(
    alloc: Global,
    types: &Option<Items<Ty>>,
    indices: &Option<Items<Index>>,
    function: &[TermAtom],
    first: &TermExpr,
    items: &TermExpr,
    room: u32,
) -> Result<Outcome, Memory>
    ensures { (r : SyntaxTy) → IfOk result (λ o. move_of o ≡ answered typed_rules r (option_map (each ty_of) types.now) (option_map (each index_of) indices.now) (folds (atom_rules typed_rules r) (each cell_of function.now) (Some (array_of first.now)) (array_of items.now))) }
{
    match function {
        [function] => fold_by(alloc, types, indices, function, first, items, room),
        _ => Ok(Outcome::Lost),
    }
}

/// `fold` by an atom over items.
fn fold_by(
    alloc: Global,
    types: &Option<Items<Ty>>,
    indices: &Option<Items<Index>>,
    function: &TermAtom,
    first: &TermExpr,
    items: &TermExpr,
    room: u32,
) -> Result<Outcome, Memory>
    ensures { (r : SyntaxTy) → IfOk result (λ o. move_of o ≡ answered typed_rules r (option_map (each ty_of) types.now) (option_map (each index_of) indices.now) (folds (atom_rules typed_rules r) (cell_of function.now ∷ []) (Some (array_of first.now)) (array_of items.now))) }
{
    match term_values::dims(items) {
        [] => Ok(Outcome::Lost),
        [count, dims @ ..] => {
            if *count > MOST_ITEMS {
                return Ok(Outcome::Trap(TrapKind::Size));
            }
            let cells = Cells {
                count: *count,
                dims,
                atoms: term_values::atoms(items),
            };
            fold_cells(alloc, types, indices, function, first, cells, room)
        }
    }
}

/// `fold` by an atom over so many cells.
fn fold_cells(
    alloc: Global,
    types: &Option<Items<Ty>>,
    indices: &Option<Items<Index>>,
    function: &TermAtom,
    first: &TermExpr,
    cells: Cells<'_>,
    room: u32,
) -> Result<Outcome, Memory>
    ensures { IfOk result (λ o. move_of o ≡ goes_fold typed_rules (option_map (each ty_of) types.now) (option_map (each index_of) indices.now) (cell_of function.now) (Some (array_of first.now)) (cells_of cells.entry.count cells.entry.dims.now (each cell_of cells.entry.atoms.now))) }
{
    match (types, indices) {
        (Some(types), Some(indices)) => match indices.as_slice() {
            [_, shape, result] => {
                let types = types.as_slice();
                fold_with(alloc, types, shape, result, function, first, cells, room)
            }
            _ => Ok(Outcome::Lost),
        },
        _ => Ok(Outcome::Lost),
    }
}

/// `fold` with its type arguments, the shape of its items' cells and that of its accumulator.
fn fold_with(
    alloc: Global,
    types: &[Ty],
    shape: &Index,
    accumulated: &Index,
    function: &TermAtom,
    first: &TermExpr,
    cells: Cells<'_>,
    room: u32,
) -> Result<Outcome, Memory>
    ensures { IfOk result (λ o. move_of o ≡ fold_from typed_rules (cell_of function.now) (each ty_of types.now) (index_of shape.now) (index_of accumulated.now) (array_of first.now) (cells_of cells.entry.count cells.entry.dims.now (each cell_of cells.entry.atoms.now))) }
{
    if cells.count > room {
        return Err(Memory);
    }
    let answer = result_type(alloc, types, 1, accumulated)?;
    let item = result_type(alloc, types, 0, shape)?;
    let shapes = two_shapes(alloc, accumulated, shape)?;
    let fold = FoldStep {
        function,
        shapes: shapes.as_slice(),
        answer: &answer,
        item: &item,
    };
    let dims = term_values::dims(first);
    match value(alloc, dims, term_values::atoms(first), fold.answer, room) {
        Ok(first) => goes(nested(alloc, fold, first, cells, 0, room)),
        Err(memory) => Err(memory),
    }
}

/// The step to a term.
fn goes(term: Result<TermExpr, Memory>) -> Result<Outcome, Memory>
    ensures { (t : TypedTerm) → IfOk term (λ u. term_of u ≡ t) → IfOk result (λ o. move_of o ≡ Goes t) }
{
    match term {
        Ok(term) => Ok(Outcome::Goes(term)),
        Err(memory) => Err(memory),
    }
}

/// The type of arrays of the type argument at a place, of this shape.
fn result_type(alloc: Global, types: &[Ty], place: usize, shape: &Index) -> Result<Ty, Memory>
    ensures { IfOk result (λ t. ty_of t ≡ typed_rules.typed_result (each ty_of types.now) place (index_of shape.now)) }
{
    let element = type_at(alloc, types, place)?;
    let shape = shape.copy(alloc)?;
    Ty::array(alloc, NOWHERE, element, shape)
}

/// The type argument at a place.
fn type_at(alloc: Global, types: &[Ty], place: usize) -> Result<Ty, Memory>
    ensures { IfOk result (λ t. ty_of t ≡ slice_index_or (each ty_of types.now) place int_ty) }
{
    if place < types.len() {
        return types[place].copy(alloc);
    }
    Ok(Ty {
        at: NOWHERE,
        form: TyForm::Base(Base::Int),
    })
}

/// The shapes of the cells of two arguments.
fn two_shapes(alloc: Global, first: &Index, second: &Index) -> Result<Items<Index>, Memory>
    ensures { IfOk result (λ is. is ≡ first.now ∷ second.now ∷ []) }
{
    let mut shapes = Vec::new(alloc);
    let shape = first.copy(alloc)?;
    shapes.push(shape)?;
    let shape = second.copy(alloc)?;
    shapes.push(shape)?;
    Ok(Items::from_vec(shapes))
}

/// A copy of an array as a term, with the atoms' type of a cell where it has none.
pub(crate) fn value(
    alloc: Global,
    dims: &[u32],
    atoms: &[TermAtom],
    cell: &Ty,
    room: u32,
) -> Result<TermExpr, Memory>
    ensures { IfOk result (λ t. term_of t ≡ array_term_of typed_rules (atoms_type (ty_of cell.now)) dims.now (each cell_of atoms.now)) }
{
    let dims = Items::from_slice(alloc, dims)?;
    let atoms = copied_atoms(alloc, atoms, room)?;
    with_atoms(alloc, dims, atoms, cell)
}

/// A copy of the cell at a place as a term.
fn item_at(
    alloc: Global,
    item: &Ty,
    cells: Cells<'_>,
    place: u32,
    room: u32,
) -> Result<TermExpr, Memory>
    ensures { IfOk result (λ t. term_of t ≡ array_term_of typed_rules (atoms_type (ty_of item.now)) cells.entry.dims.now (take (product cells.entry.dims.now) (drop (place * product cells.entry.dims.now) (each cell_of cells.entry.atoms.now)))) }
{
    let atoms = at(cells.atoms, place as usize, cells.dims);
    value(alloc, cells.dims, atoms, item, room)
}

/// The applications to the items from a place on, one around the other.
fn nested(
    alloc: Global,
    fold: FoldStep<'_>,
    first: TermExpr,
    cells: Cells<'_>,
    from: u32,
    room: u32,
) -> Result<TermExpr, Memory>
    requires { from ≤ cells.count }
    ensures { IfOk result (λ t. term_of t ≡ fold_term typed_rules (cell_of fold.entry.function.now) (each index_of fold.entry.shapes.now) (ty_of fold.entry.answer.now) (term_of first) (drop from (item_terms (atoms_type (ty_of fold.entry.item.now)) cells.entry.count cells.entry.dims.now (each cell_of cells.entry.atoms.now)))) }
{
    let mut acc = first;
    for place in from..cells.count {
        acc = applied(alloc, fold, acc, cells, place, room)?;
    }
    Ok(acc)
}

/// The application to an accumulator and the item at a place.
fn applied(
    alloc: Global,
    fold: FoldStep<'_>,
    acc: TermExpr,
    cells: Cells<'_>,
    place: u32,
    room: u32,
) -> Result<TermExpr, Memory>
    ensures { IfOk result (λ t. term_of t ≡ TApp (scalar_of (cell_of fold.entry.function.now)) (more_terms (term_of acc) (more_terms (array_term_of typed_rules (atoms_type (ty_of fold.entry.item.now)) cells.entry.dims.now (take (product cells.entry.dims.now) (drop (place * product cells.entry.dims.now) (each cell_of cells.entry.atoms.now)))) no_terms)) (each index_of fold.entry.shapes.now) (ty_of fold.entry.answer.now)) }
{
    match sole(alloc, acc) {
        Ok(args) => applied_to(alloc, fold, args, cells, place, room),
        Err(memory) => Err(memory),
    }
}

/// One term.
fn sole(alloc: Global, term: TermExpr) -> Result<Vec<TermExpr>, Memory>
    ensures { IfOk result (λ ts. ts.items ≡ term ∷ []) }
{
    let mut terms = Vec::new(alloc);
    match terms.push(term) {
        Ok(()) => Ok(terms),
        Err(_) => Err(Memory),
    }
}

/// The application to arguments and the item at a place.
fn applied_to(
    alloc: Global,
    fold: FoldStep<'_>,
    args: Vec<TermExpr>,
    cells: Cells<'_>,
    place: u32,
    room: u32,
) -> Result<TermExpr, Memory>
    ensures { (acc : TermExpr) → args.items ≡ acc ∷ [] → IfOk result (λ t. term_of t ≡ TApp (scalar_of (cell_of fold.entry.function.now)) (more_terms (term_of acc) (more_terms (array_term_of typed_rules (atoms_type (ty_of fold.entry.item.now)) cells.entry.dims.now (take (product cells.entry.dims.now) (drop (place * product cells.entry.dims.now) (each cell_of cells.entry.atoms.now)))) no_terms)) (each index_of fold.entry.shapes.now) (ty_of fold.entry.answer.now)) }
{
    let mut args = args;
    match push_item(&mut args, alloc, fold.item, cells, place, room) {
        Ok(()) => application_to(alloc, fold, args, room),
        Err(memory) => Err(memory),
    }
}

/// Pushes the item at a place.
fn push_item(
    args: &mut Vec<TermExpr>,
    alloc: Global,
    item: &Ty,
    cells: Cells<'_>,
    place: u32,
    room: u32,
) -> Result<(), Memory>
    ensures { OnOk result ((t : TermExpr) × (args.new.items ≡ args.old.items ++ t ∷ []) × (term_of t ≡ array_term_of typed_rules (atoms_type (ty_of item.now)) cells.entry.dims.now (take (product cells.entry.dims.now) (drop (place * product cells.entry.dims.now) (each cell_of cells.entry.atoms.now))))) }
{
    let item = item_at(alloc, item, cells, place, room)?;
    args.push(item)?;
    Ok(())
}

/// The application to arguments.
fn application_to(
    alloc: Global,
    fold: FoldStep<'_>,
    args: Vec<TermExpr>,
    room: u32,
) -> Result<TermExpr, Memory>
    ensures { IfOk result (λ t. term_of t ≡ TApp (scalar_of (cell_of fold.entry.function.now)) (terms_of args.items) (each index_of fold.entry.shapes.now) (ty_of fold.entry.answer.now)) }
{
    match fold_parts(alloc, fold, room) {
        Ok((function, shapes, answer)) => Ok(application(function, args, shapes, answer)),
        Err(memory) => Err(memory),
    }
}

/// Copies of the function, the shapes and the type of the result's cell.
fn fold_parts(
    alloc: Global,
    fold: FoldStep<'_>,
    room: u32,
) -> Result<(Part<TermExpr>, Items<Index>, Ty), Memory>
    ensures { IfOk result (λ parts. (term_of parts.0 ≡ scalar_of (cell_of fold.entry.function.now)) × (parts.1 ≡ fold.entry.shapes.now) × (parts.2 ≡ fold.entry.answer.now)) }
{
    let shapes = copied_indices(alloc, fold.shapes)?;
    let answer = fold.answer.copy(alloc)?;
    match copied_scalar(alloc, fold.function, room) {
        Ok(function) => Ok((function, shapes, answer)),
        Err(memory) => Err(memory),
    }
}

// Terms made again of parts in which something has been put; it is put in their notes here.
ghost use Rattle.std.specs.Prelude.{◌≡◌, IfOk, option_map};
ghost use Rattle.core_syntax.specs.Lists.{each};
ghost use Rattle.core_syntax.specs.Refine.{index_of, ty_of};
ghost use Rattle.core_syntax.specs.RefineTerms.{term_of, terms_of, cell_of};
ghost use Rattle.core_syntax.specs.Terms.{TNoAtoms, TFrame, TNoCells, TApp, TTypeApp, TIndexApp, TUnbox, TPrim, TFn, TBoxed};
ghost use Rattle.core_syntax.specs.Typed.{put_in_index, put_in_ty};
ghost use Rattle.type_substitution.specs.Putting.{puts_at};

use core_syntax::{Index, Memory, Part, Primitive, Sort, TermAtom, TermExpr, Ty};
use sqlite_items::Items;
use std::alloc::Global;
use term_values::{copied_dims, copied_sorts};
use type_substitution::{Puts, Under, put_each_index, put_each_type, put_type};

/// `(array (n ..) T)`
pub(crate) fn no_atoms(
    alloc: Global,
    dims: &[u32],
    atom: &Ty,
    puts: Puts<'_>,
    under: Under,
) -> Result<TermExpr, Memory>
    ensures { IfOk result (λ t. term_of t ≡ TNoAtoms dims.now (put_in_ty (puts_at under.indices under.types puts.entry.indices.now puts.entry.types.now) (ty_of atom.now))) }
{
    let dims = copied_dims(alloc, dims)?;
    let atom = put_type(alloc, atom, puts, under)?;
    Ok(TermExpr::NoAtoms(dims, atom))
}

/// `(frame (n ..) e ..)` and the type of a cell.
pub(crate) fn frame(
    alloc: Global,
    dims: &[u32],
    cells: Vec<TermExpr>,
    cell: &Ty,
    puts: Puts<'_>,
    under: Under,
) -> Result<TermExpr, Memory>
    ensures { IfOk result (λ t. term_of t ≡ TFrame dims.now (terms_of cells.items) (put_in_ty (puts_at under.indices under.types puts.entry.indices.now puts.entry.types.now) (ty_of cell.now))) }
{
    let dims = copied_dims(alloc, dims)?;
    let cell = put_type(alloc, cell, puts, under)?;
    Ok(term_values::frame(dims, cells, cell))
}

/// `(frame (n ..) T)`
pub(crate) fn no_cells(
    alloc: Global,
    dims: &[u32],
    cell: &Ty,
    puts: Puts<'_>,
    under: Under,
) -> Result<TermExpr, Memory>
    ensures { IfOk result (λ t. term_of t ≡ TNoCells (record { dims = dims.now; cell = put_in_ty (puts_at under.indices under.types puts.entry.indices.now puts.entry.types.now) (ty_of cell.now) })) }
{
    let dims = copied_dims(alloc, dims)?;
    let cell = put_type(alloc, cell, puts, under)?;
    Ok(TermExpr::NoCells(dims, cell))
}

/// `(e e ..)`, the shapes of its arguments' cells and the type of the result's cell.
pub(crate) fn application(
    alloc: Global,
    function: Part<TermExpr>,
    args: Vec<TermExpr>,
    cells: &[Index],
    answer: &Ty,
    puts: Puts<'_>,
    under: Under,
) -> Result<TermExpr, Memory>
    ensures { IfOk result (λ t. term_of t ≡ TApp (term_of function) (terms_of args.items) (each (put_in_index (puts_at under.indices under.types puts.entry.indices.now puts.entry.types.now)) (each index_of cells.now)) (put_in_ty (puts_at under.indices under.types puts.entry.indices.now puts.entry.types.now) (ty_of answer.now))) }
{
    let cells = put_each_index(alloc, cells, puts.indices, under.indices)?;
    let answer = put_type(alloc, answer, puts, under)?;
    Ok(term_values::application(function, args, cells, answer))
}

/// `(t-app e T ..)` and the type of the result's cell.
pub(crate) fn type_application(
    alloc: Global,
    function: Part<TermExpr>,
    types: &[Ty],
    answer: &Ty,
    puts: Puts<'_>,
    under: Under,
) -> Result<TermExpr, Memory>
    ensures { IfOk result (λ t. term_of t ≡ TTypeApp (term_of function) (each (put_in_ty (puts_at under.indices under.types puts.entry.indices.now puts.entry.types.now)) (each ty_of types.now)) (put_in_ty (puts_at under.indices under.types puts.entry.indices.now puts.entry.types.now) (ty_of answer.now))) }
{
    let types = put_each_type(alloc, types, puts, under)?;
    let answer = put_type(alloc, answer, puts, under)?;
    Ok(term_values::type_application(function, types, answer))
}

/// `(i-app e i ..)` and the type of the result's cell.
pub(crate) fn index_application(
    alloc: Global,
    function: Part<TermExpr>,
    indices: &[Index],
    answer: &Ty,
    puts: Puts<'_>,
    under: Under,
) -> Result<TermExpr, Memory>
    ensures { IfOk result (λ t. term_of t ≡ TIndexApp (term_of function) (each (put_in_index (puts_at under.indices under.types puts.entry.indices.now puts.entry.types.now)) (each index_of indices.now)) (put_in_ty (puts_at under.indices under.types puts.entry.indices.now puts.entry.types.now) (ty_of answer.now))) }
{
    let indices = put_each_index(alloc, indices, puts.indices, under.indices)?;
    let answer = put_type(alloc, answer, puts, under)?;
    Ok(term_values::index_application(function, indices, answer))
}

/// `(unbox (x .. y e) T b)`, the sorts that it binds and the type of the result's cell.
pub(crate) fn unboxing(
    alloc: Global,
    sorts: &[Sort],
    boxed: Part<TermExpr>,
    body: Part<TermExpr>,
    answer: &Ty,
    puts: Puts<'_>,
    under: Under,
) -> Result<TermExpr, Memory>
    ensures { IfOk result (λ t. term_of t ≡ TUnbox sorts.now (term_of boxed) (term_of body) (put_in_ty (puts_at under.indices under.types puts.entry.indices.now puts.entry.types.now) (ty_of answer.now))) }
{
    let sorts = copied_sorts(alloc, sorts)?;
    let answer = put_type(alloc, answer, puts, under)?;
    Ok(term_values::unboxing(sorts, boxed, body, answer))
}

/// The types that a primitive has.
fn given_types(
    alloc: Global,
    types: &Option<Items<Ty>>,
    puts: Puts<'_>,
    under: Under,
) -> Result<Option<Items<Ty>>, Memory>
    ensures { IfOk result (λ p. option_map (each ty_of) p ≡ option_map (each (put_in_ty (puts_at under.indices under.types puts.entry.indices.now puts.entry.types.now))) (option_map (each ty_of) types.now)) }
{
    match types {
        None => Ok(None),
        Some(types) => Ok(Some(put_each_type(alloc, types.as_slice(), puts, under)?)),
    }
}

/// The indices that a primitive has.
fn given_indices(
    alloc: Global,
    indices: &Option<Items<Index>>,
    puts: Puts<'_>,
    under: Under,
) -> Result<Option<Items<Index>>, Memory>
    ensures { IfOk result (λ p. option_map (each index_of) p ≡ option_map (each (put_in_index (puts_at under.indices under.types puts.entry.indices.now puts.entry.types.now))) (option_map (each index_of) indices.now)) }
{
    match indices {
        None => Ok(None),
        Some(indices) => Ok(Some(put_each_index(
            alloc,
            indices.as_slice(),
            puts.indices,
            under.indices,
        )?)),
    }
}

/// A primitive with the types and the indices that it has.
pub(crate) fn primitive(
    alloc: Global,
    primitive: Primitive,
    types: &Option<Items<Ty>>,
    indices: &Option<Items<Index>>,
    puts: Puts<'_>,
    under: Under,
) -> Result<TermAtom, Memory>
    ensures { IfOk result (λ a. cell_of a ≡ TPrim primitive (option_map (each (put_in_ty (puts_at under.indices under.types puts.entry.indices.now puts.entry.types.now))) (option_map (each ty_of) types.now)) (option_map (each (put_in_index (puts_at under.indices under.types puts.entry.indices.now puts.entry.types.now))) (option_map (each index_of) indices.now))) }
{
    let types = given_types(alloc, types, puts, under)?;
    let indices = given_indices(alloc, indices, puts, under)?;
    Ok(TermAtom::Prim(primitive, types, indices))
}

/// `(fn ((x T) ..) T e)`
pub(crate) fn function(
    alloc: Global,
    inputs: &[Ty],
    answer: &Ty,
    body: Part<TermExpr>,
    puts: Puts<'_>,
    under: Under,
) -> Result<TermAtom, Memory>
    ensures { IfOk result (λ a. cell_of a ≡ TFn (record { inputs = each (put_in_ty (puts_at under.indices under.types puts.entry.indices.now puts.entry.types.now)) (each ty_of inputs.now); result = put_in_ty (puts_at under.indices under.types puts.entry.indices.now puts.entry.types.now) (ty_of answer.now) }) (term_of body)) }
{
    let inputs = put_each_type(alloc, inputs, puts, under)?;
    let answer = put_type(alloc, answer, puts, under)?;
    Ok(TermAtom::Fn(inputs, answer, body))
}

/// `(box (i ..) e T)`
pub(crate) fn boxed(
    alloc: Global,
    indices: &[Index],
    content: Part<TermExpr>,
    ty: &Ty,
    puts: Puts<'_>,
    under: Under,
) -> Result<TermAtom, Memory>
    ensures { IfOk result (λ a. cell_of a ≡ TBoxed (each (put_in_index (puts_at under.indices under.types puts.entry.indices.now puts.entry.types.now)) (each index_of indices.now)) (term_of content) (put_in_ty (puts_at under.indices under.types puts.entry.indices.now puts.entry.types.now) (ty_of ty.now))) }
{
    let indices = put_each_index(alloc, indices, puts.indices, under.indices)?;
    let ty = put_type(alloc, ty, puts, under)?;
    Ok(TermAtom::Boxed(indices, content, ty))
}

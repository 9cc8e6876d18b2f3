// Terms made of the terms of an expression's parts, of what is written in it and of the notes at its node.
ghost use Rattle.std.specs.Prelude.{◌≡◌, IfOk};
ghost use Rattle.std.specs.Option.{option_copied};
ghost use Rattle.core_syntax.specs.Annotate.{noted};
ghost use Rattle.core_syntax.specs.Lists.{each};
ghost use Rattle.core_syntax.specs.Norm.{word_tree};
ghost use Rattle.core_syntax.specs.Prims.{int_ty, scalar};
ghost use Rattle.core_syntax.specs.Refine.{index_of, ty_of};
ghost use Rattle.core_syntax.specs.RefineTerms.{term_of, terms_of, cell_of};
ghost use Rattle.core_syntax.specs.Terms.{TNoAtoms, TFrame, TNoCells, TApp, TTypeApp, TIndexApp, TUnbox, TFn, TBoxed};
ghost use Rattle.reduction_laws.specs.Readings.{note_read};

use core_syntax::{
    Base, Index, IndexForm, Memory, NormShape, Note, Part, Sort, TermAtom, TermExpr, Ty, TyForm,
};
use sqlite_items::Items;
use std::alloc::Global;
use term_values::{NOWHERE, copied_sorts};
use type_equal::word_index;

/// The type of an integer.
fn integer(alloc: Global) -> Result<Ty, Memory>
    ensures { IfOk result (λ t. ty_of t ≡ scalar int_ty) }
{
    let base = Ty {
        at: NOWHERE,
        form: TyForm::Base(Base::Int),
    };
    let shape = Index {
        at: NOWHERE,
        form: IndexForm::Dims(Items::new(alloc)),
    };
    Ty::array(alloc, NOWHERE, base, shape)
}

/// The result cell's type that a note says.
fn cell_type(alloc: Global, note: Option<&Note>) -> Result<Ty, Memory>
    ensures { IfOk result (λ t. ty_of t ≡ noted (note_read (option_copied note.entry)).cell) }
{
    match note {
        None => integer(alloc),
        Some(note) => match &note.cell {
            None => integer(alloc),
            Some(ty) => ty.copy(alloc),
        },
    }
}

/// The trees of words.
fn word_indices(alloc: Global, words: &[NormShape]) -> Result<Items<Index>, Memory>
    ensures { IfOk result (λ is. each index_of is ≡ each word_tree words.now) }
{
    let mut indices = Vec::new(alloc);
    for word in words {
        let index = word_index(alloc, word)?;
        indices.push(index)?;
    }
    Ok(Items::from_vec(indices))
}

/// The shapes of the arguments' cells that a note says.
fn cell_shapes(alloc: Global, note: Option<&Note>) -> Result<Items<Index>, Memory>
    ensures { IfOk result (λ is. each index_of is ≡ each word_tree (note_read (option_copied note.entry)).cells) }
{
    match note {
        None => Ok(Items::new(alloc)),
        Some(note) => word_indices(alloc, note.cells.as_slice()),
    }
}

/// The sorts of the indices that an `unbox` names, as its note says.
fn unboxed_sorts(alloc: Global, note: Option<&Note>) -> Result<Items<Sort>, Memory>
    ensures { IfOk result (λ ss. ss ≡ (note_read (option_copied note.entry)).sorts) }
{
    match note {
        None => Ok(Items::new(alloc)),
        Some(note) => copied_sorts(alloc, note.sorts.as_slice()),
    }
}

/// `(array (n ..) T)`
pub(crate) fn no_atoms(alloc: Global, dims: &[u32], atom: &Ty) -> Result<TermExpr, Memory>
    ensures { IfOk result (λ t. term_of t ≡ TNoAtoms dims.now (ty_of atom.now)) }
{
    let dims = Items::from_slice(alloc, dims)?;
    let atom = atom.copy(alloc)?;
    Ok(TermExpr::NoAtoms(dims, atom))
}

/// `(frame (n ..) T)`
pub(crate) fn no_cells(alloc: Global, dims: &[u32], cell: &Ty) -> Result<TermExpr, Memory>
    ensures { IfOk result (λ t. term_of t ≡ TNoCells (record { dims = dims.now; cell = ty_of cell.now })) }
{
    let dims = Items::from_slice(alloc, dims)?;
    let cell = cell.copy(alloc)?;
    Ok(TermExpr::NoCells(dims, cell))
}

/// `(frame (n ..) e ..)`
pub(crate) fn frame(
    alloc: Global,
    dims: &[u32],
    cells: Vec<TermExpr>,
    note: Option<&Note>,
) -> Result<TermExpr, Memory>
    ensures { IfOk result (λ t. term_of t ≡ TFrame dims.now (terms_of cells.items) (noted (note_read (option_copied note.entry)).cell)) }
{
    let dims = Items::from_slice(alloc, dims)?;
    let cell = cell_type(alloc, note)?;
    Ok(term_values::frame(dims, cells, cell))
}

/// `(e e ..)`
pub(crate) fn application(
    alloc: Global,
    function: Part<TermExpr>,
    args: Vec<TermExpr>,
    note: Option<&Note>,
) -> Result<TermExpr, Memory>
    ensures { IfOk result (λ t. term_of t ≡ TApp (term_of function) (terms_of args.items) (each word_tree (note_read (option_copied note.entry)).cells) (noted (note_read (option_copied note.entry)).cell)) }
{
    let cells = cell_shapes(alloc, note)?;
    let answer = cell_type(alloc, note)?;
    Ok(term_values::application(function, args, cells, answer))
}

/// `(t-app e T ..)`
pub(crate) fn type_application(
    alloc: Global,
    function: Part<TermExpr>,
    types: &[Ty],
    note: Option<&Note>,
) -> Result<TermExpr, Memory>
    ensures { IfOk result (λ t. term_of t ≡ TTypeApp (term_of function) (each ty_of types.now) (noted (note_read (option_copied note.entry)).cell)) }
{
    let types = term_values::copied_types(alloc, types)?;
    let answer = cell_type(alloc, note)?;
    Ok(term_values::type_application(function, types, answer))
}

/// `(i-app e i ..)`
pub(crate) fn index_application(
    alloc: Global,
    function: Part<TermExpr>,
    indices: &[Index],
    note: Option<&Note>,
) -> Result<TermExpr, Memory>
    ensures { IfOk result (λ t. term_of t ≡ TIndexApp (term_of function) (each index_of indices.now) (noted (note_read (option_copied note.entry)).cell)) }
{
    let indices = term_values::copied_indices(alloc, indices)?;
    let answer = cell_type(alloc, note)?;
    Ok(term_values::index_application(function, indices, answer))
}

/// `(unbox (x .. y e) T b)`
pub(crate) fn unboxing(
    alloc: Global,
    boxed: Part<TermExpr>,
    body: Part<TermExpr>,
    note: Option<&Note>,
) -> Result<TermExpr, Memory>
    ensures { IfOk result (λ t. term_of t ≡ TUnbox (note_read (option_copied note.entry)).sorts (term_of boxed) (term_of body) (noted (note_read (option_copied note.entry)).cell)) }
{
    let sorts = unboxed_sorts(alloc, note)?;
    let answer = cell_type(alloc, note)?;
    Ok(term_values::unboxing(sorts, boxed, body, answer))
}

/// `(fn ((x T) ..) T e)`
pub(crate) fn function(
    alloc: Global,
    inputs: &[Ty],
    answer: &Ty,
    body: Part<TermExpr>,
) -> Result<TermAtom, Memory>
    ensures { IfOk result (λ a. cell_of a ≡ TFn (record { inputs = each ty_of inputs.now; result = ty_of answer.now }) (term_of body)) }
{
    let inputs = term_values::copied_types(alloc, inputs)?;
    let answer = answer.copy(alloc)?;
    Ok(TermAtom::Fn(inputs, answer, body))
}

/// `(box (i ..) e T)`
pub(crate) fn boxed(
    alloc: Global,
    indices: &[Index],
    content: Part<TermExpr>,
    ty: &Ty,
) -> Result<TermAtom, Memory>
    ensures { IfOk result (λ a. cell_of a ≡ TBoxed (each index_of indices.now) (term_of content) (ty_of ty.now)) }
{
    let indices = term_values::copied_indices(alloc, indices)?;
    let ty = ty.copy(alloc)?;
    Ok(TermAtom::Boxed(indices, content, ty))
}

// Terms made of parts.
ghost use Rattle.std.specs.Prelude.{◌≡◌, ◌++◌, IfOk, OnOk};
ghost use Rattle.core_syntax.specs.Lists.{each};
ghost use Rattle.core_syntax.specs.Refine.{index_of, ty_of};
ghost use Rattle.core_syntax.specs.RefineTerms.{term_of, terms_of, cell_of, cells_of};
ghost use Rattle.core_syntax.specs.Rules.{array_term_of};
ghost use Rattle.core_syntax.specs.Terms.{TArray, TNoAtoms, TFrame, TApp, TTypeApp, TIndexApp, TUnbox, TTypeFn, TIndexFn, scalar_of};
ghost use Rattle.core_syntax.specs.Typed.{atom_type as atoms_type, typed_rules};

use core_syntax::{Index, Memory, Part, Parts, Sort, TermAtom, TermExpr, Ty, TyForm};
use sqlite_items::Items;
use std::alloc::Global;

/// `(array (n ..) a ..)`
pub fn array(dims: Items<u32>, atoms: Vec<TermAtom>) -> TermExpr
    ensures { term_of result ≡ TArray dims (cells_of atoms.items) }
{
    TermExpr::Array(dims, Parts::from_vec(atoms))
}

/// `(frame (n ..) e ..)` and the type of a cell.
pub fn frame(dims: Items<u32>, cells: Vec<TermExpr>, cell: Ty) -> TermExpr
    ensures { term_of result ≡ TFrame dims (terms_of cells.items) (ty_of cell) }
{
    TermExpr::Frame(dims, Parts::from_vec(cells), cell)
}

/// `(e e ..)`, the shapes of its arguments' cells and the type of the result's cell.
pub fn application(
    function: Part<TermExpr>,
    args: Vec<TermExpr>,
    cells: Items<Index>,
    answer: Ty,
) -> TermExpr
    ensures { term_of result ≡ TApp (term_of function) (terms_of args.items) (each index_of cells) (ty_of answer) }
{
    TermExpr::App(function, Parts::from_vec(args), cells, answer)
}

/// `(t-app e T ..)` and the type of the result's cell.
pub fn type_application(function: Part<TermExpr>, types: Items<Ty>, answer: Ty) -> TermExpr
    ensures { term_of result ≡ TTypeApp (term_of function) (each ty_of types) (ty_of answer) }
{
    TermExpr::TypeApp(function, types, answer)
}

/// `(i-app e i ..)` and the type of the result's cell.
pub fn index_application(function: Part<TermExpr>, indices: Items<Index>, answer: Ty) -> TermExpr
    ensures { term_of result ≡ TIndexApp (term_of function) (each index_of indices) (ty_of answer) }
{
    TermExpr::IndexApp(function, indices, answer)
}

/// `(unbox (x .. y e) T b)`, the sorts that it binds and the type of the result's cell.
pub fn unboxing(
    sorts: Items<Sort>,
    boxed: Part<TermExpr>,
    body: Part<TermExpr>,
    answer: Ty,
) -> TermExpr
    ensures { term_of result ≡ TUnbox sorts (term_of boxed) (term_of body) (ty_of answer) }
{
    TermExpr::Unbox(sorts, boxed, body, answer)
}

/// `(array (n ..) a ..)` with a copy of these dims.
pub fn array_over(alloc: Global, dims: &[u32], atoms: Vec<TermAtom>) -> Result<TermExpr, Memory>
    ensures { IfOk result (λ t. term_of t ≡ TArray dims.now (cells_of atoms.items)) }
{
    let dims = copied_dims(alloc, dims)?;
    Ok(array(dims, atoms))
}

/// `(tfn (x ..) e)`
pub fn type_function(count: u32, body: Part<TermExpr>) -> TermAtom
    ensures { cell_of result ≡ TTypeFn count (term_of body) }
{
    TermAtom::TypeFn(count, body)
}

/// `(ifn ((x S) ..) e)`
pub fn index_function(
    alloc: Global,
    sorts: &[Sort],
    body: Part<TermExpr>,
) -> Result<TermAtom, Memory>
    ensures { IfOk result (λ a. cell_of a ≡ TIndexFn sorts.now (term_of body)) }
{
    let sorts = copied_sorts(alloc, sorts)?;
    Ok(TermAtom::IndexFn(sorts, body))
}

/// A copy of the numbers of an array or a frame.
pub fn copied_dims(alloc: Global, dims: &[u32]) -> Result<Items<u32>, Memory>
    ensures { IfOk result (λ c. c ≡ dims.now) }
{
    Items::from_slice(alloc, dims).map_err(|_| Memory)
}

/// A copy of sorts.
pub fn copied_sorts(alloc: Global, sorts: &[Sort]) -> Result<Items<Sort>, Memory>
    ensures { IfOk result (λ c. c ≡ sorts.now) }
{
    Items::from_slice(alloc, sorts).map_err(|_| Memory)
}

/// The type of the atoms of an array type; any other type is its own.
pub fn atom_type(alloc: Global, ty: &Ty) -> Result<Ty, Memory>
    ensures { IfOk result (λ t. ty_of t ≡ atoms_type (ty_of ty.now)) }
{
    match &ty.form {
        TyForm::Arr(element, _) => element.get().copy(alloc),
        _ => ty.copy(alloc),
    }
}

/// Dims followed by others.
pub fn joined(alloc: Global, front: &[u32], back: &[u32]) -> Result<Items<u32>, Memory>
    ensures { IfOk result (λ dims. dims ≡ front.now ++ back.now) }
{
    let mut dims = Vec::from_slice(alloc, front).map_err(|_| Memory)?;
    for dim in back {
        dims.push(*dim).map_err(|_| Memory)?;
    }
    Ok(Items::from_vec(dims))
}

/// Copies of types.
pub fn copied_types(alloc: Global, types: &[Ty]) -> Result<Items<Ty>, Memory>
    ensures { IfOk result (λ copies. copies ≡ types.now) }
{
    let mut copies = Vec::new(alloc);
    for ty in types {
        let copy = ty.copy(alloc)?;
        copies.push(copy).map_err(|_| Memory)?;
    }
    Ok(Items::from_vec(copies))
}

/// Copies of indices.
pub fn copied_indices(alloc: Global, indices: &[Index]) -> Result<Items<Index>, Memory>
    ensures { IfOk result (λ copies. copies ≡ indices.now) }
{
    let mut copies = Vec::new(alloc);
    for index in indices {
        let copy = index.copy(alloc)?;
        copies.push(copy).map_err(|_| Memory)?;
    }
    Ok(Items::from_vec(copies))
}

/// Pushes copies of atoms.
pub fn push_copies(
    copies: &mut Vec<TermAtom>,
    alloc: Global,
    atoms: &[TermAtom],
    room: u32,
) -> Result<(), Memory>
    ensures { OnOk result (copies.new.items ≡ copies.old.items ++ atoms.now) }
{
    for atom in atoms {
        let copy = atom.copy(alloc, room)?;
        copies.push(copy).map_err(|_| Memory)?;
    }
    Ok(())
}

/// The scalar array of an atom.
pub fn scalar(alloc: Global, atom: TermAtom) -> Result<TermExpr, Memory>
    ensures { IfOk result (λ t. term_of t ≡ scalar_of (cell_of atom)) }
{
    let mut atoms = Vec::new(alloc);
    match atoms.push(atom) {
        Ok(()) => Ok(array(Items::new(alloc), atoms)),
        Err(_) => Err(Memory),
    }
}

/// The scalar array of a copy of an atom, as a part of a term with this room.
pub fn copied_scalar(alloc: Global, atom: &TermAtom, room: u32) -> Result<Part<TermExpr>, Memory>
    ensures { IfOk result (λ t. term_of t ≡ scalar_of (cell_of atom.now)) }
{
    let room = room.checked_sub(1).ok_or(Memory)?;
    let atom = atom.copy(alloc, room)?;
    match scalar(alloc, atom) {
        Ok(term) => Part::new(alloc, term),
        Err(memory) => Err(memory),
    }
}

/// A copy of a term as a part of a term with this room.
pub fn copied_part(alloc: Global, term: &TermExpr, room: u32) -> Result<Part<TermExpr>, Memory>
    ensures { IfOk result (λ t. t ≡ term.now) }
{
    let room = room.checked_sub(1).ok_or(Memory)?;
    let term = term.copy(alloc, room)?;
    Part::new(alloc, term)
}

/// The array of these dims and atoms, which has the type of a cell's atoms where it is empty.
pub fn with_atoms(
    alloc: Global,
    dims: Items<u32>,
    atoms: Vec<TermAtom>,
    cell: &Ty,
) -> Result<TermExpr, Memory>
    ensures { IfOk result (λ t. term_of t ≡ array_term_of typed_rules (atoms_type (ty_of cell.now)) dims (each cell_of atoms.items)) }
{
    if atoms.is_empty() {
        return no_atoms(alloc, dims, cell);
    }
    Ok(array(dims, atoms))
}

/// The empty array of these dims, with the type of a cell's atoms.
pub fn no_atoms(alloc: Global, dims: Items<u32>, cell: &Ty) -> Result<TermExpr, Memory>
    ensures { IfOk result (λ t. term_of t ≡ TNoAtoms dims (atoms_type (ty_of cell.now))) }
{
    let ty = atom_type(alloc, cell)?;
    Ok(TermExpr::NoAtoms(dims, ty))
}

/// Copies of the dims and of the cell's type of a frame.
pub fn frame_parts(alloc: Global, frame: &[u32], cell: &Ty) -> Result<(Items<u32>, Ty), Memory>
    ensures { IfOk result (λ parts. (parts.0 ≡ frame.now) × (parts.1 ≡ cell.now)) }
{
    let dims = Items::from_slice(alloc, frame).map_err(|_| Memory)?;
    let cell = cell.copy(alloc)?;
    Ok((dims, cell))
}

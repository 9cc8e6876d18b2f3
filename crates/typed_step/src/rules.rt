// The rules of terms whose parts are values (docs/LANGUAGE.md, "Reduction").
ghost use Rattle.std.specs.Prelude.{◌≡◌, List, [], ◌∷◌, ◌++◌, IfOk, Some, length, option_map};
ghost use Rattle.core_syntax.specs.Lists.{each, joined as joined_lists};
ghost use Rattle.core_syntax.specs.Move.{Goes};
ghost use Rattle.core_syntax.specs.Refine.{index_of, ty_of};
ghost use Rattle.core_syntax.specs.RefineTerms.{term_of, terms_of, cell_of};
ghost use Rattle.core_syntax.specs.Rules.{dims_of, atoms_of, apply as applied, apply_at as applied_at, apply_atom as atom_applied, over_value, type_beta, index_beta, index_beta_at, unbox_one, goes_empty};
ghost use Rattle.core_syntax.specs.Terms.{IndexValue, TFrame, TTypeApp, TIndexApp, TUnbox, TPrim, scalar_of};
ghost use Rattle.core_syntax.specs.Typed.{atom_type as atoms_type, typed_rules, shape_of, closed, value_index};
ghost use Rattle.core_syntax.specs.Value.{shape_val};
ghost use Rattle.typed_step.specs.Frames.{fronts, backs};
ghost use Rattle.term_values.specs.Indices.{AreValues};
ghost use Rattle.typed_prims.specs.Outcomes.{move_of};
ghost use Rattle.typed_step.specs.Outcomes.{fires};

use crate::lifting;
use core_syntax::{Index, Memory, Primitive, Sort, TermAtom, TermExpr, TrapKind, Ty};
use sqlite_items::Items;
use std::alloc::Global;
use term_values::{
    MOST_CELLS, atom_type, copied_indices, copied_part, copied_scalar, copied_types, frame_parts,
    joined, push_copies, scalar, with_atoms,
};
use typed_prims::{Outcome, delta};

/// An application: its function, its arguments, the shape of each argument's cell, and the type of the result's cell.
#[derive(Clone, Copy)]
pub(crate) struct Application<'a> {
    pub(crate) function: &'a TermExpr,
    pub(crate) args: &'a [TermExpr],
    pub(crate) cells: &'a [Index],
    pub(crate) answer: &'a Ty,
}

/// `empty`: the empty array over a frame of the type of a cell; a trap where an array can't have these dims.
pub(crate) fn empty(alloc: Global, frame: &[u32], cell: &Ty) -> Result<Outcome, Memory>
    ensures { IfOk result (λ o. move_of o ≡ goes_empty typed_rules (frame.now ++ shape_val closed (shape_of (ty_of cell.now))) (atoms_type (ty_of cell.now))) }
{
    let cell_dims = match term_values::type_dims(alloc, cell)? {
        None => return Ok(Outcome::Trap(TrapKind::Size)),
        Some(dims) => dims,
    };
    let dims = joined(alloc, frame, cell_dims.as_slice())?;
    if !term_values::forms(dims.as_slice()) {
        return Ok(Outcome::Trap(TrapKind::Size));
    }
    let ty = atom_type(alloc, cell)?;
    Ok(Outcome::Goes(TermExpr::NoAtoms(dims, ty)))
}

/// The rules of an application: `size`, `empty`, `lift`, `map`, `beta` and `delta`.
pub(crate) fn apply(
    alloc: Global,
    application: Application<'_>,
    room: u32,
) -> Result<Outcome, Memory>
    ensures { IfOk result (λ o. move_of o ≡ applied typed_rules (term_of application.entry.function.now) (each term_of application.entry.args.now) (each index_of application.entry.cells.now) (ty_of application.entry.answer.now)) }
{
    let ranks = match lifting::ranks(alloc, application.cells, application.args)? {
        None => return Ok(Outcome::Lost),
        Some(ranks) => ranks,
    };
    match lifting::greatest(application.function, application.args, &ranks) {
        None => Ok(Outcome::Lost),
        Some(frame) => apply_at(alloc, frame, &ranks, application, room),
    }
}

/// The same rules where this is the principal frame and the arguments' frames have these ranks.
fn apply_at(
    alloc: Global,
    frame: &[u32],
    ranks: &[usize],
    application: Application<'_>,
    room: u32,
) -> Result<Outcome, Memory>
    requires rank { length ranks.now ≡ length application.args.now }
    requires cells { backs ranks.now (each (λ a. dims_of typed_rules (term_of a)) application.args.now) ≡ each (λ c. shape_val closed (index_of c)) application.cells.now }
    ensures { IfOk result (λ o. move_of o ≡ applied_at typed_rules frame.now (fronts ranks.now (each (λ a. dims_of typed_rules (term_of a)) application.entry.args.now)) (term_of application.entry.function.now) (each term_of application.entry.args.now) (each index_of application.entry.cells.now) (ty_of application.entry.answer.now)) }
{
    let count = term_values::count(frame);
    if count > MOST_CELLS {
        return Ok(Outcome::Trap(TrapKind::Size));
    }
    if count == 0 {
        return empty(alloc, frame, application.answer);
    }
    if frame.is_empty() {
        let atoms = term_values::atoms(application.function);
        return apply_atoms(alloc, atoms, application.args, application.answer, room);
    }
    if lifting::all_are(frame, application.function, application.args, ranks) {
        let cells = lifting::map(alloc, frame, ranks, application, room)?;
        return Ok(Outcome::Goes(cells));
    }
    let lifted = lifting::lift(alloc, frame, ranks, application, room)?;
    Ok(Outcome::Goes(lifted))
}

/// `beta` and `delta`: the atoms of a function array without a frame on its cells.
fn apply_atoms(
    alloc: Global,
    atoms: &[TermAtom],
    args: &[TermExpr],
    answer: &Ty,
    room: u32,
) -> Result<Outcome, Memory>
    ensures { IfOk result (λ o. move_of o ≡ atom_applied typed_rules (each cell_of atoms.now) (each term_of args.now) (ty_of answer.now)) }
{
    match atoms {
        [atom] => apply_atom(alloc, atom, args, answer, room),
        _ => Ok(Outcome::Lost),
    }
}

/// `beta` and `delta`: an atom on its cells.
fn apply_atom(
    alloc: Global,
    atom: &TermAtom,
    args: &[TermExpr],
    answer: &Ty,
    room: u32,
) -> Result<Outcome, Memory>
    ensures { IfOk result (λ o. move_of o ≡ atom_applied typed_rules (cell_of atom.now ∷ []) (each term_of args.now) (ty_of answer.now)) }
{
    match atom {
        TermAtom::Fn(inputs, _, body) => {
            if inputs.len() != args.len() {
                return Ok(Outcome::Lost);
            }
            let body = substitution::with_arguments(alloc, body.get(), args, room)?;
            Ok(Outcome::Goes(body))
        }
        TermAtom::Prim(primitive, types, indices) => {
            delta(alloc, *primitive, types, indices, args, answer, room)
        }
        _ => Ok(Outcome::Lost),
    }
}

/// The rules of a `t-app`: `empty`, `map` and `t-beta`.
pub(crate) fn apply_types(
    alloc: Global,
    function: &TermExpr,
    types: &[Ty],
    answer: &Ty,
    room: u32,
) -> Result<Outcome, Memory>
    ensures { IfOk result (λ o. move_of o ≡ over_value typed_rules (term_of function.now) (λ a. TTypeApp a (each ty_of types.now) (ty_of answer.now)) (type_beta typed_rules (each ty_of types.now)) (ty_of answer.now)) }
{
    let frame = term_values::dims(function);
    if term_values::count(frame) == 0 {
        return empty(alloc, frame, answer);
    }
    let atoms = term_values::atoms(function);
    if frame.is_empty() {
        return bind_types(alloc, atoms, types, room);
    }
    let cells = over_types(alloc, atoms, types, answer, room)?;
    framed(alloc, frame, cells, answer)
}

/// `t-beta`.
fn bind_types(alloc: Global, atoms: &[TermAtom], types: &[Ty], room: u32) -> Result<Outcome, Memory>
    ensures { IfOk result (λ o. move_of o ≡ type_beta typed_rules (each ty_of types.now) (each cell_of atoms.now)) }
{
    match atoms {
        [atom] => bind_types_of(alloc, atom, types, room),
        _ => Ok(Outcome::Lost),
    }
}

/// `t-beta` of an atom.
fn bind_types_of(alloc: Global, atom: &TermAtom, types: &[Ty], room: u32) -> Result<Outcome, Memory>
    ensures { IfOk result (λ o. move_of o ≡ type_beta typed_rules (each ty_of types.now) (cell_of atom.now ∷ [])) }
{
    match atom {
        TermAtom::TypeFn(_, body) => {
            let body = substitution::with_types(alloc, body.get(), types, room)?;
            Ok(Outcome::Goes(body))
        }
        TermAtom::Prim(primitive, None, None) => {
            let types = copied_types(alloc, types)?;
            let value = scalar(alloc, TermAtom::Prim(*primitive, Some(types), None))?;
            Ok(Outcome::Goes(value))
        }
        _ => Ok(Outcome::Lost),
    }
}

/// `map`: the `t-app` of each atom as a scalar array.
fn over_types(
    alloc: Global,
    atoms: &[TermAtom],
    types: &[Ty],
    answer: &Ty,
    room: u32,
) -> Result<Vec<TermExpr>, Memory>
    ensures { IfOk result (λ cells. each term_of cells.items ≡ each (λ a. TTypeApp (scalar_of a) (each ty_of types.now) (ty_of answer.now)) (each cell_of atoms.now)) }
{
    let mut cells = Vec::new(alloc);
    for atom in atoms {
        let cell = type_application(alloc, atom, types, answer, room)?;
        cells.push(cell)?;
    }
    Ok(cells)
}

/// The `t-app` of an atom as a scalar array.
fn type_application(
    alloc: Global,
    atom: &TermAtom,
    types: &[Ty],
    answer: &Ty,
    room: u32,
) -> Result<TermExpr, Memory>
    ensures { IfOk result (λ t. term_of t ≡ TTypeApp (scalar_of (cell_of atom.now)) (each ty_of types.now) (ty_of answer.now)) }
{
    let types = copied_types(alloc, types)?;
    let answer = answer.copy(alloc)?;
    let function = copied_scalar(alloc, atom, room)?;
    Ok(term_values::type_application(function, types, answer))
}

/// The rules of an `i-app`: `empty`, `map` and `i-beta`.
pub(crate) fn apply_indices(
    alloc: Global,
    function: &TermExpr,
    indices: &[Index],
    answer: &Ty,
    room: u32,
) -> Result<Outcome, Memory>
    ensures { IfOk result (λ o. move_of o ≡ over_value typed_rules (term_of function.now) (λ a. TIndexApp a (each index_of indices.now) (ty_of answer.now)) (index_beta typed_rules (each index_of indices.now)) (ty_of answer.now)) }
{
    let frame = term_values::dims(function);
    if term_values::count(frame) == 0 {
        return empty(alloc, frame, answer);
    }
    let atoms = term_values::atoms(function);
    if frame.is_empty() {
        return bind_indices(alloc, atoms, indices, room);
    }
    let cells = over_indices(alloc, atoms, indices, answer, room)?;
    framed(alloc, frame, cells, answer)
}

/// `i-beta`: the values of the indices, a trap where one doesn't fit, and then the body with them in place.
fn bind_indices(
    alloc: Global,
    atoms: &[TermAtom],
    indices: &[Index],
    room: u32,
) -> Result<Outcome, Memory>
    ensures { IfOk result (λ o. move_of o ≡ index_beta typed_rules (each index_of indices.now) (each cell_of atoms.now)) }
{
    match term_values::kept(alloc, indices)? {
        None => Ok(Outcome::Trap(TrapKind::Size)),
        Some(values) => bind_values(alloc, atoms, values, room),
    }
}

/// `i-beta` with the values of the indices.
fn bind_values(
    alloc: Global,
    atoms: &[TermAtom],
    values: Items<Index>,
    room: u32,
) -> Result<Outcome, Memory>
    requires { AreValues (each index_of values) }
    ensures { (vs : List IndexValue) → each index_of values ≡ each value_index vs → IfOk result (λ o. move_of o ≡ index_beta_at typed_rules vs (each cell_of atoms.now)) }
{
    match atoms {
        [atom] => bind_values_of(alloc, atom, values, room),
        _ => Ok(Outcome::Lost),
    }
}

/// `i-beta` of an atom with the values of the indices.
fn bind_values_of(
    alloc: Global,
    atom: &TermAtom,
    values: Items<Index>,
    room: u32,
) -> Result<Outcome, Memory>
    requires { AreValues (each index_of values) }
    ensures { (vs : List IndexValue) → each index_of values ≡ each value_index vs → IfOk result (λ o. move_of o ≡ index_beta_at typed_rules vs (cell_of atom.now ∷ [])) }
{
    match atom {
        TermAtom::IndexFn(_, body) => {
            let body = substitution::with_indices(alloc, body.get(), values.as_slice(), room)?;
            Ok(Outcome::Goes(body))
        }
        TermAtom::Prim(primitive, types, None) => {
            let value = indexed(alloc, *primitive, types, values)?;
            Ok(Outcome::Goes(value))
        }
        _ => Ok(Outcome::Lost),
    }
}

/// The scalar array of a primitive with its types and with values of its indices.
fn indexed(
    alloc: Global,
    primitive: Primitive,
    types: &Option<Items<Ty>>,
    values: Items<Index>,
) -> Result<TermExpr, Memory>
    ensures { IfOk result (λ t. term_of t ≡ scalar_of (TPrim primitive (option_map (each ty_of) types.now) (Some (each index_of values)))) }
{
    match types {
        None => scalar(alloc, TermAtom::Prim(primitive, None, Some(values))),
        Some(types) => match copied_types(alloc, types.as_slice()) {
            Ok(types) => scalar(alloc, TermAtom::Prim(primitive, Some(types), Some(values))),
            Err(memory) => Err(memory),
        },
    }
}

/// `map`: the `i-app` of each atom as a scalar array.
fn over_indices(
    alloc: Global,
    atoms: &[TermAtom],
    indices: &[Index],
    answer: &Ty,
    room: u32,
) -> Result<Vec<TermExpr>, Memory>
    ensures { IfOk result (λ cells. each term_of cells.items ≡ each (λ a. TIndexApp (scalar_of a) (each index_of indices.now) (ty_of answer.now)) (each cell_of atoms.now)) }
{
    let mut cells = Vec::new(alloc);
    for atom in atoms {
        let cell = index_application(alloc, atom, indices, answer, room)?;
        cells.push(cell)?;
    }
    Ok(cells)
}

/// The `i-app` of an atom as a scalar array.
fn index_application(
    alloc: Global,
    atom: &TermAtom,
    indices: &[Index],
    answer: &Ty,
    room: u32,
) -> Result<TermExpr, Memory>
    ensures { IfOk result (λ t. term_of t ≡ TIndexApp (scalar_of (cell_of atom.now)) (each index_of indices.now) (ty_of answer.now)) }
{
    let indices = copied_indices(alloc, indices)?;
    let answer = answer.copy(alloc)?;
    let function = copied_scalar(alloc, atom, room)?;
    Ok(term_values::index_application(function, indices, answer))
}

/// The rules of an `unbox`: `empty`, `map` and `unbox`.
pub(crate) fn unbox(
    alloc: Global,
    sorts: &[Sort],
    boxed: &TermExpr,
    body: &TermExpr,
    answer: &Ty,
    room: u32,
) -> Result<Outcome, Memory>
    ensures { IfOk result (λ o. move_of o ≡ over_value typed_rules (term_of boxed.now) (λ a. TUnbox sorts.now a (term_of body.now) (ty_of answer.now)) (unbox_one typed_rules (term_of body.now)) (ty_of answer.now)) }
{
    let frame = term_values::dims(boxed);
    if term_values::count(frame) == 0 {
        return empty(alloc, frame, answer);
    }
    let atoms = term_values::atoms(boxed);
    if frame.is_empty() {
        return open(alloc, atoms, body, room);
    }
    let cells = over_boxes(alloc, sorts, atoms, body, answer, room)?;
    framed(alloc, frame, cells, answer)
}

/// `unbox`.
fn open(alloc: Global, atoms: &[TermAtom], body: &TermExpr, room: u32) -> Result<Outcome, Memory>
    ensures { IfOk result (λ o. move_of o ≡ unbox_one typed_rules (term_of body.now) (each cell_of atoms.now)) }
{
    match atoms {
        [atom] => open_one(alloc, atom, body, room),
        _ => Ok(Outcome::Lost),
    }
}

/// `unbox` of an atom. A box whose indices don't fit is no value, so its `unbox` is never reached, and finds no memory here.
fn open_one(alloc: Global, atom: &TermAtom, body: &TermExpr, room: u32) -> Result<Outcome, Memory>
    ensures { IfOk result (λ o. move_of o ≡ unbox_one typed_rules (term_of body.now) (cell_of atom.now ∷ [])) }
{
    match atom {
        TermAtom::Boxed(indices, content, _) => {
            let values = term_values::kept(alloc, indices.as_slice())?.ok_or(Memory)?;
            let body = substitution::with_box(alloc, body, values.as_slice(), content.get(), room)?;
            Ok(Outcome::Goes(body))
        }
        _ => Ok(Outcome::Lost),
    }
}

/// `map`: the `unbox` of each atom as a scalar array.
fn over_boxes(
    alloc: Global,
    sorts: &[Sort],
    atoms: &[TermAtom],
    body: &TermExpr,
    answer: &Ty,
    room: u32,
) -> Result<Vec<TermExpr>, Memory>
    ensures { IfOk result (λ cells. each term_of cells.items ≡ each (λ a. TUnbox sorts.now (scalar_of a) (term_of body.now) (ty_of answer.now)) (each cell_of atoms.now)) }
{
    let mut cells = Vec::new(alloc);
    for atom in atoms {
        let cell = unboxing(alloc, sorts, atom, body, answer, room)?;
        cells.push(cell)?;
    }
    Ok(cells)
}

/// The `unbox` of an atom as a scalar array.
fn unboxing(
    alloc: Global,
    sorts: &[Sort],
    atom: &TermAtom,
    body: &TermExpr,
    answer: &Ty,
    room: u32,
) -> Result<TermExpr, Memory>
    ensures { IfOk result (λ t. term_of t ≡ TUnbox sorts.now (scalar_of (cell_of atom.now)) (term_of body.now) (ty_of answer.now)) }
{
    let sorts = Items::from_slice(alloc, sorts)?;
    let answer = answer.copy(alloc)?;
    let boxed = copied_scalar(alloc, atom, room)?;
    match copied_part(alloc, body, room) {
        Ok(body) => Ok(term_values::unboxing(sorts, boxed, body, answer)),
        Err(memory) => Err(memory),
    }
}

/// A frame of cells as the next term.
fn framed(alloc: Global, frame: &[u32], cells: Vec<TermExpr>, cell: &Ty) -> Result<Outcome, Memory>
    ensures { IfOk result (λ o. move_of o ≡ Goes (TFrame frame.now (terms_of cells.items) (ty_of cell.now))) }
{
    match frame_parts(alloc, frame, cell) {
        Ok((dims, cell)) => Ok(Outcome::Goes(term_values::frame(dims, cells, cell))),
        Err(memory) => Err(memory),
    }
}

/// `collapse`: a frame of values, of which there is at least one, as an array.
pub(crate) fn collapse(
    alloc: Global,
    frame: &[u32],
    cells: &[TermExpr],
    cell: &Ty,
    room: u32,
) -> Result<Outcome, Memory>
    ensures { IfOk result (λ o. move_of o ≡ fires [] (TFrame frame.now (terms_of cells.now) (ty_of cell.now))) }
{
    match cells {
        [] => Ok(Outcome::Lost),
        [first, ..] => {
            let dims = joined(alloc, frame, term_values::dims(first))?;
            let atoms = joined_atoms(alloc, cells, room)?;
            let array = with_atoms(alloc, dims, atoms, cell)?;
            Ok(Outcome::Goes(array))
        }
    }
}

/// The atoms of values, in order.
fn joined_atoms(alloc: Global, cells: &[TermExpr], room: u32) -> Result<Vec<TermAtom>, Memory>
    ensures { IfOk result (λ atoms. each cell_of atoms.items ≡ joined_lists (each (λ t. atoms_of typed_rules (term_of t)) cells.now)) }
{
    let mut atoms = Vec::new(alloc);
    for cell in cells {
        push_copies(&mut atoms, alloc, term_values::atoms(cell), room)?;
    }
    Ok(atoms)
}

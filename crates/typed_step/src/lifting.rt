// The frames of an application, replication and cells.
ghost use Rattle.std.specs.Prelude.{◌≡◌, ◌≤◌, ◌*◌, ◌^◌, ◌∷◌, [], ◌++◌, IfOk, OnOk, IfSome, length, option_map, replicate, take, drop};
ghost use Rattle.std.specs.Option.{option_copied};
ghost use Rattle.core_syntax.specs.Arrays.{all_frames_are, frame_before, greatest as greatest_of, columns, repeated, replicated as replicated_over, runs as runs_of};
ghost use Rattle.core_syntax.specs.Lists.{each, product, joined as joined_lists};
ghost use Rattle.core_syntax.specs.Refine.{index_of, ty_of};
ghost use Rattle.core_syntax.specs.RefineTerms.{term_of, cell_of};
ghost use Rattle.core_syntax.specs.Rules.{dims_of, atoms_of, frames_of, lifted as replicated_to, all_lifted as all_replicated, all_cells, apps};
ghost use Rattle.core_syntax.specs.Terms.{TFrame, TApp, term_list, scalar_of};
ghost use Rattle.core_syntax.specs.Typed.{closed, typed_rules};
ghost use Rattle.core_syntax.specs.Value.{shape_val};
ghost use Rattle.typed_step.specs.Frames.{fronts, backs, IsLongest, one_at, cells_at, columns_at};

use crate::rules::Application;
use core_syntax::{Index, Memory, Part, TermAtom, TermExpr, Ty};
use sqlite_items::Items;
use std::alloc::Global;
use term_values::{copied_indices, copied_scalar, frame_parts, joined, push_copies};

/// The rank of each argument's frame over its cell's shape; none where the dims of one don't end in its cell's.
pub(crate) fn ranks(
    alloc: Global,
    cells: &[Index],
    args: &[TermExpr],
) -> Result<Option<Vec<usize>>, Memory>
    ensures count { IfOk result (λ r. IfSome r (λ ranks. length ranks.items ≡ length args.now)) }
    ensures frames { IfOk result (λ r. option_map (λ ranks. fronts ranks.items (each (λ a. dims_of typed_rules (term_of a)) args.now)) r ≡ frames_of typed_rules (each (λ c. shape_val closed (index_of c)) cells.now) (each term_of args.now)) }
    ensures cells { IfOk result (λ r. IfSome r (λ ranks. backs ranks.items (each (λ a. dims_of typed_rules (term_of a)) args.now) ≡ each (λ c. shape_val closed (index_of c)) cells.now)) }
{
    if cells.len() != args.len() {
        return Ok(None);
    }
    let mut ranks = Vec::new(alloc);
    for place in 0..args.len() {
        match rank(alloc, &cells[place], &args[place])? {
            None => return Ok(None),
            Some(rank) => ranks.push(rank)?,
        }
    }
    Ok(Some(ranks))
}

/// The rank of an argument's frame over its cell's shape; none where its dims don't end in the cell's.
fn rank(alloc: Global, cell: &Index, arg: &TermExpr) -> Result<Option<usize>, Memory>
    ensures frame { IfOk result (λ r. option_map (λ rank. take rank (dims_of typed_rules (term_of arg.now))) r ≡ frame_before (shape_val closed (index_of cell.now)) (dims_of typed_rules (term_of arg.now))) }
    ensures cell { IfOk result (λ r. IfSome r (λ rank. drop rank (dims_of typed_rules (term_of arg.now)) ≡ shape_val closed (index_of cell.now))) }
{
    let dims = term_values::dims(arg);
    match term_values::shape_dims(alloc, cell)? {
        None => Ok(None),
        Some(cell) => Ok(frame_rank(cell.as_slice(), dims)),
    }
}

/// How many dims stand in front of a cell's; none where the dims don't end in the cell's.
fn frame_rank(cell: &[u32], dims: &[u32]) -> Option<usize>
    ensures frame { option_map (λ rank. take rank dims.now) result ≡ frame_before cell.now dims.now }
    ensures cell { IfSome result (λ rank. drop rank dims.now ≡ cell.now) }
{
    let rank = dims.len().checked_sub(cell.len())?;
    if &dims[rank..] == cell {
        Some(rank)
    } else {
        None
    }
}

/// The greatest of a function's dims and of the frames with these ranks; none where there is none.
pub(crate) fn greatest<'a>(
    function: &'a TermExpr,
    args: &'a [TermExpr],
    ranks: &[usize],
) -> Option<&'a [u32]>
    requires { length ranks.now ≡ length args.now }
    ensures { option_copied result ≡ greatest_of (dims_of typed_rules (term_of function.now) ∷ fronts ranks.now (each (λ a. dims_of typed_rules (term_of a)) args.now)) }
{
    let frame = longest(function, args, ranks);
    if !frame.starts_with(term_values::dims(function)) {
        return None;
    }
    for place in 0..args.len() {
        if !frame.starts_with(front(term_values::dims(&args[place]), ranks[place])) {
            return None;
        }
    }
    Some(frame)
}

/// The first of a function's dims and of the frames with these ranks that is as long as any.
fn longest<'a>(function: &'a TermExpr, args: &'a [TermExpr], ranks: &[usize]) -> &'a [u32]
    requires { length ranks.now ≡ length args.now }
    ensures { IsLongest result.now (dims_of typed_rules (term_of function.now) ∷ fronts ranks.now (each (λ a. dims_of typed_rules (term_of a)) args.now)) }
{
    let mut longest = term_values::dims(function);
    for place in 0..args.len() {
        let frame = front(term_values::dims(&args[place]), ranks[place]);
        if frame.len() > longest.len() {
            longest = frame;
        }
    }
    longest
}

/// The first so many dims, or all where there are fewer.
fn front(dims: &[u32], rank: usize) -> &[u32]
    ensures { result.now ≡ take rank dims.now }
{
    &dims[..rank.min(dims.len())]
}

/// The dims behind the first so many, none where there are fewer.
fn back(dims: &[u32], rank: usize) -> &[u32]
    ensures { result.now ≡ drop rank dims.now }
{
    &dims[rank.min(dims.len())..]
}

/// Whether a function's dims and all frames with these ranks are this one.
pub(crate) fn all_are(
    frame: &[u32],
    function: &TermExpr,
    args: &[TermExpr],
    ranks: &[usize],
) -> bool
    requires { length ranks.now ≡ length args.now }
    ensures { result ≡ all_frames_are frame.now (dims_of typed_rules (term_of function.now) ∷ fronts ranks.now (each (λ a. dims_of typed_rules (term_of a)) args.now)) }
{
    if frame != term_values::dims(function) {
        return false;
    }
    for place in 0..args.len() {
        if frame != front(term_values::dims(&args[place]), ranks[place]) {
            return false;
        }
    }
    true
}

/// `lift`: an application with the function and each argument replicated to a frame, where their own frames have these ranks.
pub(crate) fn lift(
    alloc: Global,
    frame: &[u32],
    ranks: &[usize],
    application: Application<'_>,
    room: u32,
) -> Result<TermExpr, Memory>
    requires count { product frame.now ≤ 2 ^ 24 }
    requires ranks { length ranks.now ≡ length application.args.now }
    ensures { IfOk result (λ t. term_of t ≡ TApp (replicated_to typed_rules frame.now (dims_of typed_rules (term_of application.entry.function.now)) [] (term_of application.entry.function.now)) (term_list (all_replicated typed_rules frame.now (fronts ranks.now (each (λ a. dims_of typed_rules (term_of a)) application.entry.args.now)) (backs ranks.now (each (λ a. dims_of typed_rules (term_of a)) application.entry.args.now)) (each term_of application.entry.args.now))) (each index_of application.entry.cells.now) (ty_of application.entry.answer.now)) }
{
    let room = room.checked_sub(1).ok_or(Memory)?;
    let function = lifted_function(alloc, frame, application.function, room)?;
    let args = all_lifted(alloc, frame, ranks, application.args, room)?;
    applied(alloc, function, args, application.cells, application.answer)
}

/// An application of these, with copies of the shapes of its arguments' cells and of the type of its result's cell.
fn applied(
    alloc: Global,
    function: Part<TermExpr>,
    args: Vec<TermExpr>,
    cells: &[Index],
    answer: &Ty,
) -> Result<TermExpr, Memory>
    ensures { IfOk result (λ t. term_of t ≡ TApp (term_of function) (term_list (each term_of args.items)) (each index_of cells.now) (ty_of answer.now)) }
{
    let cells = copied_indices(alloc, cells)?;
    let answer = answer.copy(alloc)?;
    Ok(term_values::application(function, args, cells, answer))
}

/// A function replicated to a frame: each of its cells is an atom.
fn lifted_function(
    alloc: Global,
    frame: &[u32],
    function: &TermExpr,
    room: u32,
) -> Result<Part<TermExpr>, Memory>
    requires { product frame.now ≤ 2 ^ 24 }
    ensures { IfOk result (λ t. term_of t ≡ replicated_to typed_rules frame.now (dims_of typed_rules (term_of function.now)) [] (term_of function.now)) }
{
    let rank = term_values::dims(function).len();
    let function = lifted(alloc, frame, rank, function, room)?;
    Part::new(alloc, function)
}

/// Arguments, each replicated to a frame, where their own frames have these ranks.
fn all_lifted(
    alloc: Global,
    frame: &[u32],
    ranks: &[usize],
    args: &[TermExpr],
    room: u32,
) -> Result<Vec<TermExpr>, Memory>
    requires count { product frame.now ≤ 2 ^ 24 }
    requires ranks { length ranks.now ≡ length args.now }
    ensures { IfOk result (λ ts. each term_of ts.items ≡ all_replicated typed_rules frame.now (fronts ranks.now (each (λ a. dims_of typed_rules (term_of a)) args.now)) (backs ranks.now (each (λ a. dims_of typed_rules (term_of a)) args.now)) (each term_of args.now)) }
{
    let mut all = Vec::new(alloc);
    for place in 0..args.len() {
        let arg = lifted(alloc, frame, ranks[place], &args[place], room)?;
        all.push(arg)?;
    }
    Ok(all)
}

/// A value replicated to a frame, where its own frame has this rank. It stays as it is where its own frame is no front of the frame.
fn lifted(
    alloc: Global,
    frame: &[u32],
    rank: usize,
    term: &TermExpr,
    room: u32,
) -> Result<TermExpr, Memory>
    requires { product frame.now ≤ 2 ^ 24 }
    ensures { IfOk result (λ t. term_of t ≡ replicated_to typed_rules frame.now (take rank (dims_of typed_rules (term_of term.now))) (drop rank (dims_of typed_rules (term_of term.now))) (term_of term.now)) }
{
    let dims = term_values::dims(term);
    let own = front(dims, rank);
    if !frame.starts_with(own) {
        return term.copy(alloc, room);
    }
    let cell = back(dims, rank);
    let rest = back(frame, own.len());
    let dims = joined(alloc, frame, cell)?;
    match term {
        TermExpr::NoAtoms(_, ty) => Ok(TermExpr::NoAtoms(dims, ty.copy(alloc)?)),
        _ => {
            let atoms = over_frame(alloc, own, rest, cell, term_values::atoms(term), room)?;
            Ok(term_values::array(dims, atoms))
        }
    }
}

/// The atoms of an array of cells over a frame, replicated to the frame that goes on from it by more dims.
fn over_frame(
    alloc: Global,
    own: &[u32],
    rest: &[u32],
    cell: &[u32],
    atoms: &[TermAtom],
    room: u32,
) -> Result<Vec<TermAtom>, Memory>
    requires { product own.now * product rest.now ≤ 2 ^ 24 }
    ensures { IfOk result (λ all. each cell_of all.items ≡ replicated_over own.now rest.now cell.now (each cell_of atoms.now)) }
{
    replicated(
        alloc,
        term_values::count(own),
        term_values::count(rest),
        term_values::size(cell),
        atoms,
        room,
    )
}

/// So many runs of atoms of a size, each so many times.
fn replicated(
    alloc: Global,
    runs: u64,
    times: u64,
    size: usize,
    atoms: &[TermAtom],
    room: u32,
) -> Result<Vec<TermAtom>, Memory>
    ensures { IfOk result (λ all. each cell_of all.items ≡ joined_lists (repeated times (runs_of runs size (each cell_of atoms.now)))) }
{
    let mut all = Vec::new(alloc);
    let mut rest = atoms;
    for _ in 0..runs {
        let (run, behind) = rest.split_at(size.min(rest.len()));
        push_times(&mut all, alloc, times, run, room)?;
        rest = behind;
    }
    Ok(all)
}

/// Pushes copies of atoms, so many times.
fn push_times(
    copies: &mut Vec<TermAtom>,
    alloc: Global,
    times: u64,
    atoms: &[TermAtom],
    room: u32,
) -> Result<(), Memory>
    ensures { OnOk result (copies.new.items ≡ copies.old.items ++ joined_lists (replicate times atoms.now)) }
{
    for _ in 0..times {
        push_copies(copies, alloc, atoms, room)?;
    }
    Ok(())
}

/// `map`: the frame of an application on the cells at each place, where all frames are this one and have these ranks.
pub(crate) fn map(
    alloc: Global,
    frame: &[u32],
    ranks: &[usize],
    application: Application<'_>,
    room: u32,
) -> Result<TermExpr, Memory>
    requires count { product frame.now ≤ 2 ^ 24 }
    requires ranks { length ranks.now ≡ length application.args.now }
    ensures { IfOk result (λ t. term_of t ≡ TFrame frame.now (term_list (apps typed_rules (atoms_of typed_rules (term_of application.entry.function.now)) (columns (product frame.now) (all_cells typed_rules frame.now (backs ranks.now (each (λ a. dims_of typed_rules (term_of a)) application.entry.args.now)) (each term_of application.entry.args.now))) (each index_of application.entry.cells.now) (ty_of application.entry.answer.now))) (ty_of application.entry.answer.now)) }
{
    let room = room.checked_sub(1).ok_or(Memory)?;
    let (dims, answer) = frame_parts(alloc, frame, application.answer)?;
    match all_mapped(alloc, term_values::count(frame), ranks, application, room) {
        Ok(cells) => Ok(term_values::frame(dims, cells, answer)),
        Err(memory) => Err(memory),
    }
}

/// An application on the cells at each of so many places.
fn all_mapped(
    alloc: Global,
    count: u64,
    ranks: &[usize],
    application: Application<'_>,
    room: u32,
) -> Result<Vec<TermExpr>, Memory>
    requires { length ranks.now ≡ length application.args.now }
    ensures { IfOk result (λ ts. each term_of ts.items ≡ apps typed_rules (atoms_of typed_rules (term_of application.entry.function.now)) (columns_at 0 count ranks.now (each term_of application.entry.args.now)) (each index_of application.entry.cells.now) (ty_of application.entry.answer.now)) }
{
    let functions = term_values::atoms(application.function);
    let mut cells = Vec::new(alloc);
    for (place, function) in (0..count).zip(functions) {
        let cell = mapped(alloc, place, function, ranks, application, room)?;
        cells.push(cell)?;
    }
    Ok(cells)
}

/// An application on the cells at a place.
fn mapped(
    alloc: Global,
    place: u64,
    function: &TermAtom,
    ranks: &[usize],
    application: Application<'_>,
    room: u32,
) -> Result<TermExpr, Memory>
    requires { length ranks.now ≡ length application.args.now }
    ensures { IfOk result (λ t. term_of t ≡ TApp (scalar_of (cell_of function.now)) (term_list (cells_at place ranks.now (each term_of application.entry.args.now))) (each index_of application.entry.cells.now) (ty_of application.entry.answer.now)) }
{
    let cells = copied_indices(alloc, application.cells)?;
    let answer = application.answer.copy(alloc)?;
    let function = copied_scalar(alloc, function, room)?;
    let room = room.checked_sub(1).ok_or(Memory)?;
    match arguments_at(alloc, place, ranks, application.args, room) {
        Ok(args) => Ok(term_values::application(function, args, cells, answer)),
        Err(memory) => Err(memory),
    }
}

/// The cells of arguments at a place.
fn arguments_at(
    alloc: Global,
    place: u64,
    ranks: &[usize],
    args: &[TermExpr],
    room: u32,
) -> Result<Vec<TermExpr>, Memory>
    requires { length ranks.now ≡ length args.now }
    ensures { IfOk result (λ ts. each term_of ts.items ≡ cells_at place ranks.now (each term_of args.now)) }
{
    let mut cells = Vec::new(alloc);
    for i in 0..args.len() {
        let cell = cell_at(alloc, place, ranks[i], &args[i], room)?;
        cells.push(cell)?;
    }
    Ok(cells)
}

/// The cell of a value at a place, where its frame has this rank.
fn cell_at(
    alloc: Global,
    place: u64,
    rank: usize,
    term: &TermExpr,
    room: u32,
) -> Result<TermExpr, Memory>
    ensures { IfOk result (λ t. term_of t ≡ one_at place rank (term_of term.now)) }
{
    let cell = back(term_values::dims(term), rank);
    let dims = Items::from_slice(alloc, cell)?;
    match term {
        TermExpr::NoAtoms(_, ty) => Ok(TermExpr::NoAtoms(dims, ty.copy(alloc)?)),
        _ => {
            let mut atoms = Vec::new(alloc);
            push_copies(
                &mut atoms,
                alloc,
                run_at(term_values::atoms(term), place, term_values::size(cell)),
                room,
            )?;
            Ok(term_values::array(dims, atoms))
        }
    }
}

/// The run of atoms of a size at a place.
fn run_at(atoms: &[TermAtom], place: u64, size: usize) -> &[TermAtom]
    ensures { result.now ≡ take size (drop (place * size) atoms.now) }
{
    let from = (place as usize).saturating_mul(size).min(atoms.len());
    let behind = &atoms[from..];
    &behind[..size.min(behind.len())]
}

// Places of a map by primitives of scalars on scalars, which need no array of their own.
ghost use Rattle.std.specs.Prelude.{◌≡◌, ◌<◌, ◌≤◌, ◌-◌, ◌/◌, ◌++◌, [], ◌∷◌, List, Some, length, slice_get, option_map, IfOk, IfSome, IsTrue, OnOk};
ghost use Rattle.std.specs.List.{All};
ghost use Rattle.core_syntax.specs.Arrays.{single};
ghost use Rattle.core_syntax.specs.Lists.{each, product};
ghost use Rattle.array_values.specs.declared.value.Value.{Value as Atom};
ghost use Rattle.array_values.specs.Cells.{cell_of};
ghost use Rattle.array_values.specs.Forms.{Forms};
ghost use Rattle.array_values.specs.Lent.{value_of, IsLent};
ghost use Rattle.machine_table.specs.declared.code.Block.{Block as Listed};
ghost use Rattle.machine_table.specs.Begins.{Answers, apply_atom as applied_atom, place_entry, prim_entry};
ghost use Rattle.machine_table.specs.Machine as table;
ghost use Rattle.machine_table.specs.ValueRules.{value_parts, value_rules};
ghost use Rattle.machine.specs.Refines.{map_from};
ghost use Rattle.machine.specs.Scalars.{Leads, given_atom, scalar_map};
ghost use Rattle.machine.specs.Works.{FitsFrame, Reaches, IsWork, result_dims, work_places, work_places_of};
ghost use Rattle.prim_kernels.specs.Deltas.{scalar_entry};

use crate::state::{Argument, Map, Work};
use array_values::{PrimValue, Value, ValueRef};
use core_syntax::Memory;
use prim_kernels::{Scalar, apply_one, apply_two};
use std::alloc::Global;

/// A scalar that a primitive gives.
#[derive(Clone, Copy)]
pub(crate) enum Given {
    Int(i64),
    Bool(bool),
}

impl Given {
    /// The scalar as an atom.
    pub(crate) fn value(self) -> Value
        ensures { result ≡ given_atom self }
    {
        match self {
            Given::Int(n) => Value::Int(n),
            Given::Bool(b) => Value::Bool(b),
        }
    }
}

/// What a primitive of scalars gives, where it neither traps nor is wrong.
pub(crate) fn scalar_given(scalar: Option<Scalar>) -> Option<Given>
    ensures { IfSome result (λ g. option_map scalar_entry scalar ≡ Some (Answers (single (given_atom g)))) }
{
    match scalar {
        Some(Scalar::Int(n)) => Some(Given::Int(n)),
        Some(Scalar::Bool(b)) => Some(Given::Bool(b)),
        Some(Scalar::Trap(_)) | Some(Scalar::Wrong(_)) | None => None,
    }
}

// The place of a frame's part at a place of the frame, where each part has so many. The two cases that need no division
// are those of the whole frame and of one cell for all of it.
fn part(place: usize, repeat: usize) -> usize
    requires { 0 < repeat }
    ensures { result ≡ place / repeat }
{
    if repeat == 1 {
        place
    } else if place < repeat {
        0
    } else {
        place / repeat
    }
}

// The cell of an argument at a place of the frame, where it is a scalar.
fn scalar_cell(argument: &Argument, place: usize) -> Option<ValueRef<'_>>
    requires { Reaches place argument.now }
    ensures cell { IfSome result (λ x. cell_of argument.now.array argument.now.rank (place / argument.now.repeat) ≡ single (value_of x)) }
    ensures lent { IfSome result (λ x. IsLent x) }
{
    let _dims = argument.array.dims();
    if argument.rank != 0 {
        return None;
    }
    Some(argument.array.atom_at(part(place, argument.repeat)))
}

// A primitive of scalars on the cells of arguments at a place of the frame, where they are scalars.
fn on_cells(prim: &PrimValue, arguments: &[Argument], place: usize) -> Option<Scalar>
    requires { All (Reaches place) arguments.now }
    ensures { IfSome result (λ s. scalar_entry s ≡ prim_entry value_rules prim.now.op prim.now.typed prim.now.indices (each (λ a. cell_of a.array a.rank (place / a.repeat)) arguments.now)) }
{
    match arguments {
        [one] => apply_one(prim, scalar_cell(one, place)?),
        [one, other] => apply_two(prim, scalar_cell(one, place)?, scalar_cell(other, place)?),
        _ => None,
    }
}

// An atom, which is a primitive of scalars, on the cells of arguments at a place of the frame.
fn on_value(atom: &Value, arguments: &[Argument], place: usize) -> Option<Scalar>
    requires { All (Reaches place) arguments.now }
    ensures { IfSome result (λ s. scalar_entry s ≡ applied_atom value_rules (value_parts atom.now) (each (λ a. cell_of a.array a.rank (place / a.repeat)) arguments.now)) }
{
    match atom {
        Value::Prim(prim) => on_cells(prim.get(), arguments, place),
        _ => None,
    }
}

// The same of a lent atom.
fn on_atom(atom: ValueRef<'_>, arguments: &[Argument], place: usize) -> Option<Scalar>
    requires lent { IsLent atom }
    requires cells { All (Reaches place) arguments.now }
    ensures { IfSome result (λ s. scalar_entry s ≡ applied_atom value_rules (value_parts (value_of atom.entry)) (each (λ a. cell_of a.array a.rank (place / a.repeat)) arguments.now)) }
{
    match atom {
        ValueRef::Other(value) => on_value(value, arguments, place),
        _ => None,
    }
}

// What a place of a map gives at once: the function's atom there is a primitive of scalars, on scalars.
fn scalar_at(
    frame: &[u32],
    count: usize,
    function: &Argument,
    arguments: &[Argument],
    place: usize,
) -> Option<Given>
    requires function { FitsFrame frame.now count function.now }
    requires whole { function.now.rank ≡ 0 }
    requires arguments { All (FitsFrame frame.now count) arguments.now }
    requires count_is { count ≡ product frame.now }
    requires place { place < count }
    ensures { IfSome result (λ g. option_map (place_entry value_rules) (slice_get (work_places_of frame.now function.now arguments.now) place) ≡ Some (Answers (single (given_atom g)))) }
{
    let atom = function.array.atom_at(part(place, function.repeat));
    scalar_given(on_atom(atom, arguments, place))
}

// Puts a scalar behind results, of which there will be so many.
fn push_scalar(results: &mut Vec<Value>, scalar: Given, count: usize) -> Result<(), Memory>
    ensures { OnOk result (results.new.items ≡ results.old.items ++ given_atom scalar ∷ []) }
{
    if results.is_empty() {
        results.reserve_exact(count)?;
    }
    results.push(scalar.value())?;
    Ok(())
}

// Puts what places of a map give at once behind the results of the places before, from the place `given` on, as far as each
// gives a scalar, and up to `end`. It answers the next place.
fn push_scalars(
    frame: &[u32],
    count: usize,
    function: &Argument,
    arguments: &[Argument],
    given: usize,
    end: usize,
    results: &mut Vec<Value>,
) -> Result<usize, Memory>
    requires function { FitsFrame frame.now count function.now }
    requires whole { function.now.rank ≡ 0 }
    requires arguments { All (FitsFrame frame.now count) arguments.now }
    requires count_is { count ≡ product frame.now }
    requires forms { Forms frame.now }
    requires given { length results.old.items ≡ given }
    requires begun { given ≤ end }
    requires end { end ≤ count }
    ensures place { IfOk result (λ n. length results.new.items ≡ n) }
    ensures least { IfOk result (λ n. given ≤ n) }
    ensures most { IfOk result (λ n. n ≤ end) }
    ensures none { IfOk result (λ n. n ≡ given → results.new.items ≡ results.old.items) }
    ensures leads { (blocks : List Listed) (s : table.State Atom) → IfOk result (λ n. Leads blocks (n - given) (scalar_map frame.now (work_places_of frame.now function.now arguments.now) results.old.items ∷ s) (scalar_map frame.now (work_places_of frame.now function.now arguments.now) results.new.items ∷ s)) }
{
    let mut place = given;
    while place < end {
        match scalar_at(frame, count, function, arguments, place) {
            None => break,
            Some(scalar) => push_scalar(results, scalar, count)?,
        }
        place += 1;
    }
    Ok(place)
}

// Whether the results of a map are scalars, as far as there are any.
fn are_scalars(cell: &Option<Vec<u32>>) -> bool
    ensures { IsTrue result → All (λ w. w ≡ []) (result_dims (λ v. v.items) cell.now) }
{
    match cell {
        None => true,
        Some(cell) => cell.is_empty(),
    }
}

// The same of the work of a map.
fn push_places(
    frame: &[u32],
    count: usize,
    work: &Work,
    given: usize,
    end: usize,
    results: &mut Vec<Value>,
) -> Result<usize, Memory>
    requires count_is { count ≡ product frame.now }
    requires fits { IsWork frame.now count work.now }
    requires forms { Forms frame.now }
    requires given { length results.old.items ≡ given }
    requires begun { given ≤ end }
    requires end { end ≤ count }
    ensures place { IfOk result (λ n. length results.new.items ≡ n) }
    ensures least { IfOk result (λ n. given ≤ n) }
    ensures most { IfOk result (λ n. n ≤ end) }
    ensures none { IfOk result (λ n. n ≡ given → results.new.items ≡ results.old.items) }
    ensures leads { (blocks : List Listed) (s : table.State Atom) → IfOk result (λ n. Leads blocks (n - given) (scalar_map frame.now (work_places frame.now work.now) results.old.items ∷ s) (scalar_map frame.now (work_places frame.now work.now) results.new.items ∷ s)) }
{
    match work {
        Work::Apply(function, arguments) => {
            let arguments = arguments.as_slice();
            push_scalars(frame, count, function, arguments, given, end, results)
        }
        Work::Types(_) | Work::Indices(..) | Work::Boxes { .. } => Ok(given),
    }
}

/// A map after as many of its next places as give a scalar at once, `most` at most, and how many these are: each of them is
/// a step.
pub(crate) fn scalar_places(alloc: Global, map: Map, most: u64) -> Result<(Map, u64), Memory>
    ensures leads { (blocks : List Listed) (s : table.State Atom) → IfOk result (λ r. Leads blocks r.1 (map_from map.given map ∷ s) (map_from r.0.given r.0 ∷ s)) }
    ensures most { IfOk result (λ r. r.1 ≤ most) }
{
    if !are_scalars(&map.cell) {
        return Ok((map, 0));
    }
    let Map {
        frame,
        count,
        work,
        given,
        cell,
        mut results,
    } = map;
    let end = given + (count - given).min(most as usize);
    let place = push_places(&frame, count, &work, given, end, &mut results)?;
    if place == given {
        return Ok((
            Map {
                frame,
                count,
                work,
                given,
                cell,
                results,
            },
            0,
        ));
    }
    Ok((
        Map {
            frame,
            count,
            work,
            given: place,
            cell: Some(Vec::new(alloc)),
            results,
        },
        (place - given) as u64,
    ))
}

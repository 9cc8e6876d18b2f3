// Turns of a fold by a primitive of scalars over scalars, which need no array of their own.
ghost use Rattle.std.specs.Prelude.{◌≡◌, ◌<◌, ◌≤◌, ◌-◌, ◌∷◌, [], List, Some, length, slice_get, get_or, drop, option_map, IfSome};
ghost use Rattle.core_syntax.specs.Arrays.{single};
ghost use Rattle.array_values.specs.declared.value.Value.{Value as Atom};
ghost use Rattle.machine_table.specs.declared.code.Block.{Block as Listed};
ghost use Rattle.machine_table.specs.Begins.{Answers, apply_atom as applied_atom};
ghost use Rattle.machine_table.specs.Machine as table;
ghost use Rattle.machine.specs.Entered.{turn_entry};
ghost use Rattle.machine.specs.Refines.{fold_from};
ghost use Rattle.machine.specs.Scalars.{Leads, given_atom};
ghost use Rattle.machine_table.specs.ValueRules.{value_parts, value_rules};
ghost use Rattle.array_values.specs.Lent.{value_of, IsLent};
ghost use Rattle.prim_kernels.specs.Deltas.{leading_cells, scalar_entry};

use crate::scalars::{Given, scalar_given};
use crate::state::Fold;
use array_values::{Array, Value, ValueRef};
use prim_kernels::{Scalar, apply_two};

// A lent atom as a scalar, where it is one that primitives give.
fn lent_scalar(atom: ValueRef<'_>) -> Option<Given>
    ensures { IfSome result (λ g. value_of atom.entry ≡ given_atom g) }
{
    match atom {
        ValueRef::Int(n) => Some(Given::Int(n)),
        ValueRef::Bool(b) => Some(Given::Bool(b)),
        ValueRef::Char(_) | ValueRef::Other(_) => None,
    }
}

// The scalar that an array is, where it is one that primitives give.
fn scalar_of(array: &Array) -> Option<Given>
    ensures { IfSome result (λ g. array.now ≡ single (given_atom g)) }
{
    let dims = array.dims();
    if !dims.is_empty() {
        return None;
    }
    lent_scalar(array.atom_at(0))
}

// An atom, which is a primitive of scalars, on two scalars.
fn on_two(function: &Value, x: ValueRef<'_>, y: ValueRef<'_>) -> Option<Scalar>
    requires left { IsLent x }
    requires right { IsLent y }
    ensures { IfSome result (λ s. scalar_entry s ≡ applied_atom value_rules (value_parts function.now) (single (value_of x.entry) ∷ single (value_of y.entry) ∷ [])) }
{
    match function {
        Value::Prim(prim) => apply_two(prim.get(), x, y),
        _ => None,
    }
}

// The same of a scalar that a primitive gave, and another one.
fn on_given(function: &Value, x: Given, y: ValueRef<'_>) -> Option<Scalar>
    requires { IsLent y }
    ensures { IfSome result (λ s. scalar_entry s ≡ applied_atom value_rules (value_parts function.now) (single (given_atom x) ∷ single (value_of y.entry) ∷ [])) }
{
    match x {
        Given::Int(n) => on_two(function, ValueRef::Int(n), y),
        Given::Bool(b) => on_two(function, ValueRef::Bool(b), y),
    }
}

// What a turn of a fold gives at once: its function is a primitive of scalars, and its item is a scalar.
fn turn(function: &Value, accumulator: Given, items: &Array, place: usize) -> Option<Given>
    requires rank { length items.now.dims ≡ 1 }
    requires place { place < get_or items.now.dims 0 0 }
    ensures { IfSome result (λ g. option_map (turn_entry function.now (single (given_atom accumulator))) (slice_get (leading_cells items.now.dims items.now.atoms) place) ≡ Some (Answers (single (given_atom g)))) }
{
    let _dims = items.dims();
    let item = items.atom_at(place);
    scalar_given(on_given(function, accumulator, item))
}

// The accumulator after as many turns as give a scalar at once, from one place to another at most, and the place of the
// next turn.
fn turns(function: &Value, first: Given, items: &Array, next: usize, end: usize) -> (Given, usize)
    requires rank { length items.now.dims ≡ 1 }
    requires begun { next ≤ end }
    requires end { end ≤ get_or items.now.dims 0 0 }
    ensures least { next ≤ result.1 }
    ensures most { result.1 ≤ end }
    ensures leads { (blocks : List Listed) (s : table.State Atom) → Leads blocks (result.1 - next) (table.Folding function.now (single (given_atom first)) (drop next (leading_cells items.now.dims items.now.atoms)) ∷ s) (table.Folding function.now (single (given_atom result.0)) (drop result.1 (leading_cells items.now.dims items.now.atoms)) ∷ s) }
{
    let mut accumulator = first;
    let mut place = next;
    while place < end {
        match turn(function, accumulator, items, place) {
            None => break,
            Some(scalar) => accumulator = scalar,
        }
        place += 1;
    }
    (accumulator, place)
}

/// The accumulator of a fold after as many of its next turns as give a scalar at once, `most` at most, each of which is a
/// step, and the place of the next turn; none where the next turn doesn't.
pub(crate) fn scalar_turns(fold: &Fold, most: u64) -> Option<(Given, usize)>
    ensures least { IfSome result (λ r. fold.now.next < r.1) }
    ensures most { IfSome result (λ r. r.1 - fold.now.next ≤ most) }
    ensures within { IfSome result (λ r. r.1 ≤ fold.now.count) }
    ensures leads { (blocks : List Listed) (s : table.State Atom) → IfSome result (λ r. Leads blocks (r.1 - fold.now.next) (fold_from fold.now.next fold.now ∷ s) (table.Folding fold.now.function (single (given_atom r.0)) (drop r.1 (leading_cells fold.now.items.dims fold.now.items.atoms)) ∷ s)) }
{
    if fold.items.dims().len() != 1 {
        return None;
    }
    let first = scalar_of(&fold.accumulator)?;
    let end = fold.next + (fold.count - fold.next).min(most as usize);
    let (last, place) = turns(&fold.function, first, &fold.items, fold.next, end);
    if place == fold.next {
        return None;
    }
    Some((last, place))
}

// Primitives on arrays.
ghost use Rattle.std.specs.Prelude.{◌≡◌, None, IfOk};
ghost use Rattle.array_values.specs.Arrays.{IsArray};
ghost use Rattle.core_syntax.specs.Delta.{delta as answer_on};
ghost use Rattle.core_syntax.specs.DeltaStuck.{delta_stuck, given_values};
ghost use Rattle.core_syntax.specs.Lists.{Each};
ghost use Rattle.machine_table.specs.Begins.{answer_entry, prim_entry};
ghost use Rattle.machine_table.specs.ValueRules.{value_rules};
ghost use Rattle.prim_kernels.specs.Deltas.{entry_of, IsFoldOf};
ghost use Rattle.prim_kernels.specs.Kernels.{machine_atoms, MakesArrays};

use crate::answers::Delta;
use crate::boxes::array;
use crate::folds::{fold, reduce};
use crate::kernels::made;
use crate::made::Made;
use crate::scalars::on_scalars;
use crate::suiting::{has_variables, held, stuck};
use array_values::{Array, PrimValue};
use core_syntax::{Memory, Primitive};
use std::alloc::Global;

/// A primitive on arrays, by the table of primitives (docs/LANGUAGE.md, "What primitives give"). `Wrong` comes exactly where
/// the primitive lacks type or index arguments that its row has, or has others, or where the number of arrays, their atoms
/// or their dims are others than its row's under its index arguments: the first of the cases of a stuck machine
/// (docs/MACHINE.md, "Stuck"). It answers `Memory` where there is none.
pub fn delta(alloc: Global, p: &PrimValue, args: &[Array]) -> Result<Delta, Memory>
    ensures entry { IfOk result (λ d. entry_of d ≡ prim_entry value_rules p.now.op p.now.typed p.now.indices args.now) }
    ensures fold { IfOk result (λ d. IsFoldOf args.now d) }
{
    match stuck(p, args) {
        Some(kind) => Ok(Delta::Wrong(kind)),
        None => given(alloc, p, args),
    }
}

// A primitive that has all that its row asks for, on arrays that fit it.
fn given(alloc: Global, p: &PrimValue, args: &[Array]) -> Result<Delta, Memory>
    requires { delta_stuck machine_atoms p.now.op p.now.typed p.now.indices args.now ≡ None }
    ensures entry { IfOk result (λ d. entry_of d ≡ answer_entry (answer_on machine_atoms p.now.op (given_values p.now.indices) args.now)) }
    ensures fold { IfOk result (λ d. IsFoldOf args.now d) }
{
    if !has_variables(p.op) {
        return on_scalars(alloc, p.op, args);
    }
    match p.op {
        Primitive::Reduce => reduce(alloc, args),
        Primitive::Fold => fold(alloc, args),
        _ => value(alloc, p, args),
    }
}

// The same of one that makes an array of arrays.
fn value(alloc: Global, p: &PrimValue, args: &[Array]) -> Result<Delta, Memory>
    requires ready { delta_stuck machine_atoms p.now.op p.now.typed p.now.indices args.now ≡ None }
    requires arrays { MakesArrays p.now.op }
    ensures entry { IfOk result (λ d. entry_of d ≡ answer_entry (answer_on machine_atoms p.now.op (given_values p.now.indices) args.now)) }
    ensures fold { IfOk result (λ d. IsFoldOf args.now d) }
{
    are_arrays(args);
    match made(alloc, p.op, held(&p.indices), args)? {
        Made::Gives(dims, atoms) => {
            let value = array(alloc, dims.as_slice(), atoms)?;
            Ok(Delta::Value(value))
        }
        Made::Same(value) => Ok(Delta::Value(value)),
        Made::Trap(kind) => Ok(Delta::Trap(kind)),
        Made::Unfit => unreachable!(),
    }
}

// Each array of a slice has as many atoms as its dims say, and dims that an array may have.
fn are_arrays(args: &[Array])
    ensures { Each IsArray args.now }
{
    for array in args {
        let _dims = array.dims();
    }
}

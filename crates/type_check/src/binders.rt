// The binders of an `unbox` and of a function.
ghost use Rattle.std.specs.Prelude.{◌≡◌, ◌-◌, ◌<◌, ◌^◌, ◌++◌, length, take, OnOk, IfErr};
ghost use Rattle.type_check.specs.Functions.{within_terms};
ghost use Rattle.type_check.specs.State.{State, within_box};

use crate::refusal::TypeRefusal;
use crate::state::Checker;
use core_syntax::Sort;
use type_equal::NormType;

/// Enters the binders of an `unbox`, of which the content's is the innermost.
pub(crate) fn enter_box(
    checker: &mut Checker,
    sorts: &[Sort],
    content: NormType,
) -> Result<(), TypeRefusal>
    requires { length (checker.old.sorts ++ sorts.now) < 2 ^ 31 }
    ensures entered { OnOk result (checker.new ≡ within_box sorts.now content checker.old) }
    ensures memory { IfErr result (λ e. e ≡ TypeRefusal.Memory) }
{
    match checker.enter_sorts(sorts) {
        Ok(()) => checker.enter_term(content),
        Err(refusal) => Err(refusal),
    }
}

/// Leaves the binders of an `unbox` of so many indices.
pub(crate) fn leave_box(checker: &mut Checker, count: usize)
    ensures { checker.new ≡ record checker.old { sorts = take (length checker.old.sorts - count) checker.old.sorts; terms = take (length checker.old.terms - 1) checker.old.terms } }
{
    checker.leave_terms(1);
    checker.leave_sorts(count);
}

/// Enters term variables of these types, the last of which is the innermost then.
pub(crate) fn enter_terms(checker: &mut Checker, types: &[NormType]) -> Result<(), TypeRefusal>
    requires { length checker.old.sorts < 2 ^ 31 }
    ensures entered { OnOk result (checker.new ≡ within_terms types.now checker.old) }
    ensures memory { IfErr result (λ e. e ≡ TypeRefusal.Memory) }
{
    for ty in types {
        match ty.copy(checker.alloc()) {
            Ok(copy) => checker.enter_term(copy)?,
            Err(_) => return Err(TypeRefusal::Memory),
        }
    }
    Ok(())
}

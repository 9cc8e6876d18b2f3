// Why runs of steps end.
use core_syntax::TrapKind;

/// Why a run of steps ends.
#[derive(Clone, Copy, Debug, PartialEq, Eq)]
pub(crate) enum End {
    /// At a value.
    Value,
    /// At a step that traps, which is counted.
    Trap(TrapKind),
    /// The budget is spent, and what stands there is no value.
    Spent,
    /// There is no rule, which no typed term meets.
    Lost,
}

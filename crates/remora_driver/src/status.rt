ghost use Rattle.std.specs.Prelude.{◌≡◌};
ghost use Rattle.remora_driver.specs.Codes.{exit_code};

use core_syntax::{Span, StuckKind, TrapKind};

/// How a call of the program ends.
#[derive(Clone, Copy, Debug, PartialEq, Eq)]
pub enum Status {
    /// What the words asked for was written.
    Ok,
    /// The run trapped.
    Trap(TrapKind),
    /// The program or the code was refused with this number at this place.
    Refused { number: u8, span: Span },
    /// The words are no call of the program.
    Usage,
    /// The program source or the input failed.
    ReadFault,
    /// The output failed, and holds a front of what was due.
    WriteFault,
    /// The run hadn't ended within its budget.
    StillRunning,
    /// There was no memory, and nothing was written.
    Memory,
    /// The data was refused with this number at this place.
    DataRefused { number: u8, span: Span },
    /// The machine was stuck, which only code that wasn't built from a program can bring about.
    Stuck(StuckKind),
}

impl Status {
    /// The exit status of the process.
    pub fn code(&self) -> u8
        ensures { result ≡ exit_code self.now }
    {
        match self {
            Status::Ok => 0,
            Status::Trap(_) => 1,
            Status::Refused { .. } => 2,
            Status::Usage => 3,
            Status::ReadFault => 4,
            Status::WriteFault => 5,
            Status::StillRunning => 6,
            Status::Memory => 7,
            Status::DataRefused { .. } => 8,
            Status::Stuck(_) => 9,
        }
    }
}

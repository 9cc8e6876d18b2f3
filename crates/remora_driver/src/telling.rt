/// How the value is told that a run reaches.
#[derive(Clone, Copy, Debug, PartialEq, Eq)]
pub enum Telling {
    /// By its text alone.
    Value,
    /// As that of the soak program with so many definitions: with their number, and that of the steps of its code.
    Soak { count: u32 },
}

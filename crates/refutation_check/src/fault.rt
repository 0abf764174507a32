/// Why a log is not accepted.
#[derive(Clone, Copy, Debug, PartialEq, Eq)]
pub enum LogFault {
    /// The first bad line, counted from 1, or 0 for the log as a whole, and what is wrong there.
    Line(u64, u16),
    /// There was no memory.
    Memory,
}

/// A line names a clause that does not stand before it.
pub const NO_EARLIER_CLAUSE: u16 = 51;
/// The pivot does not stand in the two clauses with opposite signs, or another variable does.
pub const WRONG_PIVOT: u16 = 52;
/// The line does not come to the stated clause.
pub const OTHER_RESULT: u16 = 53;
/// The last clause of a refutation is not empty, or there is no line.
pub const NOT_EMPTY_AT_END: u16 = 54;
/// The line does not strengthen propagation.
pub const NOTHING_NEW: u16 = 55;
/// There are more or fewer lines than the limit.
pub const OTHER_LENGTH: u16 = 56;
/// Propagation alone refutes the clauses.
pub const PROPAGATION_REFUTES: u16 = 57;

use rvt_num::{Num, Trap};
use rvt_tree::Stmt;

/// What is next in a run, where it takes a step or ends.
#[derive(Clone, Copy)]
pub enum Event<'a> {
    /// A call with the values above a height.
    Calls(u32, usize),
    /// The test of a loop.
    Tests(&'a Stmt),
    Returns(Option<Num>),
    Traps(Trap),
}

/// How a run ends.
#[derive(Clone, Copy)]
pub enum Halt {
    Returned(Option<Num>),
    Trapped(Trap),
    Cut,
    Deep,
}

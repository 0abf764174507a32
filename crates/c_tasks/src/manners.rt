/// How a statement ended that did not leave the function.
#[derive(Clone, Copy, PartialEq, Eq)]
pub enum Manner {
    Normally,
    Broke,
    Continued,
}

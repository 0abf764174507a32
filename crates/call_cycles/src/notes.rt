use typing_base::{Call, Taken};

/// What is noted of a function: whether it has a body, and the calls in that and the addresses that it takes, in order.
/// A function without a body has neither.
#[derive(Clone, Copy)]
pub struct FunctionNotes<'a> {
    pub defined: bool,
    pub calls: &'a [Call],
    pub taken: &'a [Taken],
}

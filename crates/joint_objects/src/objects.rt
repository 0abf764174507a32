use rvt_num::Kind;

/// What something of the joint table is in the two files, by its numbers there.
#[derive(Clone, Copy, Debug, PartialEq, Eq)]
pub enum Origin {
    Both(u32, u32),
    Old(u32),
    New(u32),
}

/// The type of the elements of an extra array.
#[derive(Clone, Copy, Debug, PartialEq, Eq)]
pub enum Element {
    Word(Kind),
    Struct(Origin),
}

/// An object of the joint table.
#[derive(Clone, Copy, Debug, PartialEq, Eq)]
pub enum JointObject {
    Global(Origin),
    /// A function's local, and how many declarations of its name stand before its own in the function.
    Local(Origin, u32),
    /// One of the arrays that are added for pointers to this, counted from 0.
    Extra(Element, u32),
    /// The array of the map with this number among them.
    Mapped(u32),
}

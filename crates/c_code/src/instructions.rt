use rvt_num::{BinOp, Kind, Num, UnOp};
use rvt_tree::{Bump, Pointee, Variable};

/// What is computed from one value.
#[derive(Clone, Copy)]
pub enum Unary {
    Convert(Kind),
    Number(UnOp),
    /// `!a`
    Not,
    /// 1 where the value holds, else 0.
    Truth,
    /// `++` and `--` of an integer.
    Bump(Bump),
    /// `++` and `--` of a pointer: the size of what it points to.
    BumpPointer(Bump, u32),
}

/// What is computed from two values.
#[derive(Clone, Copy)]
pub enum Binary {
    Numbers(BinOp),
    SamePointer,
    OtherPointer,
    /// `p + k`: the size of what p points to.
    Forward(u32),
    /// `k + p`
    ForwardFrom(u32),
    /// `p - k`
    Backward(u32),
    /// `x op= k`: the kind in which the left operand is computed.
    Update(BinOp, Kind),
}

/// How a statement ends that does not leave the function.
#[derive(Clone, Copy)]
pub enum Manner {
    Normally,
    Broke,
    Continued,
}

/// When a jump is made.
#[derive(Clone, Copy)]
pub enum When {
    Always,
    /// Where the value in a slot does not hold.
    Unless(u32),
    /// Where the last statement ended by `break` or `continue`.
    Abrupt,
    /// Where it ended by `break`.
    Broke,
}

/// What the machine does next. Values and places wait in slots of the activation, each in the slot that the instruction
/// names; an operation leaves its result where its first operand was. Jumps are counted from the instruction itself.
#[derive(Clone, Copy)]
pub enum Instruction {
    // ---- values
    /// A number into a slot.
    Constant(Num, u32),
    Null(u32),
    /// The value of a variable of one cell into a slot, and the other way.
    Read(Variable, u32),
    Write(Variable, u32),
    /// A variable gets what is computed from its value.
    Change(Unary, Variable),
    Unary(Unary, u32),
    /// From the value in a slot and the one in the next.
    Binary(Binary, u32),
    /// A call of a function with the values from a slot on, so many.
    Call(u32, u32, u32),
    Discard(u32),
    // ---- places: the slot of the place comes before that of the value
    /// The place of a variable.
    Place(Variable, u32),
    /// The value at a place, and the same where the place stays.
    Load(u32, u32),
    Fetch(u32, u32),
    /// A value goes into a place.
    Store(u32, u32),
    /// The pointer to a place.
    Point(u32, u32),
    /// The place to which a pointer points.
    Aim(Pointee, u32, u32),
    /// The place of a member, by its cell.
    Member(u32, u32),
    /// The place of an element: how many there are, and the size of one.
    Element(u32, u32, u32, u32),
    /// The pointer to an element: the size of one.
    ElementAddress(u32, u32, u32),
    // ---- declarations
    /// Each cell of a variable is zero or null.
    Clear(Variable),
    /// The scope of a local is left.
    Forget(u32),
    /// The same as `Clear`, and these cells, so many, into the first slots.
    Begin(Variable, u32),
    /// The cells that began in these slots, so many, again from a slot on.
    Pad(u32, u32, u32),
    /// A variable gets the cells from a slot on, so many.
    Initialize(Variable, u32, u32),
    // ---- statements
    /// How a statement ends.
    End(Manner),
    Jump(When, usize),
    /// The step of the first test of a loop.
    Spend,
    /// After a round of a loop: back by so many to its test, whose step is spent; but on after a `break`.
    Again(usize),
    /// The group of a `switch` for the number in a slot. The groups follow.
    Select(u32),
    /// A group: how many labels follow, and how far the next group is.
    Group(usize, usize),
    /// The labels of a group.
    Case(Num),
    Default,
    /// The end of the groups, which takes a `break`.
    LeaveSwitch,
    /// `return` of the value in a slot.
    Return(u32),
    ReturnNothing,
    /// The end of a function's body.
    Finish,
}

use rvt_num::{BinOp, Kind, UnOp};
use rvt_tree::{Acts, Bump, Expr, Exprs, Groups, Inits, Lvalue, Pointee, Stmt, Stmts, Variable};

/// What is computed from one value.
#[derive(Clone, Copy)]
pub enum Unary {
    /// `+` is no operation.
    Convert(Kind),
    Number(UnOp),
    /// `!a`
    Not,
    /// 1 where the value holds, else 0.
    Truth,
    /// `++` and `--` of an integer.
    Bump(Bump),
    /// `++` and `--` of a pointer: the size of what it points to.
    BumpPointer(Bump, u32),
}

/// What is computed from two values.
#[derive(Clone, Copy)]
pub enum Binary {
    Numbers(BinOp),
    SamePointer,
    OtherPointer,
    /// `p + k`: the size of what p points to.
    Forward(u32),
    /// `k + p`
    ForwardFrom(u32),
    /// `p - k`
    Backward(u32),
    /// `x op= k`: the kind in which the left operand is computed.
    Update(BinOp, Kind),
}

/// A part of a loop statement.
#[derive(Clone, Copy, PartialEq, Eq)]
pub enum Part {
    /// No part, but the whole statement, which need not be a loop.
    Whole,
    /// The test, which spends a step.
    Test,
    /// What comes after the test's value.
    Decide,
    /// The last part of a `for` header.
    Last,
    /// What comes after the round.
    After,
}

/// Something that is still to be done.
#[derive(Clone, Copy)]
pub enum Task<'a> {
    // ---- expressions
    Evaluate(&'a Box<Expr>),
    /// The right side of an assignment.
    EvaluateSide(&'a Expr),
    Locate(&'a Box<Lvalue>),
    Address(&'a Box<Lvalue>),
    /// The value of each of these, one after another.
    Arguments(&'a Box<Exprs>),
    // ---- on values and places
    Unary(Unary),
    Binary(Binary),
    /// The right side of `&&` and `||`.
    And(&'a Box<Expr>),
    Or(&'a Box<Expr>),
    /// One of two expressions.
    Choose(&'a Box<Expr>, &'a Box<Expr>),
    /// A call with the values above this height.
    Call(u32, usize),
    /// The value at a place.
    Load,
    /// The same, where the place stays.
    Fetch,
    /// A value goes into a place.
    Store,
    /// The pointer to a place.
    Point,
    /// The place to which a pointer points.
    Aim(Pointee),
    /// The place of a member, by its cell.
    Member(u32),
    /// The place of an element: how many there are, and the size of one.
    Element(u32, u32),
    /// The pointer to an element.
    ElementAddress(u32),
    Discard,
    // ---- initializers
    /// The cells of members, in place of zeros from one on, so many.
    Members(&'a Box<Inits>, usize, usize),
    /// Zeros from one on, so many.
    Pad(usize, usize),
    /// A variable gets the values above this height.
    Initialize(Variable, usize),
    // ---- statements
    Statement(Part, &'a Stmt),
    Block(&'a Box<Stmts>),
    /// The rest of a block.
    Rest(&'a Box<Stmts>),
    /// The end of a scope in which these declare variables.
    Leave(&'a Stmts),
    Branch(&'a Box<Stmt>, Option<&'a Box<Stmt>>),
    Select(&'a Box<Groups>),
    /// The end of a `switch`.
    LeaveSwitch,
    /// The acts of a `for` header.
    Acts(&'a Box<Acts>),
    /// A statement ends normally.
    Complete,
    /// `return` of a value.
    Return,
}

//! What a C file says before typing: a node for each alternative of the grammar, with its names, its constants and
//! the places of its tokens.
#![tactic(auto)]

mod bases;
pub mod builders;
mod declarations;
mod expressions;
mod files;
mod operators;
mod statements;

pub use bases::{Base, Pointer, Specifier, TypeWord, Word};
pub use declarations::{
    Body, Declaration, Declarator, Enumerator, Field, Init, ItemBase, Param, Params, Value, Values,
};
pub use expressions::{Casts, Dim, Dims, Expr, Exprs, Suffixes, TypeName};
pub use files::{File, Item};
pub use operators::{Infix, Prefix, Setting, Step};
pub use statements::{Act, Group, Groups, Label, Part, Parts, Start, Stmt};

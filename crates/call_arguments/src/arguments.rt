//! What words mean for the parameters of a function.

ghost use Rattle.std.specs.Prelude.{◌≡◌, ◌<◌, ◌≤◌, ℕ, IfOk, IfSome, IfNone, length, map};
ghost use Rattle.std.specs.Borrow.{Bor};
ghost use Rattle.rvt_num.specs.declared.values.Value.{Value as AnyValue};
ghost use Rattle.call_arguments.specs.Arguments.{IsArgument};
ghost use Rattle.call_arguments.specs.Answers.{AreFor};

use crate::numbers::number_argument;
use crate::pointers::pointer_argument;
use rvt_num::Value;
use rvt_tree::{CType, Local, Program};
use std::alloc::{AllocError, Global};

/// What a word means for a parameter, if it means a value of its type.
pub fn argument_value(program: &Program, local: &Local, word: &str) -> Option<Value>
    ensures some { IfSome result (λ value. IsArgument program.now local.now.ty word.now value) }
    ensures none { IfNone result ((value : AnyValue) → IsArgument program.now local.now.ty word.now value → ⊥) }
{
    match &local.ty {
        CType::Word(kind) => number_argument(*kind, word),
        CType::Pointer(_, to_constant) => {
            pointer_argument(program.table.objects.as_slice(), *to_constant, word)
        }
        CType::Array(..) | CType::Struct(_) => None,
    }
}

/// What the words of a call are.
#[derive(Drop)]
pub enum Arguments {
    /// A value for each parameter.
    Values(Vec<Value>),
    /// So many words mean values of their parameters' types, and the next one means none.
    Bad(usize),
}

/// What the words mean for the parameters, one for each.
pub fn argument_values(
    alloc: Global,
    program: &Program,
    params: &[Local],
    words: &[&str],
) -> Result<Arguments, AllocError>
    requires { length words.now ≡ length params.now }
    ensures { IfOk result (λ arguments. AreFor program.now params.now (map (λ word. word.now) words.now) arguments) }
{
    let mut values = Vec::new(alloc);
    for (i, local) in params.iter().enumerate() {
        match argument_value(program, local, words[i]) {
            Some(value) => values.push(value)?,
            None => return Ok(Arguments::Bad(i)),
        }
    }
    Ok(Arguments::Values(values))
}

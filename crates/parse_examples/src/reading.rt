ghost use Rattle.std.specs.Prelude.{◌≡◌, IfOk, IfErr, length};
ghost use Rattle.c_parser.specs.File.{IsOnly, IsAnswered, IsRefused, taken};
ghost use Rattle.parse_examples.specs.Grammar.{rules};

use crate::grammar::{Action, Class, Lists};
use c_parser::{Fault, Step, Token, parse};
use std::alloc::Global;

/// The steps of reading a file of declarations and lists.
pub fn read_lists(alloc: Global, tokens: &[Token<Class>]) -> Result<Vec<Step<Action>>, Fault>
    ensures steps { IfOk result (λ steps. IsOnly rules tokens.now steps.items) }
    ensures taken { IfOk result (λ steps. taken steps.items ≡ length tokens.now) }
    ensures refused { IfErr result (λ e. IsAnswered rules tokens.now e) }
    ensures no_file { IfErr result (λ e. IsRefused rules tokens.now e) }
{
    parse::<Lists>(alloc, tokens)
}

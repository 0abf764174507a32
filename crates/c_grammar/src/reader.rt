//! The steps of reading a file.

ghost use Rattle.std.specs.Prelude.{◌≡◌, ◌<◌, length, slice_get, Some, All, IfOk, IfErr};
ghost use Rattle.c_lexer.specs.Texts.{StandsIn};
ghost use Rattle.c_parser.specs.File as file;
ghost use Rattle.c_parser.specs.File.{IsOnly, taken};
ghost use Rattle.c_grammar.specs.Grammar.{rules};
ghost use Rattle.c_grammar.specs.Terminals.{terminals_of};
ghost use Rattle.c_grammar.specs.Refusals.{IsRefusal, HasNoSteps, Says, unexpected_cause};

use crate::classes::is_left_out;
use crate::fault::{Cause, Fault};
use crate::grammar::{Action, CGrammar};
use crate::terminals::{terminals, text};
use c_lexer::{Place, Token};
use c_parser::{Step, parse};
use c_tokens::TokenClass;
use rvt_tree::Name;
use std::alloc::Global;

/// The steps of reading the tokens of a file, which ends at `end`.
pub fn steps(
    alloc: Global,
    bytes: &[u8],
    tokens: &[Token],
    end: Place,
) -> Result<Vec<Step<Action>>, Fault>
    requires { All (StandsIn bytes.now) tokens.now }
    ensures steps { IfOk result (λ steps. IsOnly rules (terminals_of bytes.now tokens.now) steps.items) }
    ensures taken { IfOk result (λ steps. taken steps.items ≡ length tokens.now) }
    ensures refused { IfErr result (IsRefusal bytes.now tokens.now end) }
    ensures no_file { IfErr result (HasNoSteps bytes.now tokens.now) }
{
    let terminals = terminals(alloc, bytes, tokens)?;
    match parse::<CGrammar>(alloc, &terminals) {
        Ok(steps) => Ok(steps),
        Err(c_parser::Fault::Memory) => Err(Fault::Memory),
        Err(c_parser::Fault::Refused(at, cause)) => {
            Err(refusal(alloc, bytes, tokens, end, at, cause))
        }
    }
}

/// What is told of the token at which reading stops, or of the end.
fn refusal(
    alloc: Global,
    bytes: &[u8],
    tokens: &[Token],
    end: Place,
    at: usize,
    cause: c_parser::Cause,
) -> Fault
    requires within { All (StandsIn bytes.now) tokens.now }
    requires refused { file.IsRefusal rules (terminals_of bytes.now tokens.now) at cause }
    ensures { IsRefusal bytes.now tokens.now end result }
{
    match cause {
        c_parser::Cause::UnexpectedEnd => said(alloc, end, Cause::UnexpectedEnd, b""),
        c_parser::Cause::TooDeep => {
            let token = token_at(tokens, at);
            said(alloc, token.place, Cause::TooDeep, text(bytes, &token))
        }
        c_parser::Cause::Unexpected => {
            let token = token_at(tokens, at);
            let cause = unexpected(token.class);
            said(alloc, token.place, cause, text(bytes, &token))
        }
    }
}

fn unexpected(class: TokenClass) -> Cause
    ensures { result ≡ unexpected_cause class }
{
    if is_left_out(class) {
        Cause::NotInProfile
    } else {
        Cause::Unexpected
    }
}

fn said(alloc: Global, place: Place, cause: Cause, text: &[u8]) -> Fault
    ensures { Says place cause text.now result }
{
    match Name::new(alloc, text) {
        Ok(word) => Fault::Refused(place, cause, word),
        Err(_) => Fault::Memory,
    }
}

fn token_at(tokens: &[Token], at: usize) -> Token
    requires { at < length tokens.now }
    ensures { slice_get tokens.now at ≡ Some result }
{
    tokens[at]
}

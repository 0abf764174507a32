//! The tree of a file.

ghost use Rattle.std.specs.Prelude.{◌≡◌, List, IfOk, IfErr};
ghost use Rattle.c_syntax.specs.Syntax.{ExternalItem};
ghost use Rattle.c_syntax.specs.Views.{file_view};
ghost use Rattle.c_lexer.specs.Spells as lexer;
ghost use Rattle.c_lexer.specs.Places.{place_after};
ghost use Rattle.c_grammar.specs.Refusals as parser;
ghost use Rattle.c_lexer.specs.Spells.{Spells};
ghost use Rattle.c_lexer.specs.declared.tokens.Token.{Token as TokenSpec};
ghost use Rattle.c_source.specs.Source as spec;
ghost use Rattle.c_source.specs.Source.{IsSource, IsFaultOf, HasNoSource};

use crate::refused::{Refusal, Refused};
use c_grammar::steps;
use c_lexer::{Place, Token, Tokens, lex};
use c_syntax::File;
use file_actions::file_tree;
use rvt_tree::Name;
use std::alloc::Global;

/// The tree of a C file. It is refused where it is none, at the first place that no file has so.
pub fn read(alloc: Global, bytes: &[u8]) -> Result<File, Refused>
    ensures file { IfOk result (λ file. IsSource bytes.now (file_view file)) }
    ensures only { IfOk result (λ file. (items : List ExternalItem) → IsSource bytes.now items → items ≡ file_view file) }
    ensures refused { IfErr result (IsFaultOf bytes.now) }
    ensures none { IfErr result (HasNoSource bytes.now) }
{
    let Tokens { list, end } = match lex(alloc, bytes) {
        Ok(tokens) => tokens,
        Err(fault) => return Err(unspelled(alloc, bytes, fault)),
    };
    let steps = match steps(alloc, bytes, &list, end) {
        Ok(steps) => steps,
        Err(fault) => return Err(unread(bytes, &list, end, fault)),
    };
    match file_tree(alloc, bytes, &list, &steps) {
        Ok(file) => Ok(file),
        Err(expression_actions::Fault::Memory) => Err(Refused::Memory),
        // each action finds its values
        Err(expression_actions::Fault::Missing) => unreachable!(),
    }
}

/// The bytes spell no tokens.
fn unspelled(alloc: Global, bytes: &[u8], fault: c_lexer::Fault) -> Refused
    requires refused { lexer.IsFaultOf bytes.now fault }
    requires none { lexer.HasNoTokens bytes.now fault }
    ensures refused { IsFaultOf bytes.now result }
    ensures none { HasNoSource bytes.now result }
{
    match fault {
        c_lexer::Fault::Memory => Refused::Memory,
        c_lexer::Fault::Refused(place, cause) => {
            let number = lexer_number(cause);
            match Name::new(alloc, b"") {
                Ok(word) => Refused::Source(Refusal {
                    place,
                    cause: number,
                    word,
                }),
                Err(_) => Refused::Memory,
            }
        }
    }
}

/// The tokens are no file.
fn unread(bytes: &[u8], tokens: &[Token], end: Place, fault: c_grammar::Fault) -> Refused
    requires spelled { Spells bytes.now tokens.now }
    requires only { (others : List TokenSpec) → Spells bytes.now others → others ≡ tokens.now }
    requires last { end ≡ place_after bytes.now }
    requires refused { parser.IsRefusal bytes.now tokens.now end fault }
    requires none { parser.HasNoSteps bytes.now tokens.now fault }
    ensures refused { IsFaultOf bytes.now result }
    ensures none { HasNoSource bytes.now result }
{
    match fault {
        c_grammar::Fault::Memory => Refused::Memory,
        c_grammar::Fault::Refused(place, cause, word) => Refused::Source(Refusal {
            place,
            cause: parser_number(cause),
            word,
        }),
    }
}

fn lexer_number(cause: c_lexer::Cause) -> u16
    ensures { result ≡ spec.lexer_number cause }
{
    match cause {
        c_lexer::Cause::BadByte => 1,
        c_lexer::Cause::CommentNotClosed => 2,
        c_lexer::Cause::BadNumber => 3,
        c_lexer::Cause::BadCharacter => 4,
        c_lexer::Cause::BadDirective => 5,
        c_lexer::Cause::BadDefine => 6,
        c_lexer::Cause::TooManyTokens => 7,
    }
}

fn parser_number(cause: c_grammar::Cause) -> u16
    ensures { result ≡ spec.parser_number cause }
{
    match cause {
        c_grammar::Cause::Unexpected => 11,
        c_grammar::Cause::UnexpectedEnd => 11,
        c_grammar::Cause::TooDeep => 12,
        c_grammar::Cause::NotInProfile => 13,
    }
}

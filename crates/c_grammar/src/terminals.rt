//! The tokens of a file as the grammar sees them.

ghost use Rattle.std.specs.Prelude.{◌≡◌, [], All, IfOk, IfErr, OnOk};
ghost use Rattle.c_lexer.specs.Texts.{text_of, StandsIn};
ghost use Rattle.c_grammar.specs.declared.fault.Fault.TheVariants.{Memory};
ghost use Rattle.c_grammar.specs.Terminals as spec;
ghost use Rattle.c_grammar.specs.Terminals.{with_token, terminals_of};

use crate::classes::class_before;
use crate::fault::Fault;
use crate::grammar::Class;
use crate::names::Names;
use c_lexer::Token;
use c_parser::Token as Terminal;
use c_tokens::TokenClass;
use std::alloc::Global;

/// The bytes of a token.
pub fn text<'a>(bytes: &'a [u8], token: &Token) -> &'a [u8]
    requires { StandsIn bytes.now token.now }
    ensures { result.now ≡ text_of bytes.now token.now }
{
    &bytes[token.start..token.end]
}

fn is_word(class: TokenClass) -> bool
    ensures { result ≡ spec.is_word class }
{
    match class {
        TokenClass::Word => true,
        TokenClass::Keyword(_) => false,
        TokenClass::Constant(_) => false,
        TokenClass::Character(_) => false,
        TokenClass::Literal => false,
        TokenClass::Punct(_) => false,
    }
}

/// The number of a token, whose name is among the names from here on if it is a word.
fn number<'a>(bytes: &'a [u8], token: &Token, names: &mut Names<'a>) -> Result<u32, Fault>
    requires { StandsIn bytes.now token.now }
    ensures number { IfOk result (λ number. number ≡ spec.number_among names.old bytes.now token.now) }
    ensures names { OnOk result (names.new ≡ with_token names.old bytes.now token.now) }
    ensures memory { IfErr result (λ fault. fault ≡ Memory) }
{
    if !is_word(token.class) {
        return Ok(0);
    }
    let number = names.number(text(bytes, token))?;
    Ok(number)
}

/// The tokens of a file as the grammar sees them: a name's number is its place among the different names of the file.
pub fn terminals(
    alloc: Global,
    bytes: &[u8],
    tokens: &[Token],
) -> Result<Vec<Terminal<Class>>, Fault>
    requires { All (StandsIn bytes.now) tokens.now }
    ensures terminals { IfOk result (λ terminals. terminals.items ≡ terminals_of bytes.now tokens.now) }
    ensures memory { IfErr result (λ fault. fault ≡ Memory) }
{
    let mut names = Names::new(alloc);
    let mut terminals = Vec::new(alloc);
    let mut left = tokens;
    'tokens: while let Some((token, rest)) = left.split_first() {
        let class = class_before(text(bytes, token), &token.class, rest);
        let name = number(bytes, token, &mut names)?;
        terminals.push(Terminal { class, name })?;
        left = rest;
    }
    Ok(terminals)
}

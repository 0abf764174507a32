//! The tree of a file, from the steps of reading it.

ghost use Rattle.std.specs.Prelude.{◌≡◌, [], min, All, Some, None, IfOk, IfErr};
ghost use Rattle.c_lexer.specs.Texts.{StandsIn};
ghost use Rattle.c_syntax.specs.Views.{file_view};
ghost use Rattle.c_tokens.specs.declared.tokens.TokenClass.TheVariants as T;
ghost use Rattle.expression_actions.specs.Follows.{Follows};
ghost use Rattle.file_actions.specs.Made.{made};
ghost use Rattle.file_actions.specs.Shown.{shown};
ghost use Rattle.file_actions.specs.Tree as spec;
ghost use Rattle.file_actions.specs.Tree.{after_steps, items_of, IsMissing};

use crate::external_parts::Externals;
use crate::parts::Parts;
use c_grammar::{Action, text};
use c_lexer::Token;
use c_parser::Step;
use c_syntax::File;
use c_tokens::TokenClass;
use expression_actions::Fault;
use rvt_tree::Place;
use sqlite_items::Items;
use std::alloc::Global;

/// The tree of a file, whose tokens were read by these steps.
pub fn file_tree(
    alloc: Global,
    bytes: &[u8],
    tokens: &[Token],
    steps: &[Step<Action>],
) -> Result<File, Fault>
    requires { All (StandsIn bytes.now) tokens.now }
    ensures tree { IfOk result (λ file. items_of bytes.now tokens.now steps.now ≡ Some (file_view file)) }
    ensures missing { IfErr result (IsMissing (items_of bytes.now tokens.now steps.now)) }
{
    let mut parts = Parts::new(alloc);
    follow(alloc, bytes, tokens, steps, &mut parts)?;
    let Parts { externals, .. } = parts;
    let Externals { items, .. } = externals;
    Ok(File {
        items: Items::from_vec(items),
    })
}

/// Does what the steps say.
fn follow(
    alloc: Global,
    bytes: &[u8],
    tokens: &[Token],
    steps: &[Step<Action>],
    parts: &mut Parts,
) -> Result<(), Fault>
    requires { All (StandsIn bytes.now) tokens.now }
    ensures { Follows result (shown parts.new) (after_steps bytes.now tokens.now T.Word [] (record { line = 1; column = 1 }) steps.now (shown parts.old)) }
{
    let mut tokens = tokens;
    let mut class = TokenClass::Word;
    let mut read: &[u8] = b"";
    let mut place = Place { line: 1, column: 1 };
    let mut steps = steps;
    'steps: while let [step, later @ ..] = steps {
        steps = later;
        match *step {
            Step::Make(action) => make(alloc, action, &class, read, place, parts)?,
            Step::Token => {
                let [token, left @ ..] = tokens else {
                    return Err(Fault::Missing);
                };
                class = token.class;
                read = text(bytes, token);
                place = tree_place(token.place);
                tokens = left;
            }
        }
    }
    Ok(())
}

/// Does what the action says, where a token of this class and text was read last, at this place.
fn make(
    alloc: Global,
    action: Action,
    class: &TokenClass,
    text: &[u8],
    place: Place,
    parts: &mut Parts,
) -> Result<(), Fault>
    ensures { Follows result (shown parts.new) (made action class.now text.now place (shown parts.old)) }
{
    parts.make(alloc, action, *class, text, place)
}

/// The place of a token as a tree keeps it.
fn tree_place(place: c_lexer::Place) -> Place
    ensures { result ≡ spec.tree_place place }
{
    Place {
        line: tree_number(place.line),
        column: tree_number(place.column),
    }
}

fn tree_number(number: usize) -> u32
    ensures { result ≡ min number 4294967295 }
{
    number.min(4294967295) as u32
}

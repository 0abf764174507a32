//! The commands.

ghost use Rattle.std.specs.Prelude.{◌≡◌, List, ℕ, IfOk, IfSome, IfNone, map, true, ◌∷◌, Option};
ghost use Rattle.std.specs.String.{string_bytes};
ghost use Rattle.command_words.specs.Commands.{Asked, IsCommand, asked, are_texts, texts, StandsOnce};
ghost use Rattle.command_words.specs.Options.{word_of};
ghost use Rattle.command_words.specs.Scan.{setting_of};
ghost use Rattle.command_words.specs.Spellings.{value_in};

use crate::lines::{Setting, read_line};
use crate::numbers::steps_of;
use crate::options::{Flag, Verb};
use std::alloc::{AllocError, Global};

/// `compare OLD NEW [--map F]`
#[derive(Clone, Copy, Drop)]
pub struct Comparison<'a> {
    pub old_name: &'a str,
    pub new_name: &'a str,
    pub map: Option<&'a str>,
}

/// `run FILE FUNCTION [ARG]... [--steps N]`
#[derive(Drop)]
pub struct FunctionRun<'a> {
    pub file: &'a str,
    pub function: &'a str,
    pub arguments: Vec<&'a str>,
    pub steps: u64,
}

/// What the words after the program's name ask for.
#[derive(Drop)]
pub enum Command<'a> {
    Compare(Comparison<'a>),
    Run(FunctionRun<'a>),
}

/// The command that the words are, if they are one.
pub fn read_words<'a>(alloc: Global, words: &'a [String]) -> Result<Option<Command<'a>>, AllocError>
    ensures command { IfOk result (λ read. IfSome read (λ command. IsCommand (map string_bytes words.now) (asked command))) }
    ensures none { IfOk result (λ read. IfNone read ((command : Asked) → IsCommand (map string_bytes words.now) command → ⊥)) }
    ensures texts { IfOk result (λ read. IfSome read (λ command. are_texts (asked command) ≡ true)) }
{
    let (word, words) = match words {
        [word, words @ ..] => (word.as_str(), words),
        [] => return Ok(None),
    };
    if word == "compare" {
        return compare(alloc, words);
    }
    if word == "run" {
        return run(alloc, words);
    }
    Ok(None)
}

/// `compare`, by the words behind it.
fn compare<'a>(alloc: Global, words: &'a [String]) -> Result<Option<Command<'a>>, AllocError>
    ensures command { IfOk result (λ read. IfSome read (λ command. IsCommand (word_of Verb.Compare ∷ map string_bytes words.now) (asked command))) }
    ensures none { IfOk result (λ read. IfNone read ((command : Asked) → IsCommand (word_of Verb.Compare ∷ map string_bytes words.now) command → ⊥)) }
    ensures texts { IfOk result (λ read. IfSome read (λ command. are_texts (asked command) ≡ true)) }
{
    let line = match read_line(alloc, Verb::Compare, words)? {
        Some(line) => line,
        None => return Ok(None),
    };
    let map = match once(line.settings.as_slice(), Flag::Map) {
        Some(map) => map,
        None => return Ok(None),
    };
    let names = match first_two(line.names.as_slice()) {
        Some(names) => names,
        None => return Ok(None),
    };
    if !names.rest.is_empty() {
        return Ok(None);
    }
    Ok(Some(Command::Compare(Comparison {
        old_name: names.first,
        new_name: names.second,
        map,
    })))
}

/// `run`, by the words behind it.
fn run<'a>(alloc: Global, words: &'a [String]) -> Result<Option<Command<'a>>, AllocError>
    ensures command { IfOk result (λ read. IfSome read (λ command. IsCommand (word_of Verb.Run ∷ map string_bytes words.now) (asked command))) }
    ensures none { IfOk result (λ read. IfNone read ((command : Asked) → IsCommand (word_of Verb.Run ∷ map string_bytes words.now) command → ⊥)) }
    ensures texts { IfOk result (λ read. IfSome read (λ command. are_texts (asked command) ≡ true)) }
{
    let line = match read_line(alloc, Verb::Run, words)? {
        Some(line) => line,
        None => return Ok(None),
    };
    let value = match once(line.settings.as_slice(), Flag::Steps) {
        Some(value) => value,
        None => return Ok(None),
    };
    let steps = match steps_of(value) {
        Some(steps) => steps,
        None => return Ok(None),
    };
    let names = match first_two(line.names.as_slice()) {
        Some(names) => names,
        None => return Ok(None),
    };
    Ok(Some(Command::Run(FunctionRun {
        file: names.first,
        function: names.second,
        arguments: Vec::from_slice(alloc, names.rest)?,
        steps,
    })))
}

/// The first two of some names, and those behind them.
#[derive(Clone, Copy, Drop)]
struct Names<'a, 'b> {
    first: &'a str,
    second: &'a str,
    rest: &'b [&'a str],
}

/// The first two names, if there are two.
fn first_two<'a, 'b>(names: &'b [&'a str]) -> Option<Names<'a, 'b>>
    ensures some { IfSome result (λ two. texts names.now ≡ two.first.now ∷ two.second.now ∷ texts two.rest.now) }
    ensures none { IfNone result ((first second : List ℕ) (rest : List (List ℕ)) → texts names.now ≡ first ∷ second ∷ rest → ⊥) }
{
    match names {
        [first, second, rest @ ..] => Some(Names {
            first,
            second,
            rest,
        }),
        _ => None,
    }
}

/// The value of an option that stands once at most, if it stands; nothing where it stands more often.
fn once<'a>(settings: &[Setting<'a>], flag: Flag) -> Option<Option<&'a str>>
    ensures some { IfSome result (λ value. StandsOnce flag (map setting_of settings.now) (value_in value)) }
    ensures none { IfNone result ((value : Option (List ℕ)) → StandsOnce flag (map setting_of settings.now) value → ⊥) }
{
    let mut found = None;
    for setting in settings {
        if setting.flag.is(flag) {
            if found.is_some() {
                return None;
            }
            found = Some(setting.value);
        }
    }
    Some(found)
}

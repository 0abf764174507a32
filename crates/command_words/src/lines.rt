//! The words behind a command.

ghost use Rattle.std.specs.Prelude.{◌≡◌, Option, Some, IfOk, map, option_map};
ghost use Rattle.std.specs.String.{string_bytes};
ghost use Rattle.command_words.specs.Scan.{Said, said_by, scan, step, open_step, option_step, joined_to, after};
ghost use Rattle.command_words.specs.Spellings.{cut, option_in, spelled_in, spelling_of, value_in};

use crate::options::{Flag, Verb};
use crate::texts::{begins_with_dash, is_text};
use std::alloc::{AllocError, Global};

/// An option, and its value: empty where it has none.
#[derive(Clone, Copy, Drop)]
pub struct Setting<'a> {
    pub flag: Flag,
    pub value: &'a str,
}

/// What the words behind a command say.
#[derive(Drop)]
pub struct Line<'a> {
    /// The positional words.
    pub names: Vec<&'a str>,
    pub settings: Vec<Setting<'a>>,
}

/// What the next word may be.
#[derive(Clone, Copy, Debug)]
enum State {
    Open,
    /// It is the value of this option.
    Waiting(Flag),
    /// It stands behind `--`.
    Behind,
}

/// What the words behind a command say, if they may stand there.
pub fn read_line<'a>(
    alloc: Global,
    verb: Verb,
    words: &'a [String],
) -> Result<Option<Line<'a>>, AllocError>
    ensures { IfOk result (λ line. option_map said_by line ≡ scan verb State.Open (map string_bytes words.now)) }
{
    let mut line = Line {
        names: Vec::new(alloc),
        settings: Vec::new(alloc),
    };
    let mut state = State::Open;
    for word in words {
        match line.add(verb, state, word.as_str())? {
            Some(next) => state = next,
            None => return Ok(None),
        }
    }
    match state {
        State::Waiting(_) => Ok(None),
        State::Open | State::Behind => Ok(Some(line)),
    }
}

/// An option as it is spelled: with its value, where that is joined to it by a `=`.
#[derive(Clone, Copy, Drop)]
struct Spelling<'a> {
    flag: Flag,
    value: Option<&'a str>,
}

/// A text up to its first `=`, and what stands behind that.
fn cut(text: &str) -> (&str, Option<&str>)
    ensures name { result.0.now ≡ (cut text.now).0 }
    ensures value { value_in result.1 ≡ (cut text.now).1 }
{
    match text.split_once('=') {
        Some((name, value)) => (name, Some(value)),
        None => (text, None),
    }
}

/// The option that stands behind `--`.
fn option_in(text: &str) -> Option<Spelling<'_>>
    ensures { option_map spelled_in result ≡ option_in text.now }
{
    let (name, value) = cut(text);
    match Flag::named(name) {
        Some(flag) => Some(Spelling { flag, value }),
        None => None,
    }
}

/// The option that a word spells.
fn spelling_of(word: &str) -> Option<Spelling<'_>>
    ensures { option_map spelled_in result ≡ spelling_of word.now }
{
    match word.strip_prefix("--") {
        Some(text) => option_in(text),
        None => None,
    }
}

impl<'a> Line<'a> {
    /// Takes the next word, and answers what may stand behind it, or nothing where the word can't stand there.
    fn add(&mut self, verb: Verb, state: State, word: &'a str) -> Result<Option<State>, AllocError>
        ensures { IfOk result (λ next. (go : State → Option Said) → joined_to self.old (step verb state word.now go) ≡ after self.new next go) }
    {
        if !is_text(word) {
            return Ok(None);
        }
        match state {
            State::Open => self.add_open(verb, word),
            State::Waiting(flag) => {
                if begins_with_dash(word) {
                    return Ok(None);
                }
                self.settings.push(Setting { flag, value: word })?;
                Ok(Some(State::Open))
            }
            State::Behind => {
                self.names.push(word)?;
                Ok(Some(State::Behind))
            }
        }
    }

    /// The same of a word that isn't the value of an option, before `--`.
    fn add_open(&mut self, verb: Verb, word: &'a str) -> Result<Option<State>, AllocError>
        ensures { IfOk result (λ next. (go : State → Option Said) → joined_to self.old (open_step verb word.now go) ≡ after self.new next go) }
    {
        if !begins_with_dash(word) {
            self.names.push(word)?;
            return Ok(Some(State::Open));
        }
        if word == "--" {
            return Ok(Some(State::Behind));
        }
        match spelling_of(word) {
            Some(spelling) => self.add_option(verb, spelling),
            None => Ok(None),
        }
    }

    /// The same of an option.
    fn add_option(
        &mut self,
        verb: Verb,
        spelling: Spelling<'a>,
    ) -> Result<Option<State>, AllocError>
        ensures { IfOk result (λ next. (go : State → Option Said) → joined_to self.old (option_step verb (Some (spelled_in spelling.entry)) go) ≡ after self.new next go) }
    {
        let flag = spelling.flag;
        if !verb.takes(flag) {
            return Ok(None);
        }
        match spelling.value {
            Some(value) if flag.has_value() && is_text(value) => {
                self.settings.push(Setting { flag, value })?;
                Ok(Some(State::Open))
            }
            Some(_) => Ok(None),
            None if flag.has_value() => Ok(Some(State::Waiting(flag))),
            None => {
                self.settings.push(Setting { flag, value: "" })?;
                Ok(Some(State::Open))
            }
        }
    }
}

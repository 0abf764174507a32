//! Reads tokens by the grammar, one symbol after another.

ghost use Rattle.std.specs.Prelude.{◌≡◌, ◌++◌, IfOk, IfErr, OnOk, length};
ghost use Rattle.c_parser.specs.declared.symbol.Symbol.TheVariants as symbol;
ghost use Rattle.c_parser.specs.File.{IsOnly, IsAnswered, IsRefused, taken};
ghost use Rattle.c_parser.specs.Stands.{StandsBefore, StandsAt, Advances};

use crate::choose::{choose, choose_at_end, is_same};
use crate::fault::{Cause, Fault};
use crate::grammar::Grammar;
use value_stack::Stack;
use crate::state::{State, before_all, class_of, read, turn};
use crate::symbol::{Effect, Step, Symbol, Token, Turn};
use std::alloc::{AllocError, Global};

/// What is still to be read, and what has been done.
#[derive(Drop)]
pub struct Machine<C, L, A> {
    /// What has been read, as far as later tokens depend on it.
    pub state: State,
    /// The symbols that are still to be read, the next one on top.
    pub row: Stack<Symbol<C, L, A>>,
    /// The number of the next token.
    pub at: usize,
    /// The steps that were done.
    pub steps: Vec<Step<A>>,
}

fn push_row<T: Copy + Drop>(stack: &mut Stack<T>, row: &[T]) -> Result<(), AllocError>
    ensures { OnOk result (stack.new ≡ row.now ++ stack.old) }
{
    let mut left = row.len();
    while left > 0 {
        left -= 1;
        stack.push(row[left])?;
    }
    Ok(())
}

/// Reads a token of the class.
fn take_token<G: Grammar>(
    tokens: &[Token<G::Class>],
    class: G::Class,
    effect: Effect,
    machine: Machine<G::Class, G::Line, G::Action>,
) -> Result<Machine<G::Class, G::Line, G::Action>, Fault>
    requires { StandsBefore G.rules G.table tokens.now (symbol.Token class effect) machine }
    ensures { Advances G.rules G.table tokens.now result }
{
    let Machine {
        state,
        row,
        at,
        mut steps,
    } = machine;
    if at >= tokens.len() {
        return Err(Fault::Refused(tokens.len(), Cause::UnexpectedEnd));
    }
    let token = tokens[at];
    if !is_same::<G>(class_of::<G>(&state, token), class) {
        return Err(Fault::Refused(at, Cause::Unexpected));
    }
    let Some(state) = read(effect, state, token)? else {
        return Err(Fault::Refused(at, Cause::TooDeep));
    };
    steps.push(Step::Token)?;
    Ok(Machine {
        state,
        row,
        at: at + 1,
        steps,
    })
}

/// Goes on with the alternative of the line that the next token chooses.
fn expand<G: Grammar>(
    tokens: &[Token<G::Class>],
    line: G::Line,
    machine: Machine<G::Class, G::Line, G::Action>,
) -> Result<Machine<G::Class, G::Line, G::Action>, Fault>
    requires { StandsBefore G.rules G.table tokens.now (symbol.Line line) machine }
    ensures { Advances G.rules G.table tokens.now result }
{
    let Machine {
        state,
        mut row,
        at,
        steps,
    } = machine;
    if at >= tokens.len() {
        let Some(chosen) = choose_at_end::<G>(line) else {
            return Err(Fault::Refused(tokens.len(), Cause::UnexpectedEnd));
        };
        push_row(&mut row, chosen)?;
        return Ok(Machine {
            state,
            row,
            at,
            steps,
        });
    }
    let Some(chosen) = choose::<G>(line, class_of::<G>(&state, tokens[at])) else {
        return Err(Fault::Refused(at, Cause::Unexpected));
    };
    push_row(&mut row, chosen)?;
    Ok(Machine {
        state,
        row,
        at,
        steps,
    })
}

/// Tells of the action.
fn act<G: Grammar>(
    tokens: &[Token<G::Class>],
    action: G::Action,
    machine: Machine<G::Class, G::Line, G::Action>,
) -> Result<Machine<G::Class, G::Line, G::Action>, Fault>
    requires { StandsBefore G.rules G.table tokens.now (symbol.Make action) machine }
    ensures { Advances G.rules G.table tokens.now result }
{
    let Machine {
        state,
        row,
        at,
        mut steps,
    } = machine;
    steps.push(Step::Make(action))?;
    Ok(Machine {
        state,
        row,
        at,
        steps,
    })
}

fn take_turn<G: Grammar>(
    tokens: &[Token<G::Class>],
    way: Turn,
    machine: Machine<G::Class, G::Line, G::Action>,
) -> Result<Machine<G::Class, G::Line, G::Action>, Fault>
    requires { StandsBefore G.rules G.table tokens.now (symbol.Turn way) machine }
    ensures { Advances G.rules G.table tokens.now result }
{
    let Machine {
        state,
        row,
        at,
        steps,
    } = machine;
    let state = turn(way, state)?;
    Ok(Machine {
        state,
        row,
        at,
        steps,
    })
}

/// Sees that the next token isn't of the class.
fn look<G: Grammar>(
    tokens: &[Token<G::Class>],
    class: G::Class,
    machine: Machine<G::Class, G::Line, G::Action>,
) -> Result<Machine<G::Class, G::Line, G::Action>, Fault>
    requires { StandsBefore G.rules G.table tokens.now (symbol.NotNext class) machine }
    ensures { Advances G.rules G.table tokens.now result }
{
    let Machine {
        state,
        row,
        at,
        steps,
    } = machine;
    if at < tokens.len() && is_same::<G>(class_of::<G>(&state, tokens[at]), class) {
        return Err(Fault::Refused(at, Cause::Unexpected));
    }
    Ok(Machine {
        state,
        row,
        at,
        steps,
    })
}

fn step<G: Grammar>(
    tokens: &[Token<G::Class>],
    symbol: Symbol<G::Class, G::Line, G::Action>,
    machine: Machine<G::Class, G::Line, G::Action>,
) -> Result<Machine<G::Class, G::Line, G::Action>, Fault>
    requires { StandsBefore G.rules G.table tokens.now symbol machine }
    ensures { Advances G.rules G.table tokens.now result }
{
    match symbol {
        Symbol::Token(class, effect) => take_token::<G>(tokens, class, effect, machine),
        Symbol::Line(line) => expand::<G>(tokens, line, machine),
        Symbol::Make(action) => act::<G>(tokens, action, machine),
        Symbol::Turn(way) => take_turn::<G>(tokens, way, machine),
        Symbol::NotNext(class) => look::<G>(tokens, class, machine),
    }
}

/// The steps of reading the tokens as a file of the grammar.
///
/// The time is linear in the tokens, and the only thing that grows with the nesting is a stack in memory.
pub fn parse<G: Grammar>(
    alloc: Global,
    tokens: &[Token<G::Class>],
) -> Result<Vec<Step<G::Action>>, Fault>
    ensures steps { IfOk result (λ steps. IsOnly G.rules tokens.now steps.items) }
    ensures taken { IfOk result (λ steps. taken steps.items ≡ length tokens.now) }
    ensures refused { IfErr result (λ e. IsAnswered G.rules tokens.now e) }
    ensures no_file { IfErr result (λ e. IsRefused G.rules tokens.now e) }
{
    let mut row = Stack::new(alloc);
    row.push(Symbol::Line(G::start()))?;
    let mut machine = Machine {
        state: before_all(alloc),
        row,
        at: 0,
        steps: Vec::new(alloc),
    };
    // (no file needs that many turns: there are a few for each token)
    for _ in 0..u64::MAX {
        match machine.row.pop() {
            Some(symbol) => machine = step::<G>(tokens, symbol, machine)?,
            None => {
                if machine.at < tokens.len() {
                    return Err(Fault::Refused(machine.at, Cause::Unexpected));
                }
                let Machine {
                    state: _,
                    row: _,
                    at: _,
                    steps,
                } = machine;
                return Ok(steps);
            }
        }
    }
    Err(Fault::Memory)
}

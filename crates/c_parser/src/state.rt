ghost use Rattle.std.specs.Prelude.{◌≡◌, IfOk};
ghost use Rattle.c_parser.specs.State.{class_at, after, turned, start, max_levels};

use crate::choose::is_same;
use crate::grammar::Grammar;
use crate::names::Names;
use value_stack::Stack;
use crate::symbol::{Effect, Token, Turn};
use std::alloc::{AllocError, Global};

/// What has been read so far, as far as later tokens depend on it.
#[derive(Drop)]
pub struct State {
    /// The typedef names that count.
    pub known: Names,
    /// Those that were declared and don't count yet.
    pub fresh: Stack<u32>,
    /// How many levels are open.
    pub level: u32,
    /// How many were open where each part round this place began, the innermost first.
    pub outer: Stack<u32>,
}

/// How many levels may be open.
pub const MAX_LEVELS: u32 = 100;

/// The class of a token: a name is a typedef name where it is known as one.
#[tactic(auto, unfolding(crate::specs::State::class_at))]
pub fn class_of<G: Grammar>(state: &State, token: Token<G::Class>) -> G::Class
    ensures { result ≡ class_at G.rules state.now token }
{
    if is_same::<G>(token.class, G::name()) && state.known.has(token.name) {
        G::type_name()
    } else {
        token.class
    }
}

/// Before the first token.
#[tactic(auto, unfolding(crate::specs::State::start))]
pub fn before_all(alloc: Global) -> State
    ensures { result ≡ start }
{
    State {
        known: Names::new(alloc),
        fresh: Stack::new(alloc),
        level: 0,
        outer: Stack::new(alloc),
    }
}

/// The state after a token, if a level may still be opened.
#[tactic(auto, unfolding(crate::specs::State::after))]
pub fn read<C: Copy>(
    effect: Effect,
    state: State,
    token: Token<C>,
) -> Result<Option<State>, AllocError>
    ensures { IfOk result (λ next. next ≡ after max_levels effect state token) }
{
    let State {
        known,
        mut fresh,
        mut level,
        outer,
    } = state;
    match effect {
        Effect::Nothing => {}
        Effect::Opens => {
            if level >= MAX_LEVELS {
                return Ok(None);
            }
            level += 1;
        }
        Effect::Declares => fresh.push(token.name)?,
    }
    Ok(Some(State {
        known,
        fresh,
        level,
        outer,
    }))
}

/// The state after a turn.
#[tactic(auto, unfolding(crate::specs::State::turned))]
pub fn turn(turn: Turn, state: State) -> Result<State, AllocError>
    ensures { IfOk result (λ next. next ≡ turned turn state) }
{
    let State {
        mut known,
        mut fresh,
        mut level,
        mut outer,
    } = state;
    match turn {
        Turn::Learn => known.add_all(&mut fresh)?,
        Turn::Enter => outer.push(level)?,
        Turn::Leave => {
            if let Some(before) = outer.pop() {
                level = before;
            }
        }
    }
    Ok(State {
        known,
        fresh,
        level,
        outer,
    })
}

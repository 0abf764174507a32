//! Which texts are tokens (C 6.4), and which token begins a text.
#![tactic(auto)]

mod bytes;
mod constants;
mod digits;
mod front;
mod quotes;
mod tables;
mod tokens;

pub use bytes::{is_digit, is_letter, is_name_byte, is_space, is_text_byte};
pub use front::{Front, NoToken, first_token};
pub use tokens::{Keyword, Punctuator, TokenClass};

//! What a token is to the grammar.

ghost use Rattle.std.specs.Prelude.{◌≡◌};
ghost use Rattle.std.specs.List.{list_any};
ghost use Rattle.std.specs.Str.{bytes_eq};
ghost use Rattle.c_grammar.specs.Classes as spec;

use crate::grammar::Class;
use c_lexer::Token;
use c_tokens::{Keyword, Punctuator, TokenClass};

/// The names of types that are built in.
const BUILT_IN_TYPES: [&str; 10] = [
    "size_t", "bool", "int8_t", "int16_t", "int32_t", "int64_t", "uint8_t", "uint16_t", "uint32_t",
    "uint64_t",
];

fn is_one_of(text: &[u8], mut words: &[&str]) -> bool
    ensures { result ≡ list_any (λ word. bytes_eq word.now text.now) words.entry.now }
{
    'words: while let [word, rest @ ..] = words {
        if word.as_bytes() == text {
            return true;
        }
        words = rest;
    }
    false
}

fn word_class(text: &[u8]) -> Class
    ensures { result ≡ spec.word_class text.now }
{
    if is_one_of(text, &BUILT_IN_TYPES) {
        Class::TypeName
    } else {
        Class::Name
    }
}

fn keyword_class(keyword: Keyword) -> Class
    ensures { result ≡ spec.keyword_class keyword }
{
    match keyword {
        Keyword::Auto => Class::Other,
        Keyword::Break => Class::Break,
        Keyword::Case => Class::Case,
        Keyword::Char => Class::Char,
        Keyword::Const => Class::Const,
        Keyword::Continue => Class::Continue,
        Keyword::Default => Class::Default,
        Keyword::Do => Class::Do,
        Keyword::Double => Class::Other,
        Keyword::Else => Class::Else,
        Keyword::Enum => Class::Enum,
        Keyword::Extern => Class::Extern,
        Keyword::Float => Class::Other,
        Keyword::For => Class::For,
        Keyword::Goto => Class::Other,
        Keyword::If => Class::If,
        Keyword::Inline => Class::Inline,
        Keyword::Int => Class::Int,
        Keyword::Long => Class::Long,
        Keyword::Register => Class::Register,
        Keyword::Restrict => Class::Restrict,
        Keyword::Return => Class::Return,
        Keyword::Short => Class::Short,
        Keyword::Signed => Class::Signed,
        Keyword::Sizeof => Class::Sizeof,
        Keyword::Static => Class::Static,
        Keyword::Struct => Class::Struct,
        Keyword::Switch => Class::Switch,
        Keyword::Typedef => Class::Typedef,
        Keyword::Union => Class::Other,
        Keyword::Unsigned => Class::Unsigned,
        Keyword::Void => Class::Void,
        Keyword::Volatile => Class::Other,
        Keyword::While => Class::While,
        Keyword::Alignas => Class::Other,
        Keyword::Alignof => Class::Other,
        Keyword::Atomic => Class::Other,
        Keyword::Bool => Class::Bool,
        Keyword::Complex => Class::Other,
        Keyword::Generic => Class::Other,
        Keyword::Imaginary => Class::Other,
        Keyword::Noreturn => Class::Other,
        Keyword::StaticAssert => Class::Other,
        Keyword::ThreadLocal => Class::Other,
    }
}

fn punctuator_class(punctuator: Punctuator) -> Class
    ensures { result ≡ spec.punctuator_class punctuator }
{
    match punctuator {
        Punctuator::LeftBracket => Class::LeftBracket,
        Punctuator::RightBracket => Class::RightBracket,
        Punctuator::LeftParen => Class::LeftParen,
        Punctuator::RightParen => Class::RightParen,
        Punctuator::LeftBrace => Class::LeftBrace,
        Punctuator::RightBrace => Class::RightBrace,
        Punctuator::Dot => Class::Dot,
        Punctuator::Arrow => Class::Arrow,
        Punctuator::Increment => Class::Increment,
        Punctuator::Decrement => Class::Decrement,
        Punctuator::Ampersand => Class::Ampersand,
        Punctuator::Star => Class::Star,
        Punctuator::Plus => Class::Plus,
        Punctuator::Minus => Class::Minus,
        Punctuator::Tilde => Class::Tilde,
        Punctuator::Exclamation => Class::Exclamation,
        Punctuator::Slash => Class::Slash,
        Punctuator::Percent => Class::Percent,
        Punctuator::ShiftLeft => Class::ShiftLeft,
        Punctuator::ShiftRight => Class::ShiftRight,
        Punctuator::Less => Class::Less,
        Punctuator::Greater => Class::Greater,
        Punctuator::LessEqual => Class::LessEqual,
        Punctuator::GreaterEqual => Class::GreaterEqual,
        Punctuator::EqualEqual => Class::EqualEqual,
        Punctuator::NotEqual => Class::NotEqual,
        Punctuator::Caret => Class::Caret,
        Punctuator::Bar => Class::Bar,
        Punctuator::AndAnd => Class::AndAnd,
        Punctuator::OrOr => Class::OrOr,
        Punctuator::Question => Class::Question,
        Punctuator::Colon => Class::Colon,
        Punctuator::Semicolon => Class::Semicolon,
        Punctuator::Ellipsis => Class::Other,
        Punctuator::Equal => Class::Equal,
        Punctuator::StarEqual => Class::StarEqual,
        Punctuator::SlashEqual => Class::SlashEqual,
        Punctuator::PercentEqual => Class::PercentEqual,
        Punctuator::PlusEqual => Class::PlusEqual,
        Punctuator::MinusEqual => Class::MinusEqual,
        Punctuator::ShiftLeftEqual => Class::ShiftLeftEqual,
        Punctuator::ShiftRightEqual => Class::ShiftRightEqual,
        Punctuator::AmpersandEqual => Class::AmpersandEqual,
        Punctuator::CaretEqual => Class::CaretEqual,
        Punctuator::BarEqual => Class::BarEqual,
        Punctuator::Comma => Class::Comma,
    }
}

/// What a token of this text is to the grammar, where nothing follows it.
pub fn class_of(text: &[u8], class: TokenClass) -> Class
    ensures { result ≡ spec.class_of text.now class }
{
    match class {
        TokenClass::Word => word_class(text),
        TokenClass::Keyword(keyword) => keyword_class(keyword),
        TokenClass::Constant(_) => Class::Constant,
        TokenClass::Character(_) => Class::Constant,
        TokenClass::Literal => Class::Other,
        TokenClass::Punct(punctuator) => punctuator_class(punctuator),
    }
}

fn begins_with_if(tokens: &[Token]) -> bool
    ensures { result ≡ spec.begins_with_if tokens.now }
{
    match tokens {
        [] => false,
        [token, ..] => is_if(token.class),
    }
}

fn is_if(class: TokenClass) -> bool
    ensures { result ≡ spec.is_if class }
{
    match class {
        TokenClass::Keyword(Keyword::If) => true,
        _ => false,
    }
}

fn is_else(class: &TokenClass) -> bool
    ensures { result ≡ spec.is_else class.now }
{
    match class {
        TokenClass::Keyword(Keyword::Else) => true,
        _ => false,
    }
}

/// What a token of this text is to the grammar, where these tokens follow it.
pub fn class_before(text: &[u8], class: &TokenClass, following: &[Token]) -> Class
    ensures { result ≡ spec.class_before text.now class.now following.now }
{
    if is_else(class) && begins_with_if(following) {
        Class::ElseIf
    } else {
        class_of(text, *class)
    }
}

fn is_left_out_keyword(keyword: Keyword) -> bool
    ensures { result ≡ spec.is_left_out_keyword keyword }
{
    match keyword {
        Keyword::Auto => true,
        Keyword::Double => true,
        Keyword::Float => true,
        Keyword::Goto => true,
        Keyword::Union => true,
        Keyword::Volatile => true,
        Keyword::Alignas => true,
        Keyword::Alignof => true,
        Keyword::Atomic => true,
        Keyword::Complex => true,
        Keyword::Generic => true,
        Keyword::Imaginary => true,
        Keyword::Noreturn => true,
        Keyword::StaticAssert => true,
        Keyword::ThreadLocal => true,
        Keyword::Extern => true,
        Keyword::Static => true,
        Keyword::Typedef => true,
        _ => false,
    }
}

fn is_ellipsis(punctuator: Punctuator) -> bool
    ensures { result ≡ spec.is_ellipsis punctuator }
{
    match punctuator {
        Punctuator::Ellipsis => true,
        _ => false,
    }
}

/// Whether a token that can't stand at a place is named as one that the profile leaves out.
pub fn is_left_out(class: TokenClass) -> bool
    ensures { result ≡ spec.is_left_out class }
{
    match class {
        TokenClass::Word => false,
        TokenClass::Keyword(keyword) => is_left_out_keyword(keyword),
        TokenClass::Constant(_) => false,
        TokenClass::Character(_) => false,
        TokenClass::Literal => true,
        TokenClass::Punct(punctuator) => is_ellipsis(punctuator),
    }
}

//! How keywords, punctuators, suffixes and escapes are written.

ghost use Rattle.std.specs.Prelude.{◌≡◌, map};
ghost use Rattle.c_tokens.specs.Tables.{written_so};

use crate::constants::Suffix;
use crate::tokens::{Keyword, Punctuator};

pub const KEYWORDS: [(&[u8], Keyword); 44] = [
    (b"auto", Keyword::Auto),
    (b"break", Keyword::Break),
    (b"case", Keyword::Case),
    (b"char", Keyword::Char),
    (b"const", Keyword::Const),
    (b"continue", Keyword::Continue),
    (b"default", Keyword::Default),
    (b"do", Keyword::Do),
    (b"double", Keyword::Double),
    (b"else", Keyword::Else),
    (b"enum", Keyword::Enum),
    (b"extern", Keyword::Extern),
    (b"float", Keyword::Float),
    (b"for", Keyword::For),
    (b"goto", Keyword::Goto),
    (b"if", Keyword::If),
    (b"inline", Keyword::Inline),
    (b"int", Keyword::Int),
    (b"long", Keyword::Long),
    (b"register", Keyword::Register),
    (b"restrict", Keyword::Restrict),
    (b"return", Keyword::Return),
    (b"short", Keyword::Short),
    (b"signed", Keyword::Signed),
    (b"sizeof", Keyword::Sizeof),
    (b"static", Keyword::Static),
    (b"struct", Keyword::Struct),
    (b"switch", Keyword::Switch),
    (b"typedef", Keyword::Typedef),
    (b"union", Keyword::Union),
    (b"unsigned", Keyword::Unsigned),
    (b"void", Keyword::Void),
    (b"volatile", Keyword::Volatile),
    (b"while", Keyword::While),
    (b"_Alignas", Keyword::Alignas),
    (b"_Alignof", Keyword::Alignof),
    (b"_Atomic", Keyword::Atomic),
    (b"_Bool", Keyword::Bool),
    (b"_Complex", Keyword::Complex),
    (b"_Generic", Keyword::Generic),
    (b"_Imaginary", Keyword::Imaginary),
    (b"_Noreturn", Keyword::Noreturn),
    (b"_Static_assert", Keyword::StaticAssert),
    (b"_Thread_local", Keyword::ThreadLocal),
];

/// The longer ones first, so that the first one at the front of a text is the longest.
pub const PUNCTUATORS: [(&[u8], Punctuator); 46] = [
    (b"...", Punctuator::Ellipsis),
    (b"<<=", Punctuator::ShiftLeftEqual),
    (b">>=", Punctuator::ShiftRightEqual),
    (b"->", Punctuator::Arrow),
    (b"++", Punctuator::Increment),
    (b"--", Punctuator::Decrement),
    (b"<<", Punctuator::ShiftLeft),
    (b">>", Punctuator::ShiftRight),
    (b"<=", Punctuator::LessEqual),
    (b">=", Punctuator::GreaterEqual),
    (b"==", Punctuator::EqualEqual),
    (b"!=", Punctuator::NotEqual),
    (b"&&", Punctuator::AndAnd),
    (b"||", Punctuator::OrOr),
    (b"*=", Punctuator::StarEqual),
    (b"/=", Punctuator::SlashEqual),
    (b"%=", Punctuator::PercentEqual),
    (b"+=", Punctuator::PlusEqual),
    (b"-=", Punctuator::MinusEqual),
    (b"&=", Punctuator::AmpersandEqual),
    (b"^=", Punctuator::CaretEqual),
    (b"|=", Punctuator::BarEqual),
    (b"[", Punctuator::LeftBracket),
    (b"]", Punctuator::RightBracket),
    (b"(", Punctuator::LeftParen),
    (b")", Punctuator::RightParen),
    (b"{", Punctuator::LeftBrace),
    (b"}", Punctuator::RightBrace),
    (b".", Punctuator::Dot),
    (b"&", Punctuator::Ampersand),
    (b"*", Punctuator::Star),
    (b"+", Punctuator::Plus),
    (b"-", Punctuator::Minus),
    (b"~", Punctuator::Tilde),
    (b"!", Punctuator::Exclamation),
    (b"/", Punctuator::Slash),
    (b"%", Punctuator::Percent),
    (b"<", Punctuator::Less),
    (b">", Punctuator::Greater),
    (b"^", Punctuator::Caret),
    (b"|", Punctuator::Bar),
    (b"?", Punctuator::Question),
    (b":", Punctuator::Colon),
    (b";", Punctuator::Semicolon),
    (b"=", Punctuator::Equal),
    (b",", Punctuator::Comma),
];

/// The suffixes of integer constants.
pub const SUFFIXES: [(&[u8], Suffix); 23] = [
    (b"", Suffix::Plain),
    (b"u", Suffix::Unsigned),
    (b"U", Suffix::Unsigned),
    (b"l", Suffix::Long),
    (b"L", Suffix::Long),
    (b"ll", Suffix::Long),
    (b"LL", Suffix::Long),
    (b"ul", Suffix::UnsignedLong),
    (b"uL", Suffix::UnsignedLong),
    (b"ull", Suffix::UnsignedLong),
    (b"uLL", Suffix::UnsignedLong),
    (b"Ul", Suffix::UnsignedLong),
    (b"UL", Suffix::UnsignedLong),
    (b"Ull", Suffix::UnsignedLong),
    (b"ULL", Suffix::UnsignedLong),
    (b"lu", Suffix::UnsignedLong),
    (b"lU", Suffix::UnsignedLong),
    (b"Lu", Suffix::UnsignedLong),
    (b"LU", Suffix::UnsignedLong),
    (b"llu", Suffix::UnsignedLong),
    (b"llU", Suffix::UnsignedLong),
    (b"LLu", Suffix::UnsignedLong),
    (b"LLU", Suffix::UnsignedLong),
];

/// What may stand behind a backslash, and the byte that it stands for.
pub const ESCAPES: [(&[u8], u8); 11] = [
    (b"'", b'\''),
    (b"\"", b'"'),
    (b"?", b'?'),
    (b"\\", b'\\'),
    (b"a", 7),
    (b"b", 8),
    (b"f", 12),
    (b"n", 10),
    (b"r", 13),
    (b"t", 9),
    (b"v", 11),
];

/// What is written so in the table.
pub fn written_so<T: Copy>(mut table: &[(&[u8], T)], text: &[u8]) -> Option<T>
    ensures { result ≡ written_so (map (λ entry. (entry.0.now, entry.1)) table.entry.now) text.now }
{
    while let [entry, rest @ ..] = table {
        if entry.0 == text {
            return Some(entry.1);
        }
        table = rest;
    }
    None
}

//! Comments that a line leaves open.

ghost use Rattle.std.specs.Prelude.{◌≡◌};
ghost use Rattle.c_lexer.specs.Lines as spec;
ghost use Rattle.c_lexer.specs.declared.comments.Inside.TheVariants as inside;

/// What a byte of a line stands in.
#[derive(Clone, Copy, Debug, PartialEq, Eq)]
pub enum Inside {
    Text,
    /// A `/` that may begin a comment.
    Slash,
    LineComment,
    Comment,
    /// A `*` that may end a comment.
    Star,
    /// A constant or literal that this quote began.
    Quote(u8),
    /// The byte after a backslash in one.
    Escape(u8),
}

fn in_text(byte: u8) -> Inside
    ensures { result ≡ spec.in_text byte }
{
    if byte == b'/' {
        return Inside::Slash;
    }
    if byte == b'\'' || byte == b'"' {
        return Inside::Quote(byte);
    }
    Inside::Text
}

fn after_slash(byte: u8) -> Inside
    ensures { result ≡ spec.next_inside inside.Slash byte }
{
    if byte == b'/' {
        return Inside::LineComment;
    }
    if byte == b'*' {
        return Inside::Comment;
    }
    in_text(byte)
}

fn after_star(byte: u8) -> Inside
    ensures { result ≡ spec.next_inside inside.Star byte }
{
    if byte == b'/' {
        return Inside::Text;
    }
    if byte == b'*' {
        return Inside::Star;
    }
    Inside::Comment
}

fn in_quotes(quote: u8, byte: u8) -> Inside
    ensures { result ≡ spec.next_inside (inside.Quote quote) byte }
{
    if byte == quote {
        return Inside::Text;
    }
    if byte == b'\\' {
        return Inside::Escape(quote);
    }
    Inside::Quote(quote)
}

fn next_inside(inside: Inside, byte: u8) -> Inside
    ensures { result ≡ spec.next_inside inside byte }
{
    match inside {
        Inside::Text => in_text(byte),
        Inside::Slash => after_slash(byte),
        Inside::LineComment => Inside::LineComment,
        Inside::Comment => {
            if byte == b'*' {
                Inside::Star
            } else {
                Inside::Comment
            }
        }
        Inside::Star => after_star(byte),
        Inside::Quote(quote) => in_quotes(quote, byte),
        Inside::Escape(quote) => Inside::Quote(quote),
    }
}

fn is_open_comment(inside: Inside) -> bool
    ensures { result ≡ spec.is_open_comment inside }
{
    match inside {
        Inside::Comment | Inside::Star => true,
        Inside::Text | Inside::Slash | Inside::LineComment | Inside::Quote(_) | Inside::Escape(_) =>
            false,
    }
}

/// Whether a `/*` on the line isn't closed on it.
pub fn leaves_comment_open(line: &[u8]) -> bool
    ensures { result ≡ spec.leaves_comment_open line.now }
{
    let mut inside = Inside::Text;
    'bytes: for byte in line {
        inside = next_inside(inside, *byte);
    }
    is_open_comment(inside)
}

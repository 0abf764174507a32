//! Texts.

ghost use Rattle.std.specs.Prelude.{◌≡◌};
ghost use Rattle.command_words.specs.Lines.{begins_with_dash};
ghost use Rattle.command_words.specs.Texts.{is_printing, is_text};
ghost use Rattle.std.specs.List.{list_all};

/// Whether a text may stand as a word or as a value: it isn't empty, isn't `-` alone, and has no control byte.
pub fn is_text(text: &str) -> bool
    ensures { result ≡ is_text text.now }
{
    if text.is_empty() || text == "-" {
        return false;
    }
    are_printing(text.as_bytes())
}

/// Whether no byte is a control byte.
fn are_printing(bytes: &[u8]) -> bool
    ensures { result ≡ list_all is_printing bytes.now }
{
    bytes.iter().all(|byte| *byte >= 0x20 && *byte != 0x7f)
}

pub fn begins_with_dash(word: &str) -> bool
    ensures { result ≡ begins_with_dash word.now }
{
    let bytes = word.as_bytes();
    !bytes.is_empty() && bytes[0] == b'-'
}

//! A text cut at a mark.

ghost use Rattle.std.specs.Prelude.{◌≡◌, ◌+◌, ◌≤◌, ◌∷◌, length};
ghost use Rattle.version_map.specs.Texts.{parts, parts_behind, most_parts};

/// What stands before the first mark, and what stands behind it, if there is one.
#[derive(Clone, Copy)]
pub struct FirstPart<'a> {
    pub part: &'a [u8],
    pub rest: Option<&'a [u8]>,
}

/// Cuts a text at its first mark.
#[tactic(auto, using(crate::proofs::TextLemmas::at_mark, crate::proofs::TextLemmas::past_other, crate::proofs::TextLemmas::at_end))]
pub fn cut(text: &[u8], mark: u8) -> FirstPart<'_>
    ensures parts { parts mark text.now ≡ result.part.now ∷ parts_behind mark result.rest }
    ensures fewer { most_parts result.rest ≤ length text.now }
{
    let mut at = 0;
    while at < text.len() {
        if text[at] == mark {
            return FirstPart {
                part: &text[..at],
                rest: Some(&text[at + 1..]),
            };
        }
        at += 1;
    }
    FirstPart {
        part: text,
        rest: None,
    }
}

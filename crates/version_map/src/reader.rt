//! The reader of a map.

ghost use Rattle.std.specs.Prelude.{◌≡◌, ◌<◌, ◌-◌, ◌^◌, length, Ok, Err, IfOk, IfErr};
ghost use Rattle.version_map.specs.Maps.{map_of, said_in, IfRefused};

use crate::drafts::Draft;
use crate::map::{Map, MapFault};
use crate::texts::cut;
use std::alloc::Global;

/// What a map of these bytes says, or the first line that is refused.
#[tactic(auto, using(crate::proofs::MapLemmas::line_read, crate::proofs::MapLemmas::line_refused, crate::proofs::MapLemmas::refused_so))]
pub fn read_map(alloc: Global, bytes: &[u8]) -> Result<Map, MapFault>
    requires { length bytes.now < 2 ^ 32 - 1 }
    ensures said { IfOk result (λ it. map_of bytes.now ≡ Ok (said_in it)) }
    ensures refused { IfErr result (IfRefused (λ refusal. map_of bytes.now ≡ Err refusal)) }
{
    let mut draft = Draft::new(alloc);
    let mut number: u32 = 0;
    let mut rest = Some(bytes);
    'lines: while let Some(text) = rest {
        let line = cut(text, b'\n');
        number += 1;
        draft.read(number, line.part)?;
        rest = line.rest;
    }
    Ok(draft.finish())
}

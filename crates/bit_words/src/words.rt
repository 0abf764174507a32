ghost use Rattle.std.specs.Prelude.{◌≡◌, ◌<◌, length, Bool, List, IfOk};
ghost use Rattle.aig_build.specs.Circuits.{Grows};
ghost use Rattle.rvt_num.specs.Kinds.{promoted_kind};
ghost use Rattle.rvt_num.specs.Operations.{number_of};
ghost use Rattle.bit_words.specs.Built.{product_word};
ghost use Rattle.bit_words.specs.Words.{AreThere, word_number};

use crate::products::product;
use aig_build::{Circuit, Lit};
use rvt_num::{BinOp, Kind, Memory};
use std::alloc::Global;
use std::marker::Model;

/// A number whose bits are literals of a circuit, the lowest first. It has as many bits as its kind is wide.
#[derive(Drop)]
pub struct Word {
    pub kind: Kind,
    pub bits: Vec<Lit>,
}

impl Model for Word {
    ghost use Rattle.bit_words.specs.Words.{LitWord};

    ghost Value = { LitWord };

    ghost use Rattle.std.specs.Prelude.{◌≡◌, length};
    ghost use Rattle.rvt_num.specs.Kinds.{width};

    ghost view = { λ w. record { kind = w.kind; bits = w.bits.items } };

    ghost invariant = { λ w. length w.bits.items ≡ width w.kind };
}

/// The product of two words of one kind.
pub fn word_product(
    alloc: Global,
    circuit: &mut Circuit,
    a: &Word,
    b: &Word,
) -> Result<Word, Memory>
    requires a_is_there { AreThere circuit.old a.now.bits }
    requires b_is_there { AreThere circuit.old b.now.bits }
    requires same_kind { a.now.kind ≡ b.now.kind }
    requires promoted { promoted_kind a.now.kind ≡ a.now.kind }
    ensures built { IfOk result (λ r. product_word circuit.old a.now b.now ≡ record { nodes = circuit.new; word = r }) }
    ensures value { IfOk result (λ r. (inputs : List Bool) → word_number circuit.new inputs r ≡ number_of BinOp.Mul (word_number circuit.old inputs a.now) (word_number circuit.old inputs b.now)) }
    ensures there { IfOk result (λ r. AreThere circuit.new r.bits) }
    ensures grows { Grows circuit.old circuit.new }
{
    let _count = circuit.nodes();
    let bits = product(alloc, circuit, &a.bits, &b.bits)?;
    Ok(Word { kind: a.kind, bits })
}

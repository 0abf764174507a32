ghost use Rattle.std.specs.Prelude.{◌≡◌, ◌<◌, IfSome, IsSome};

use crate::lits::Lit;
use std::marker::Model;

/// The operands of a gate, in eight bytes.
pub type PackedGate = (PackedLit, PackedLit);

/// A literal in four bytes: twice its node, and one more where it is negated.
#[derive(Clone, Copy, PartialEq, Eq, Hash)]
pub struct PackedLit {
    code: u32,
}

impl Model for PackedLit {
    ghost use Rattle.aig_build.specs.declared.lits.Lit.{Lit};
    ghost use Rattle.aig_build.specs.Codes.{lit_of, code_of, code_of-lit_of};

    ghost Value = { Lit };

    ghost view = { λ packed. lit_of packed.code };

    ghost inverse = { λ lit. record { code = code_of lit } };

    ghost inverse_ok = { λ packed h i. record { code = code_of-lit_of packed.code i } };
}

impl PackedLit {
    /// The literal in four bytes, and `None` where its node is too large a number for that.
    pub fn new(lit: Lit) -> Option<PackedLit>
        ensures same { IfSome result (λ packed. packed ≡ lit) }
        ensures there { lit.node < 2147483648 → IsSome result }
    {
        let node = u32::try_from(lit.node).ok()?;
        let code = node.checked_mul(2)?;
        Some(PackedLit {
            code: if lit.negated { code + 1 } else { code },
        })
    }

    /// The literal with its node and its sign.
    pub fn lit(self) -> Lit
        ensures { result ≡ self }
    {
        Lit {
            node: (self.code / 2) as u64,
            negated: self.code % 2 == 1,
        }
    }
}

use aig_build::Lit;
use bit_ops::SymValue;
use core_ir::Shape;
use rvt_num::{Kind, Trap};
use std::marker::Model;

/// The end of a call that is left open: for each kind of trap whether it is that, and else the results and the mutable cells of the key.
#[derive(Drop)]
pub struct Answer {
    pub trap: Vec<(Trap, Lit)>,
    pub results: Vec<SymValue>,
    pub cells: Vec<SymValue>,
}

impl Model for Answer {
    ghost use Rattle.uf_abstraction.specs.Applications.{LitAnswer};

    ghost Value = { LitAnswer };

    ghost view = { λ a. record { trap = a.trap.items; results = a.results.items; cells = a.cells.items } };
}

/// What the answers under one name are made of. The targets are the object, the length and `const` of each object that a pointer
/// of an answer may name.
#[derive(Drop)]
pub struct AnswerShape {
    pub traps: Vec<Trap>,
    pub results: Vec<Shape>,
    pub cells: Vec<Kind>,
    pub targets: Vec<(u32, u32, bool)>,
}

impl Model for AnswerShape {
    ghost use Rattle.uf_abstraction.specs.Applications.{LitShape};

    ghost Value = { LitShape };

    ghost view = { λ s. record { traps = s.traps.items; results = s.results.items; cells = s.cells.items; targets = s.targets.items } };
}

//! The labels of a `switch` so far.

ghost use Rattle.std.specs.Prelude.{◌≡◌, ◌||◌, ◌++◌, ◌∷◌, [], OnOk, OnErr};
ghost use Rattle.std.specs.List.{list_any};
ghost use Rattle.rvt_tree.specs.declared.statements.Label.{Label as AnyLabel};
ghost use Rattle.file_typing.specs.Statements.{same_label};
ghost use Rattle.statement_elaboration.specs.LabelIndex.{is_indexed};

use indexmap::IndexSet;
use rvt_tree::Label;
use std::alloc::{AllocError, Global};
use std::marker::Model;

/// The values of the cases, and whether there is a `default`.
#[derive(Drop)]
struct LabelIndex {
    values: IndexSet<i128>,
    has_default: bool,
}

impl LabelIndex {
    fn has(&self, label: &Label) -> bool
        ensures { result ≡ is_indexed self.now.values.keys self.now.has_default label.now }
    {
        match label {
            Label::Case(n) => {
                let value = n.value();
                self.values.contains(&value)
            }
            Label::Default => self.has_default,
        }
    }

    fn add(&mut self, label: &Label) -> Result<(), AllocError>
        ensures added { OnOk result ((other : AnyLabel) → is_indexed self.new.values.keys self.new.has_default other ≡ (is_indexed self.old.values.keys self.old.has_default other || same_label other label.now)) }
        ensures unchanged { OnErr result ((other : AnyLabel) → is_indexed self.new.values.keys self.new.has_default other ≡ is_indexed self.old.values.keys self.old.has_default other) }
    {
        match label {
            Label::Case(n) => {
                self.values.insert_full(n.value())?;
            }
            Label::Default => self.has_default = true,
        }
        Ok(())
    }
}

/// Labels in their order, with an index, so that a label is found among many in one step.
#[derive(Drop)]
pub struct SeenLabels {
    labels: Vec<Label>,
    index: LabelIndex,
}

impl Model for SeenLabels {
    ghost use Rattle.std.specs.Prelude.{◌≡◌, List};
    ghost use Rattle.std.specs.List.{list_any};
    ghost use Rattle.rvt_tree.specs.declared.statements.Label.{Label};
    ghost use Rattle.file_typing.specs.Statements.{same_label};
    ghost use Rattle.statement_elaboration.specs.LabelIndex.{is_indexed};

    ghost Value = { List Label };

    ghost view = { λ it. it.labels.items };

    ghost invariant = { λ it. (label : Label) → list_any (same_label label) it.labels.items ≡ is_indexed it.index.values.keys it.index.has_default label };
}

impl SeenLabels {
    pub fn new(alloc: Global) -> SeenLabels
        ensures { result ≡ [] }
    {
        SeenLabels {
            labels: Vec::new(alloc),
            index: LabelIndex {
                values: IndexSet::new(alloc),
                has_default: false,
            },
        }
    }

    pub fn has(&self, label: &Label) -> bool
        ensures { result ≡ list_any (same_label label.now) self.now }
    {
        self.index.has(label)
    }

    pub fn add(&mut self, label: &Label) -> Result<(), AllocError>
        ensures { OnOk result (self.new ≡ self.old ++ label.now ∷ []) }
    {
        self.labels.push(*label)?;
        match self.index.add(label) {
            Ok(()) => Ok(()),
            Err(stop) => {
                self.labels.pop();
                Err(stop)
            }
        }
    }
}

//! The labels of a `switch` (C 6.8.4.2).

ghost use Rattle.std.specs.Prelude.{◌≡◌, ◌++◌, ◌∷◌, [], map, IfOk, OnOk};
ghost use Rattle.rvt_tree.specs.Views.{labels_view};
ghost use Rattle.c_syntax.specs.Views.{label_view};
ghost use Rattle.file_typing.specs.Statements.{unless_labelled, typed_label, typed_labels};
ghost use Rattle.typing_base.specs.Follows.{Becomes, Gives};
ghost use Rattle.typing_base.specs.Views.{notes_view};
ghost use Rattle.statement_elaboration.specs.Views.{block_view};

use crate::blocks::Block;
use crate::operands::constant_in;
use crate::seen_labels::SeenLabels;
use rvt_num::Kind;
use rvt_tree::{Label, Labels, Name, Place};
use std::alloc::{AllocError, Global};
use typing_base::{Cause, Environment, Fault, Notes, broken};

/// A value has one label, and there is one `default`.
fn unless_labelled(
    alloc: Global,
    at: Place,
    word: &[u8],
    before: &SeenLabels,
    label: Label,
) -> Result<Label, Fault>
    ensures { Gives (λ label. label) (unless_labelled at word.now before.now label) result }
{
    if before.has(&label) {
        let word = Name::new(alloc, word)?;
        return Err(broken(Cause::DeclaredTwice(word), at));
    }
    Ok(label)
}

/// A label's value is converted to the kind of the `switch`.
fn typed_label(
    alloc: Global,
    environment: &Environment,
    block: Block,
    kind: Kind,
    before: &SeenLabels,
    label: &c_syntax::Label,
    notes: &mut Notes,
) -> Result<Label, Fault>
    ensures { Becomes (λ label. label) (typed_label (block_view environment.now block) kind before.now (label_view label.now) (notes_view notes.old)) result notes.new }
{
    match label {
        c_syntax::Label::Case(at, e) => {
            let n = constant_in(alloc, environment, block, kind, e, notes)?;
            unless_labelled(alloc, *at, b"case", before, Label::Case(n))
        }
        c_syntax::Label::Default(at) => {
            unless_labelled(alloc, *at, b"default", before, Label::Default)
        }
    }
}

fn put(labels: &mut Vec<Label>, label: &Label) -> Result<(), AllocError>
    ensures { OnOk result (labels.new.items ≡ labels.old.items ++ label.now ∷ []) }
{
    labels.push(*label)?;
    Ok(())
}

/// The labels of a group, after those before them.
pub fn typed_labels(
    alloc: Global,
    environment: &Environment,
    block: Block,
    kind: Kind,
    before: &mut SeenLabels,
    labels: &[c_syntax::Label],
    notes: &mut Notes,
) -> Result<Labels, Fault>
    ensures typed { Becomes labels_view (typed_labels (block_view environment.now block) kind before.old (map label_view labels.now) (notes_view notes.old)) result notes.new }
    ensures before { IfOk result (λ made. before.new ≡ before.old ++ labels_view made) }
{
    let mut made = Vec::new(alloc);
    let mut rest = labels;
    'labels: while let [label, others @ ..] = rest {
        let label = typed_label(alloc, environment, block, kind, before, label, notes)?;
        before.add(&label)?;
        put(&mut made, &label)?;
        rest = others;
    }
    Ok(rvt_tree::builders::labels(alloc, made)?)
}

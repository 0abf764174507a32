//! Statements (C 6.8), their parts in the order of the source.

ghost use Rattle.std.specs.Prelude.{◌≡◌, ◌≤◌, ◌++◌, ◌∷◌, [], length, map, option_map, IfOk, OnOk};
ghost use Rattle.rvt_tree.specs.Syntax as t;
ghost use Rattle.rvt_tree.specs.Views.{expr_view, acts_view, labels_view, stmt_view, stmts_view, groups_view};
ghost use Rattle.c_syntax.specs.Views as c;
ghost use Rattle.file_typing.specs.Blocks.{inside};
ghost use Rattle.file_typing.specs.Statements.{typed_statement, typed_items, typed_item, typed_groups};
ghost use Rattle.typing_base.specs.Follows.{Becomes};
ghost use Rattle.typing_base.specs.Views.{notes_view};
ghost use Rattle.statement_elaboration.specs.Parts.{typed_while, typed_do, typed_for, typed_switch, typed_group};
ghost use Rattle.statement_elaboration.specs.Views.{block_view, declared_view, group_view, Extends};

use crate::acts::typed_header;
use crate::blocks::{Block, leave};
use crate::declarations::typed_declaration;
use crate::forms::{do_loop, for_loop, if_else, one, put, put_group, switch, while_loop};
use crate::groups::{group_ends, next_label};
use crate::jumps::{broken_off, continued, returned, typed_return};
use crate::labels::typed_labels;
use crate::operands::{action_in, condition_in};
use crate::seen_labels::SeenLabels;
use crate::switches::typed_control;
use c_syntax::{Act, Expr, Groups, Part, Parts, Start, Stmt};
use rvt_num::Kind;
use rvt_tree::{Labels, Place, Stmts, builders};
use std::alloc::Global;
use typing_base::{Environment, Fault, Notes};

/// A statement; the names that it declares are in scope in it alone.
#[cycle(typed_statement)]
pub fn typed_statement(
    alloc: Global,
    environment: &mut Environment,
    block: Block,
    s: &Stmt,
    notes: &mut Notes,
) -> Result<rvt_tree::Stmt, Fault>
    requires within { block.height ≤ length environment.old.names }
    ensures typed { Becomes stmt_view (typed_statement (block_view environment.old block) (c.stmt_view s.now) (notes_view notes.old)) result notes.new }
    ensures same { OnOk result (environment.new ≡ environment.old) }
{
    match s {
        Stmt::Block(_, parts) => {
            let body = typed_block(alloc, environment, block, parts, notes)?;
            Ok(builders::block(alloc, body)?)
        }
        Stmt::Empty(_) => Ok(rvt_tree::Stmt::Empty),
        Stmt::Act(act) => {
            let act = action_in(alloc, environment, block, act, notes)?;
            Ok(rvt_tree::Stmt::Act(act))
        }
        Stmt::Break(at) => broken_off(*at, block),
        Stmt::Continue(at) => continued(*at, block),
        Stmt::Return(at) => returned(*at, block.result),
        Stmt::ReturnValue(at, e) => typed_return(alloc, environment, block, *at, e, notes),
        Stmt::If(_, test, first) => {
            let test = condition_in(alloc, environment, block, test, notes)?;
            let first = typed_statement(alloc, environment, block, first, notes)?;
            Ok(builders::choice(alloc, test, first)?)
        }
        Stmt::IfElse(_, test, first, second) => {
            let test = condition_in(alloc, environment, block, test, notes)?;
            let first = typed_statement(alloc, environment, block, first, notes)?;
            let second = typed_statement(alloc, environment, block, second, notes)?;
            Ok(if_else(alloc, test, first, second)?)
        }
        Stmt::While(_, test, body) => { typed_while(alloc, environment, block, test, body, notes) }
        Stmt::Do(_, body, test) => typed_do(alloc, environment, block, body, test, notes),
        Stmt::For(_, start, test, last, body) => typed_for(
            alloc,
            environment,
            block,
            start,
            test,
            last.as_slice(),
            body,
            notes,
        ),
        Stmt::Switch(_, e, groups) => typed_switch(alloc, environment, block, e, groups, notes),
    }
}

// ---- blocks

/// A block in this one: its names are forgotten at its end.
#[cycle(typed_statement)]
fn typed_block(
    alloc: Global,
    environment: &mut Environment,
    block: Block,
    parts: &Parts,
    notes: &mut Notes,
) -> Result<Stmts, Fault>
    ensures typed { Becomes stmts_view (typed_items (inside (block_view environment.old block)) (c.parts_view parts.now) (notes_view notes.old)) result notes.new }
    ensures same { OnOk result (environment.new ≡ environment.old) }
{
    let inner = block.inside(environment);
    let body = typed_items(alloc, environment, inner, parts, notes)?;
    leave(environment, inner);
    Ok(body)
}

/// The parts of a block: what they declare stays in scope for the caller, who leaves it.
#[cycle(typed_statement)]
pub fn typed_items(
    alloc: Global,
    environment: &mut Environment,
    block: Block,
    parts: &Parts,
    notes: &mut Notes,
) -> Result<Stmts, Fault>
    requires within { block.height ≤ length environment.old.names }
    ensures typed { Becomes stmts_view (typed_items (block_view environment.old block) (c.parts_view parts.now) (notes_view notes.old)) result notes.new }
    ensures declared { OnOk result (Extends environment.old environment.new) }
{
    let mut made = Vec::new(alloc);
    let mut rest = parts;
    'parts: while let Parts::More(part, others) = rest {
        let item = typed_item(alloc, environment, block, part, notes)?;
        put(&mut made, item)?;
        rest = others;
    }
    Ok(builders::statements(alloc, made)?)
}

/// A declaration is in scope from there on, up to the end of the block (C 6.2.1).
#[cycle(typed_statement)]
fn typed_item(
    alloc: Global,
    environment: &mut Environment,
    block: Block,
    part: &Part,
    notes: &mut Notes,
) -> Result<Vec<rvt_tree::Stmt>, Fault>
    requires within { block.height ≤ length environment.old.names }
    ensures typed { Becomes (λ made. declared_view environment.new block made.items) (typed_item (block_view environment.old block) (c.part_view part.now) (notes_view notes.old)) result notes.new }
    ensures declared { OnOk result (Extends environment.old environment.new) }
{
    match part {
        Part::Local(declaration) => {
            typed_declaration(alloc, environment, block, declaration, notes)
        }
        Part::Stmt(s) => {
            let made = typed_statement(alloc, environment, block, s, notes)?;
            Ok(one(alloc, made)?)
        }
    }
}

// ---- loops (C 6.8.5)

#[cycle(typed_statement)]
fn typed_while(
    alloc: Global,
    environment: &mut Environment,
    block: Block,
    test: &Expr,
    body: &Stmt,
    notes: &mut Notes,
) -> Result<rvt_tree::Stmt, Fault>
    requires within { block.height ≤ length environment.old.names }
    ensures typed { Becomes stmt_view (typed_while (block_view environment.old block) (c.expr_view test.now) (c.stmt_view body.now) (notes_view notes.old)) result notes.new }
    ensures same { OnOk result (environment.new ≡ environment.old) }
{
    let number = notes.begin_loop()?;
    let test = condition_in(alloc, environment, block, test, notes)?;
    let body = typed_statement(alloc, environment, block.inside_loop(), body, notes)?;
    Ok(while_loop(alloc, number, test, body)?)
}

#[cycle(typed_statement)]
fn typed_do(
    alloc: Global,
    environment: &mut Environment,
    block: Block,
    body: &Stmt,
    e: &Expr,
    notes: &mut Notes,
) -> Result<rvt_tree::Stmt, Fault>
    requires within { block.height ≤ length environment.old.names }
    ensures typed { Becomes stmt_view (typed_do (block_view environment.old block) (c.stmt_view body.now) (c.expr_view e.now) (notes_view notes.old)) result notes.new }
    ensures same { OnOk result (environment.new ≡ environment.old) }
{
    let number = notes.begin_loop()?;
    let made = typed_statement(alloc, environment, block.inside_loop(), body, notes)?;
    let test = condition_in(alloc, environment, block, e, notes)?;
    Ok(do_loop(alloc, number, made, test)?)
}

#[cycle(typed_statement)]
fn typed_for(
    alloc: Global,
    environment: &mut Environment,
    block: Block,
    start: &Start,
    test: &Option<Expr>,
    last: &[Act],
    body: &Stmt,
    notes: &mut Notes,
) -> Result<rvt_tree::Stmt, Fault>
    ensures typed { Becomes stmt_view (typed_for (block_view environment.old block) (c.start_view start.now) (option_map c.expr_view test.now) (map c.act_view last.now) (c.stmt_view body.now) (notes_view notes.old)) result notes.new }
    ensures same { OnOk result (environment.new ≡ environment.old) }
{
    let number = notes.begin_loop()?;
    let head = block.inside(environment);
    let header = typed_header(alloc, environment, head, start, test, last, notes)?;
    let body = typed_statement(alloc, environment, head.inside_loop(), body, notes)?;
    leave(environment, head);
    Ok(for_loop(alloc, number, header, body)?)
}

// ---- `switch` (C 6.8.4.2)

#[cycle(typed_statement)]
fn typed_switch(
    alloc: Global,
    environment: &mut Environment,
    block: Block,
    e: &Expr,
    groups: &Groups,
    notes: &mut Notes,
) -> Result<rvt_tree::Stmt, Fault>
    requires within { block.height ≤ length environment.old.names }
    ensures typed { Becomes stmt_view (typed_switch (block_view environment.old block) (c.expr_view e.now) (c.groups_view groups.now) (notes_view notes.old)) result notes.new }
    ensures same { OnOk result (environment.new ≡ environment.old) }
{
    let control = typed_control(alloc, environment, block, e, notes)?;
    let inner = block.inside_switch();
    let groups = typed_groups(alloc, environment, inner, control.kind, groups, notes)?;
    Ok(switch(alloc, control.value, groups)?)
}

/// The groups of a `switch`, from the first one on.
#[cycle(typed_statement)]
fn typed_groups(
    alloc: Global,
    environment: &mut Environment,
    block: Block,
    kind: Kind,
    groups: &Groups,
    notes: &mut Notes,
) -> Result<rvt_tree::Groups, Fault>
    requires within { block.height ≤ length environment.old.names }
    ensures typed { Becomes groups_view (typed_groups (block_view environment.old block) kind [] (c.groups_view groups.now) (notes_view notes.old)) result notes.new }
    ensures same { OnOk result (environment.new ≡ environment.old) }
{
    let mut before = SeenLabels::new(alloc);
    let mut made = Vec::new(alloc);
    let mut rest = groups;
    'groups: while let Groups::More(labels, parts, others) = rest {
        let next = next_label(others);
        let labels = labels.as_slice();
        let group = typed_group(
            alloc,
            environment,
            block,
            kind,
            &mut before,
            labels,
            parts,
            next,
            notes,
        )?;
        put_group(&mut made, group)?;
        rest = others;
    }
    Ok(builders::groups(alloc, made)?)
}

/// The labels of a group, then its statements, which are a scope of their own, and then how it ends.
#[cycle(typed_statement)]
fn typed_group(
    alloc: Global,
    environment: &mut Environment,
    block: Block,
    kind: Kind,
    before: &mut SeenLabels,
    labels: &[c_syntax::Label],
    parts: &Parts,
    next: Option<Place>,
    notes: &mut Notes,
) -> Result<(Labels, Stmts), Fault>
    ensures typed { Becomes group_view (typed_group (block_view environment.old block) kind before.old (map c.label_view labels.now) (c.parts_view parts.now) next (notes_view notes.old)) result notes.new }
    ensures same { OnOk result (environment.new ≡ environment.old) }
    ensures before { IfOk result (λ made. before.new ≡ before.old ++ labels_view made.0) }
{
    let labels = typed_labels(alloc, environment, block, kind, before, labels, notes)?;
    let body = typed_block(alloc, environment, block, parts, notes)?;
    group_ends(parts, next)?;
    Ok((labels, body))
}

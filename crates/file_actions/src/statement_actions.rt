//! The actions on statements.

ghost use Rattle.std.specs.Prelude.{◌≡◌};
ghost use Rattle.expression_actions.specs.Follows.{Follows};
ghost use Rattle.file_actions.specs.StatementRules as rule;
ghost use Rattle.file_actions.specs.Shown.{shown};

use crate::parts::Parts;
use c_syntax::{Group, Label, Part, Start, Stmt, builders};
use expression_actions::{Fault, take};
use rvt_tree::Place;
use sqlite_items::Items;
use std::alloc::Global;
use std::mem;

impl Parts {
    /// A block begins.
    pub fn no_parts(&mut self, alloc: Global) -> Result<(), Fault>
        ensures { Follows result (shown self.new) (rule.no_parts (shown self.old)) }
    {
        self.statements.blocks.push(Vec::new(alloc))?;
        Ok(())
    }

    /// One more part of a block, a declaration.
    pub fn add_local(&mut self) -> Result<(), Fault>
        ensures { Follows result (shown self.new) (rule.add_local (shown self.old)) }
    {
        let declaration = take(&mut self.declarations.declarations)?;
        let mut parts = take(&mut self.statements.blocks)?;
        parts.push(Part::Local(declaration))?;
        self.statements.blocks.push(parts)?;
        Ok(())
    }

    /// One more part of a block, a statement.
    pub fn add_stmt(&mut self) -> Result<(), Fault>
        ensures { Follows result (shown self.new) (rule.add_stmt (shown self.old)) }
    {
        let statement = take(&mut self.statements.statements)?;
        let mut parts = take(&mut self.statements.blocks)?;
        parts.push(Part::Stmt(statement))?;
        self.statements.blocks.push(parts)?;
        Ok(())
    }

    /// `{ .. }`, at its `{`.
    pub fn block(&mut self, alloc: Global) -> Result<(), Fault>
        ensures { Follows result (shown self.new) (rule.block (shown self.old)) }
    {
        let brace = take(&mut self.expressions.operands.kept)?;
        let parts = take(&mut self.statements.blocks)?;
        let parts = builders::block_parts(alloc, parts)?;
        let parts = Box::new(alloc, parts)?;
        self.statements
            .statements
            .push(Stmt::Block(brace.word.place, parts))?;
        Ok(())
    }

    /// `;`
    pub fn empty(&mut self, place: Place) -> Result<(), Fault>
        ensures { Follows result (shown self.new) (rule.empty place (shown self.old)) }
    {
        self.statements.statements.push(Stmt::Empty(place))?;
        Ok(())
    }

    /// An act and `;`.
    pub fn act_stmt(&mut self) -> Result<(), Fault>
        ensures { Follows result (shown self.new) (rule.act_stmt (shown self.old)) }
    {
        let act = take(&mut self.statements.acts)?;
        self.statements.statements.push(Stmt::Act(act))?;
        Ok(())
    }

    /// `break`
    pub fn break_stmt(&mut self, place: Place) -> Result<(), Fault>
        ensures { Follows result (shown self.new) (rule.break_stmt place (shown self.old)) }
    {
        self.statements.statements.push(Stmt::Break(place))?;
        Ok(())
    }

    /// `continue`
    pub fn continue_stmt(&mut self, place: Place) -> Result<(), Fault>
        ensures { Follows result (shown self.new) (rule.continue_stmt place (shown self.old)) }
    {
        self.statements.statements.push(Stmt::Continue(place))?;
        Ok(())
    }

    /// `return;`
    pub fn return_stmt(&mut self) -> Result<(), Fault>
        ensures { Follows result (shown self.new) (rule.return_stmt (shown self.old)) }
    {
        let token = take(&mut self.expressions.operands.kept)?;
        self.statements
            .statements
            .push(Stmt::Return(token.word.place))?;
        Ok(())
    }

    /// `return e;`
    pub fn return_value(&mut self) -> Result<(), Fault>
        ensures { Follows result (shown self.new) (rule.return_value (shown self.old)) }
    {
        let token = take(&mut self.expressions.operands.kept)?;
        let value = take(&mut self.expressions.operands.expressions)?;
        self.statements
            .statements
            .push(Stmt::ReturnValue(token.word.place, value))?;
        Ok(())
    }

    /// `if (e) s`
    pub fn if_stmt(&mut self, alloc: Global) -> Result<(), Fault>
        ensures { Follows result (shown self.new) (rule.if_stmt (shown self.old)) }
    {
        let token = take(&mut self.expressions.operands.kept)?;
        let test = take(&mut self.expressions.operands.expressions)?;
        let first = take(&mut self.statements.statements)?;
        let first = Box::new(alloc, first)?;
        self.statements
            .statements
            .push(Stmt::If(token.word.place, test, first))?;
        Ok(())
    }

    /// `if (e) s else s`
    pub fn if_else(&mut self, alloc: Global) -> Result<(), Fault>
        ensures { Follows result (shown self.new) (rule.if_else (shown self.old)) }
    {
        let token = take(&mut self.expressions.operands.kept)?;
        let test = take(&mut self.expressions.operands.expressions)?;
        let second = take(&mut self.statements.statements)?;
        let second = Box::new(alloc, second)?;
        let first = take(&mut self.statements.statements)?;
        let first = Box::new(alloc, first)?;
        self.statements
            .statements
            .push(Stmt::IfElse(token.word.place, test, first, second))?;
        Ok(())
    }

    /// `while (e) s`
    pub fn while_stmt(&mut self, alloc: Global) -> Result<(), Fault>
        ensures { Follows result (shown self.new) (rule.while_stmt (shown self.old)) }
    {
        let token = take(&mut self.expressions.operands.kept)?;
        let test = take(&mut self.expressions.operands.expressions)?;
        let body = take(&mut self.statements.statements)?;
        let body = Box::new(alloc, body)?;
        self.statements
            .statements
            .push(Stmt::While(token.word.place, test, body))?;
        Ok(())
    }

    /// `do s while (e);`
    pub fn do_stmt(&mut self, alloc: Global) -> Result<(), Fault>
        ensures { Follows result (shown self.new) (rule.do_stmt (shown self.old)) }
    {
        let token = take(&mut self.expressions.operands.kept)?;
        let test = take(&mut self.expressions.operands.expressions)?;
        let body = take(&mut self.statements.statements)?;
        let body = Box::new(alloc, body)?;
        self.statements
            .statements
            .push(Stmt::Do(token.word.place, body, test))?;
        Ok(())
    }

    /// `for (..; ..; ..) s`
    pub fn for_stmt(&mut self, alloc: Global) -> Result<(), Fault>
        ensures { Follows result (shown self.new) (rule.for_stmt (shown self.old)) }
    {
        let token = take(&mut self.expressions.operands.kept)?;
        let start = take(&mut self.statements.starts)?;
        let test = take(&mut self.statements.tests)?;
        let last = take(&mut self.statements.lasts)?;
        let last = Items::from_vec(last);
        let body = take(&mut self.statements.statements)?;
        let body = Box::new(alloc, body)?;
        self.statements
            .statements
            .push(Stmt::For(token.word.place, start, test, last, body))?;
        Ok(())
    }

    /// A `for` header begins with a declaration,
    pub fn for_local(&mut self) -> Result<(), Fault>
        ensures { Follows result (shown self.new) (rule.for_local (shown self.old)) }
    {
        let declaration = take(&mut self.declarations.declarations)?;
        self.statements.starts.push(Start::Local(declaration))?;
        Ok(())
    }

    /// with acts,
    pub fn for_acts(&mut self, alloc: Global) -> Result<(), Fault>
        ensures { Follows result (shown self.new) (rule.for_acts (shown self.old)) }
    {
        let acts = Items::from_vec(mem::replace(&mut self.statements.listed, Vec::new(alloc)));
        self.statements.starts.push(Start::Acts(acts))?;
        Ok(())
    }

    /// or with nothing.
    pub fn for_nothing(&mut self) -> Result<(), Fault>
        ensures { Follows result (shown self.new) (rule.for_nothing (shown self.old)) }
    {
        self.statements.starts.push(Start::Nothing)?;
        Ok(())
    }

    /// Its second part is a condition,
    pub fn for_cond(&mut self) -> Result<(), Fault>
        ensures { Follows result (shown self.new) (rule.for_cond (shown self.old)) }
    {
        let test = take(&mut self.expressions.operands.expressions)?;
        self.statements.tests.push(Some(test))?;
        Ok(())
    }

    /// or nothing.
    pub fn for_ever(&mut self) -> Result<(), Fault>
        ensures { Follows result (shown self.new) (rule.for_ever (shown self.old)) }
    {
        self.statements.tests.push(None)?;
        Ok(())
    }

    /// Its last part is acts,
    pub fn for_step(&mut self, alloc: Global) -> Result<(), Fault>
        ensures { Follows result (shown self.new) (rule.for_step (shown self.old)) }
    {
        let acts = mem::replace(&mut self.statements.listed, Vec::new(alloc));
        self.statements.lasts.push(acts)?;
        Ok(())
    }

    /// or nothing.
    pub fn no_step(&mut self, alloc: Global) -> Result<(), Fault>
        ensures { Follows result (shown self.new) (rule.no_step (shown self.old)) }
    {
        self.statements.lasts.push(Vec::new(alloc))?;
        Ok(())
    }

    /// The groups of a `switch` begin.
    pub fn no_groups(&mut self, alloc: Global) -> Result<(), Fault>
        ensures { Follows result (shown self.new) (rule.no_groups (shown self.old)) }
    {
        self.statements.groups.push(Vec::new(alloc))?;
        Ok(())
    }

    /// The labels of a group begin.
    pub fn no_labels(&mut self, alloc: Global) -> Result<(), Fault>
        ensures { Follows result (shown self.new) (rule.no_labels (shown self.old)) }
    {
        self.statements.labels.push(Vec::new(alloc))?;
        Ok(())
    }

    /// One more label of the group.
    pub fn add_label(&mut self) -> Result<(), Fault>
        ensures { Follows result (shown self.new) (rule.add_label (shown self.old)) }
    {
        let label = take(&mut self.statements.label)?;
        let mut labels = take(&mut self.statements.labels)?;
        labels.push(label)?;
        self.statements.labels.push(labels)?;
        Ok(())
    }

    /// One more group of the `switch`.
    pub fn add_group(&mut self, alloc: Global) -> Result<(), Fault>
        ensures { Follows result (shown self.new) (rule.add_group (shown self.old)) }
    {
        let parts = take(&mut self.statements.blocks)?;
        let parts = builders::block_parts(alloc, parts)?;
        let labels = take(&mut self.statements.labels)?;
        let labels = Items::from_vec(labels);
        let mut groups = take(&mut self.statements.groups)?;
        groups.push(Group { labels, parts })?;
        self.statements.groups.push(groups)?;
        Ok(())
    }

    /// `switch (e) { .. }`
    pub fn switch_stmt(&mut self, alloc: Global) -> Result<(), Fault>
        ensures { Follows result (shown self.new) (rule.switch_stmt (shown self.old)) }
    {
        let token = take(&mut self.expressions.operands.kept)?;
        let value = take(&mut self.expressions.operands.expressions)?;
        let groups = take(&mut self.statements.groups)?;
        let groups = builders::switch_groups(alloc, groups)?;
        let groups = Box::new(alloc, groups)?;
        self.statements
            .statements
            .push(Stmt::Switch(token.word.place, value, groups))?;
        Ok(())
    }

    /// `case e:`
    pub fn case_label(&mut self) -> Result<(), Fault>
        ensures { Follows result (shown self.new) (rule.case_label (shown self.old)) }
    {
        let token = take(&mut self.expressions.operands.kept)?;
        let value = take(&mut self.expressions.operands.expressions)?;
        self.statements
            .label
            .push(Label::Case(token.word.place, value))?;
        Ok(())
    }

    /// `default:`
    pub fn default_label(&mut self, place: Place) -> Result<(), Fault>
        ensures { Follows result (shown self.new) (rule.default_label place (shown self.old)) }
    {
        self.statements.label.push(Label::Default(place))?;
        Ok(())
    }
}

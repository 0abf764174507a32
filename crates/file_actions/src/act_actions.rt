//! The actions on expression statements and the parts of a `for` header.

ghost use Rattle.std.specs.Prelude.{◌≡◌};
ghost use Rattle.expression_actions.specs.Follows.{Follows};
ghost use Rattle.file_actions.specs.ActRules as rule;
ghost use Rattle.file_actions.specs.Shown.{shown};

use crate::parts::Parts;
use c_syntax::Act;
use c_tokens::TokenClass;
use expression_actions::{Fault, setting_of, step_of, take};
use rvt_tree::Place;

impl Parts {
    /// One more act of a `for` header.
    pub fn add_act(&mut self) -> Result<(), Fault>
        ensures { Follows result (shown self.new) (rule.add_act (shown self.old)) }
    {
        let act = take(&mut self.statements.acts)?;
        self.statements.listed.push(act)?;
        Ok(())
    }

    /// `++a` and `--a`, at the operator.
    pub fn step_before(&mut self) -> Result<(), Fault>
        ensures { Follows result (shown self.new) (rule.step_before (shown self.old)) }
    {
        let token = take(&mut self.expressions.operands.kept)?;
        let target = take(&mut self.expressions.operands.expressions)?;
        let step = step_of(token.class);
        self.statements
            .acts
            .push(Act::StepBefore(step, token.word.place, target))?;
        Ok(())
    }

    /// `a++` and `a--`, at the operator.
    pub fn step_after(&mut self, class: TokenClass, place: Place) -> Result<(), Fault>
        ensures { Follows result (shown self.new) (rule.step_after class place (shown self.old)) }
    {
        let target = take(&mut self.expressions.operands.expressions)?;
        self.statements
            .acts
            .push(Act::StepAfter(step_of(class), place, target))?;
        Ok(())
    }

    /// `(void) e`, at its `(`.
    pub fn discard(&mut self) -> Result<(), Fault>
        ensures { Follows result (shown self.new) (rule.discard (shown self.old)) }
    {
        let bracket = take(&mut self.expressions.operands.kept)?;
        let value = take(&mut self.expressions.operands.expressions)?;
        self.statements
            .acts
            .push(Act::Discard(bracket.word.place, value))?;
        Ok(())
    }

    /// `a = e` and its like, at the operator.
    pub fn assign(&mut self) -> Result<(), Fault>
        ensures { Follows result (shown self.new) (rule.assign (shown self.old)) }
    {
        let token = take(&mut self.expressions.operands.kept)?;
        let value = take(&mut self.expressions.operands.expressions)?;
        let target = take(&mut self.expressions.operands.expressions)?;
        let setting = setting_of(token.class);
        self.statements
            .acts
            .push(Act::Assign(setting, token.word.place, target, value))?;
        Ok(())
    }

    /// An expression.
    pub fn evaluate(&mut self) -> Result<(), Fault>
        ensures { Follows result (shown self.new) (rule.evaluate (shown self.old)) }
    {
        let value = take(&mut self.expressions.operands.expressions)?;
        self.statements.acts.push(Act::Evaluate(value))?;
        Ok(())
    }
}

//! Laws of code.

ghost use Rattle.code_laws.specs.Laws.{CodeOfValues, CodeOfActs, CodeOfStatements, CodeOfBodies, TurnsLaw, SelectsLaw};

use c_meaning::laws::{loop_parts_spend, loop_unfolds};
use rvt_tree::Program;

/// The code of an expression gives its value.
pub fn code_of_values()
    ensures { CodeOfValues }
{}

/// The code of an act does the act.
pub fn code_of_acts()
    ensures { CodeOfActs }
{}

/// The code of a statement does what the statement means.
pub fn code_of_statements(program: &Program)
    ensures { CodeOfStatements program.now }
{
    loop_unfolds(program);
    loop_parts_spend(program);
}

/// The code of a body does what the body means.
pub fn code_of_bodies(program: &Program)
    ensures { CodeOfBodies program.now }
{
    loop_unfolds(program);
    loop_parts_spend(program);
}

/// What stands where a loop goes back to.
pub fn turning(program: &Program)
    ensures { TurnsLaw program.now }
{
    loop_unfolds(program);
    loop_parts_spend(program);
}

/// What stands where a `switch` goes on.
pub fn selecting(program: &Program)
    ensures { SelectsLaw program.now }
{
    loop_unfolds(program);
    loop_parts_spend(program);
}

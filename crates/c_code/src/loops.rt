//! The ends of loops and groups, whose jumps are made when their bodies stand.

ghost use Rattle.std.specs.Prelude.{◌≡◌, ◌<◌, ◌≤◌, suc, List, [], ◌∷◌, ◌++◌, length, IfOk, OnOk};
ghost use Rattle.rvt_tree.specs.Views.{labels_view};
ghost use Rattle.c_code.specs.Statements.{looping, label_code, labels_code};
ghost use Rattle.c_code.specs.declared.instructions.Instruction.{Instruction};
ghost use Rattle.c_code.specs.declared.instructions.Instruction.TheVariants as I;

use crate::emitting::{jump_over, put};
use crate::instructions::{Instruction, Manner, When};
use rvt_tree::{Label, Labels};
use std::alloc::AllocError;

/// The end of a loop: its head is where its test begins, and behind the test there is room for the way out.
pub fn close_loop(code: &mut Vec<Instruction>, head: usize, exit: usize) -> Result<(), AllocError>
    requires head { head ≤ exit }
    requires exit { exit < length code.old.items }
    ensures { OnOk result ((before test round : List Instruction) (room : Instruction) → code.old.items ≡ before ++ (test ++ room ∷ round) → head ≡ length before → exit ≡ length (before ++ test) → code.new.items ≡ before ++ looping test round) }
{
    let back = code.len() - head;
    put(code, Instruction::Again(back))?;
    jump_over(code, exit, When::Unless(0));
    put(code, Instruction::End(Manner::Normally))?;
    Ok(())
}

/// The labels of a group. Gives how many there are.
pub fn labels(code: &mut Vec<Instruction>, list: &Labels) -> Result<usize, AllocError>
    ensures code { OnOk result (code.new.items ≡ code.old.items ++ labels_code (labels_view list.now)) }
    ensures count { IfOk result (λ count. count ≡ length (labels_code (labels_view list.now))) }
{
    let start = code.len();
    emit_labels(code, list)?;
    Ok(code.len() - start)
}

fn emit_labels(code: &mut Vec<Instruction>, list: &Labels) -> Result<(), AllocError>
    ensures { OnOk result (code.new.items ≡ code.old.items ++ labels_code (labels_view list.now)) }
{
    let mut left = list;
    'labels: while let Labels::More(label, rest) = left {
        put(code, label_code(*label))?;
        left = rest;
    }
    Ok(())
}

fn label_code(label: Label) -> Instruction
    ensures { result ≡ label_code label }
{
    match label {
        Label::Case(number) => Instruction::Case(number),
        Label::Default => Instruction::Default,
    }
}

/// The head of a group, whose labels and statements stand behind its room.
pub fn close_group(code: &mut Vec<Instruction>, at: usize, count: usize)
    requires { at < length code.old.items }
    ensures { (before block : List Instruction) (room : Instruction) → code.old.items ≡ before ++ room ∷ block → at ≡ length before → code.new.items ≡ before ++ I.Group count (suc (length block)) ∷ block }
{
    let length = code.len() - at;
    code[at] = Instruction::Group(count, length);
}

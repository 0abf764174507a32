//! The contents that constant initializers give to an object (C 6.7.9, 6.9.2).

ghost use Rattle.std.specs.Prelude.{◌≡◌, ◌++◌, take, drop, IfOk, OnOk};
ghost use Rattle.rvt_tree.specs.Views.{init_view, inits_view};
ghost use Rattle.file_typing.specs.Initializers.{with_first, contents_of, contents_of_members};

use operator_rules::constant_of;
use rvt_num::{Num, Value};
use rvt_tree::{Init, Inits};
use std::alloc::{AllocError, Global};

fn first_cells(cells: &[Value], count: usize) -> &[Value]
    ensures { result.now ≡ take count cells.now }
{
    if count < cells.len() {
        &cells[..count]
    } else {
        cells
    }
}

fn further_cells(cells: &[Value], count: usize) -> &[Value]
    ensures { result.now ≡ drop count cells.now }
{
    if count < cells.len() {
        &cells[count..]
    } else {
        &[]
    }
}

fn push_with_first(
    made: &mut Vec<Value>,
    number: Option<Num>,
    zeros: &[Value],
) -> Result<(), AllocError>
    ensures { OnOk result (made.new.items ≡ made.old.items ++ with_first number zeros.now) }
{
    match number {
        Some(number) => {
            made.push(Value::Num(number))?;
            made.extend_from_slice(further_cells(zeros, 1))?;
            Ok(())
        }
        None => {
            made.extend_from_slice(zeros)?;
            Ok(())
        }
    }
}

#[cycle(contents)]
fn push_contents(
    alloc: Global,
    made: &mut Vec<Value>,
    i: &Init,
    zeros: &[Value],
) -> Result<(), AllocError>
    ensures { OnOk result (made.new.items ≡ made.old.items ++ contents_of (init_view i.now) zeros.now) }
{
    match i {
        Init::Value(e) => {
            let number = constant_of(alloc, e)?;
            push_with_first(made, number, zeros)?;
            Ok(())
        }
        Init::Braces(members) => push_contents_of_members(alloc, made, members, zeros),
    }
}

#[cycle(contents)]
fn push_contents_of_members(
    alloc: Global,
    made: &mut Vec<Value>,
    members: &Inits,
    zeros: &[Value],
) -> Result<(), AllocError>
    ensures { OnOk result (made.new.items ≡ made.old.items ++ contents_of_members (inits_view members.now) zeros.now) }
{
    let mut left = zeros;
    let mut rest = members;
    while let Inits::More(i, size, more) = rest {
        push_contents(alloc, made, i, first_cells(left, *size as usize))?;
        left = further_cells(left, *size as usize);
        rest = more;
    }
    made.extend_from_slice(left)?;
    Ok(())
}

/// The cells that a constant initializer gives; those that it leaves out stay as they are.
pub fn contents_of(alloc: Global, i: &Init, zeros: &[Value]) -> Result<Vec<Value>, AllocError>
    ensures { IfOk result (λ contents. contents.items ≡ contents_of (init_view i.now) zeros.now) }
{
    let mut made = Vec::new(alloc);
    push_contents(alloc, &mut made, i, zeros)?;
    Ok(made)
}

//! Declarations in a block (C 6.7): each declarator is a declaration of its own.

ghost use Rattle.std.specs.Prelude.{◌≡◌, ◌≤◌, ◌++◌, ◌∷◌, [], length, map, OnOk};
ghost use Rattle.rvt_tree.specs.Views.{stmt_view};
ghost use Rattle.c_syntax.specs.Views.{init_view, value_view, declaration_view};
ghost use Rattle.file_typing.specs.FunctionNotes.{numbered};
ghost use Rattle.file_typing.specs.LocalDeclarations.{local_of, with_local_named, initialized, typed_declarator, typed_declarators, typed_declaration};
ghost use Rattle.typing_base.specs.Follows.{Becomes};
ghost use Rattle.typing_base.specs.Views.{notes_view, qualified_view, structures_view};
ghost use Rattle.declarator_types.specs.Views.{value_type_view};
ghost use Rattle.statement_elaboration.specs.Views.{block_view, one_declared, declared_view, Extends};

use crate::blocks::{Block, unless_declared};
use crate::copies::copied_type;
use crate::operands::{base_in, initializer_in, type_in};
use c_syntax::{Declaration, Init};
use declarator_types::{ValueType, size_of};
use rvt_tree::{Stmt, Variable};
use std::alloc::{AllocError, Global};
use typing_base::{Entity, Environment, Fault, Local, Notes, QualifiedType, copied_name};

// ---- one declarator

/// The local gets its number.
fn numbered(
    alloc: Global,
    environment: &Environment,
    init: &Init,
    ty: &ValueType,
    notes: &mut Notes,
) -> Result<u32, Fault>
    ensures { Becomes (λ number. number) (numbered (local_of (init_view init.now) (structures_view environment.now.structs.items) (value_type_view ty.now)) (notes_view notes.old)) result notes.new }
{
    let cells = size_of(&environment.structs, &ty.ty)?;
    let name = copied_name(alloc, &init.declarator.word.name)?;
    let copy = copied_type(alloc, &ty.ty)?;
    notes.number_local(Local {
        name,
        place: init.declarator.word.place,
        ty: copy,
        cells,
        constant: ty.constant,
    })
}

/// The local is in scope from here on.
fn declare(
    alloc: Global,
    environment: &mut Environment,
    block: Block,
    init: &Init,
    number: u32,
    ty: &ValueType,
) -> Result<(), AllocError>
    requires within { block.height ≤ length environment.old.names }
    ensures block { OnOk result (block_view environment.new block ≡ with_local_named number (local_of (init_view init.now) (structures_view environment.old.structs.items) (value_type_view ty.now)) (block_view environment.old block)) }
    ensures declared { OnOk result (Extends environment.old environment.new) }
{
    let copy = copied_type(alloc, &ty.ty)?;
    let entity = Entity::Local(number, copy, ty.constant);
    environment
        .names
        .declare(init.declarator.word.name.bytes(), entity)?;
    Ok(())
}

fn initialized(
    alloc: Global,
    environment: &Environment,
    block: Block,
    number: u32,
    init: &Init,
    ty: &ValueType,
    notes: &mut Notes,
) -> Result<Stmt, Fault>
    ensures { Becomes stmt_view (initialized (block_view environment.now block) number (local_of (init_view init.now) (structures_view environment.now.structs.items) (value_type_view ty.now)) (init_view init.now).value (notes_view notes.old)) result notes.new }
{
    match &init.value {
        None => Ok(Stmt::Declare(Variable::Local(number))),
        Some(i) => {
            let i = initializer_in(alloc, environment, block, &ty.ty, i, notes)?;
            Ok(Stmt::DeclareWith(Variable::Local(number), i))
        }
    }
}

/// The length, the type, the name, and then the initializer.
fn typed_declarator(
    alloc: Global,
    environment: &mut Environment,
    block: Block,
    base: &QualifiedType,
    init: &Init,
    notes: &mut Notes,
) -> Result<Stmt, Fault>
    requires within { block.height ≤ length environment.old.names }
    ensures typed { Becomes (one_declared environment.new block) (typed_declarator (block_view environment.old block) (qualified_view base.now) (init_view init.now) (notes_view notes.old)) result notes.new }
    ensures declared { OnOk result (Extends environment.old environment.new) }
{
    let ty = type_in(alloc, environment, block, base, init, notes)?;
    unless_declared(alloc, environment, block, &init.declarator.word)?;
    let number = numbered(alloc, environment, init, &ty, notes)?;
    declare(alloc, environment, block, init, number, &ty)?;
    let s = initialized(alloc, environment, block, number, init, &ty, notes)?;
    Ok(s)
}

// ---- declarations

fn put(made: &mut Vec<Stmt>, s: Stmt) -> Result<(), AllocError>
    ensures { OnOk result (made.new.items ≡ made.old.items ++ s ∷ []) }
{
    made.push(s)?;
    Ok(())
}

fn typed_declarators(
    alloc: Global,
    environment: &mut Environment,
    block: Block,
    base: &QualifiedType,
    inits: &[Init],
    notes: &mut Notes,
) -> Result<Vec<Stmt>, Fault>
    requires within { block.height ≤ length environment.old.names }
    ensures typed { Becomes (λ made. declared_view environment.new block made.items) (typed_declarators (block_view environment.old block) (qualified_view base.now) (map init_view inits.now) (notes_view notes.old)) result notes.new }
    ensures declared { OnOk result (Extends environment.old environment.new) }
{
    let mut made = Vec::new(alloc);
    let mut rest = inits;
    'declarators: while let [init, others @ ..] = rest {
        let s = typed_declarator(alloc, environment, block, base, init, notes)?;
        put(&mut made, s)?;
        rest = others;
    }
    Ok(made)
}

/// The declarators of a base.
fn declared_with(
    alloc: Global,
    environment: &mut Environment,
    block: Block,
    base: QualifiedType,
    inits: &[Init],
    notes: &mut Notes,
) -> Result<Vec<Stmt>, Fault>
    requires within { block.height ≤ length environment.old.names }
    ensures typed { Becomes (λ made. declared_view environment.new block made.items) (typed_declarators (block_view environment.old block) (qualified_view base) (map init_view inits.now) (notes_view notes.old)) result notes.new }
    ensures declared { OnOk result (Extends environment.old environment.new) }
{
    typed_declarators(alloc, environment, block, &base, inits, notes)
}

/// A declaration in a block; what it declares stays in scope.
pub fn typed_declaration(
    alloc: Global,
    environment: &mut Environment,
    block: Block,
    declaration: &Declaration,
    notes: &mut Notes,
) -> Result<Vec<Stmt>, Fault>
    requires within { block.height ≤ length environment.old.names }
    ensures typed { Becomes (λ made. declared_view environment.new block made.items) (typed_declaration (block_view environment.old block) (declaration_view declaration.now) (notes_view notes.old)) result notes.new }
    ensures declared { OnOk result (Extends environment.old environment.new) }
{
    let base = base_in(alloc, environment, block, &declaration.base)?;
    let inits = declaration.inits.as_slice();
    declared_with(alloc, environment, block, base, inits, notes)
}

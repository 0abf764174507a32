//! Parameters of functions (C 6.7.6.3).

ghost use Rattle.std.specs.Prelude.{◌≡◌, ◌≤◌, length, map, IfOk, OnOk};
ghost use Rattle.c_syntax.specs.Views.{param_view, params_view};
ghost use Rattle.file_typing.specs.FunctionDeclarators.{parameter_of, place_of_parameter, type_of_parameter, typed_list, typed_parameter, typed_parameters, unless_nameless, unless_repeated, with_parameter};
ghost use Rattle.file_typing.specs.FunctionNotes.{numbered};
ghost use Rattle.typing_base.specs.Follows.{Becomes, Gives};
ghost use Rattle.typing_base.specs.NoteViews.{local_view};
ghost use Rattle.typing_base.specs.Views.{notes_view, qualified_view, scope_view};
ghost use Rattle.declarator_types.specs.Views.{value_type_view};
ghost use Rattle.file_declarations.specs.Parameters.{parameters_view, Extends};
ghost use Rattle.file_declarations.specs.Steps.{type_on_base};

use c_syntax::{Param, Params};
use declarator_types::{Sort, ValueType, adjusted, declared_type, value_type};
use expression_elaboration::{base_type, lengths, pointed};
use file_state::{copied_type, unless_declared};
use rvt_num::Kind;
use rvt_tree::{Name, Place};
use std::alloc::{AllocError, Global};
use typing_base::{Entity, Environment, Fault, Local, Notes, QualifiedType, Scope, wrong_type};

/// Where a parameter is declared.
fn place_of_parameter(p: &Param) -> Place
    ensures { result ≡ place_of_parameter (param_view p.now) }
{
    match &p.word {
        None => p.base.place,
        Some(word) => word.place,
    }
}

/// The parameters of a definition have names (C 6.9.1).
fn unless_nameless(with_names: bool, p: &Param) -> Result<(), Fault>
    ensures { Gives (λ x. x) (unless_nameless with_names (param_view p.now)) result }
{
    if !with_names {
        return Ok(());
    }
    match &p.word {
        Some(_) => Ok(()),
        None => Err(wrong_type(p.base.place)),
    }
}

fn unless_repeated(
    alloc: Global,
    environment: &Environment,
    height: usize,
    found: Option<Kind>,
    p: &Param,
) -> Result<(), Fault>
    ensures { Gives (λ x. x) (unless_repeated (parameters_view environment.now height found) (param_view p.now).word) result }
{
    match &p.word {
        None => Ok(()),
        Some(word) => unless_declared(alloc, &environment.names, height, word),
    }
}

/// The parameter as a local.
fn parameter_of(alloc: Global, p: &Param, ty: &ValueType) -> Result<Local, AllocError>
    ensures { IfOk result (λ local. local_view local ≡ parameter_of (param_view p.now) (value_type_view ty.now)) }
{
    let name = match &p.word {
        None => Name::new(alloc, &[])?,
        Some(word) => Name::new(alloc, word.name.bytes())?,
    };
    let copy = copied_type(alloc, &ty.ty)?;
    Ok(Local {
        name,
        place: place_of_parameter(p),
        ty: copy,
        cells: 1,
        constant: ty.constant,
    })
}

/// A parameter with a name is in scope from the next one on.
#[tactic(auto, using(crate::proofs::Extensions::name_added, crate::proofs::Extensions::extends_same, crate::proofs::Extensions::extends_name))]
fn with_parameter(
    environment: &mut Environment,
    height: usize,
    found: Option<Kind>,
    p: &Param,
    number: u32,
    ty: ValueType,
) -> Result<(), AllocError>
    requires within { height ≤ length environment.old.names }
    ensures declared { OnOk result (parameters_view environment.new height found ≡ with_parameter (param_view p.now).word number (parameter_of (param_view p.now) (value_type_view ty)) (parameters_view environment.old height found)) }
    ensures extends { OnOk result (Extends environment.old environment.new) }
{
    match &p.word {
        None => Ok(()),
        Some(word) => {
            let entity = Entity::Local(number, ty.ty, ty.constant);
            environment.names.declare(word.name.bytes(), entity)?;
            Ok(())
        }
    }
}

/// The type of a parameter whose base has this type: its lengths, and then what it may be.
fn type_on_base(
    alloc: Global,
    with_names: bool,
    scope: Scope,
    base: QualifiedType,
    p: &Param,
    notes: &mut Notes,
) -> Result<ValueType, Fault>
    ensures { Becomes value_type_view (type_on_base with_names (scope_view scope.entry) (qualified_view base) (param_view p.now) (notes_view notes.old)) result notes.new }
{
    let counts = lengths(alloc, scope, &p.dims, notes)?;
    unless_nameless(with_names, p)?;
    let at = place_of_parameter(p);
    let whole = pointed(p.pointer, base);
    let ty = declared_type(alloc, Sort::Parameter, scope.structs(), at, whole, &counts)?;
    let ty = value_type(at, ty)?;
    Ok(adjusted(ty))
}

fn type_of_parameter(
    alloc: Global,
    with_names: bool,
    environment: &Environment,
    height: usize,
    found: Option<Kind>,
    p: &Param,
    notes: &mut Notes,
) -> Result<ValueType, Fault>
    ensures { Becomes value_type_view (type_of_parameter with_names (parameters_view environment.now height found) (param_view p.now) (notes_view notes.old)) result notes.new }
{
    let scope = Scope {
        environment,
        evaluated: true,
    };
    let base = base_type(alloc, scope, &p.base)?;
    type_on_base(alloc, with_names, scope, base, p, notes)
}

fn typed_parameter(
    alloc: Global,
    with_names: bool,
    environment: &mut Environment,
    height: usize,
    found: Option<Kind>,
    p: &Param,
    notes: &mut Notes,
) -> Result<(), Fault>
    requires within { height ≤ length environment.old.names }
    ensures typed { Becomes (λ _. parameters_view environment.new height found) (typed_parameter with_names (parameters_view environment.old height found) (param_view p.now) (notes_view notes.old)) result notes.new }
    ensures extends { OnOk result (Extends environment.old environment.new) }
{
    let ty = type_of_parameter(alloc, with_names, environment, height, found, p, notes)?;
    unless_repeated(alloc, environment, height, found, p)?;
    let local = parameter_of(alloc, p, &ty)?;
    let number = notes.number_local(local)?;
    with_parameter(environment, height, found, p, number, ty)?;
    Ok(())
}

#[tactic(auto, using(crate::proofs::Extensions::extends_same, crate::proofs::Extensions::extends_more, crate::proofs::Extensions::extends_within))]
fn typed_list(
    alloc: Global,
    with_names: bool,
    environment: &mut Environment,
    height: usize,
    found: Option<Kind>,
    params: &[Param],
    notes: &mut Notes,
) -> Result<(), Fault>
    requires within { height ≤ length environment.old.names }
    ensures typed { Becomes (λ _. parameters_view environment.new height found) (typed_list with_names (parameters_view environment.old height found) (map param_view params.now) (notes_view notes.old)) result notes.new }
    ensures extends { OnOk result (Extends environment.old environment.new) }
{
    let mut rest = params;
    'params: while let [p, others @ ..] = rest {
        typed_parameter(alloc, with_names, environment, height, found, p, notes)?;
        rest = others;
    }
    Ok(())
}

/// The parameters are declared in the block that begins at the height; their types are noted in order.
#[tactic(auto, using(crate::proofs::Extensions::extends_same))]
pub fn typed_parameters(
    alloc: Global,
    with_names: bool,
    environment: &mut Environment,
    height: usize,
    found: Option<Kind>,
    params: &Params,
    notes: &mut Notes,
) -> Result<(), Fault>
    requires within { height ≤ length environment.old.names }
    ensures typed { Becomes (λ _. parameters_view environment.new height found) (typed_parameters with_names (parameters_view environment.old height found) (params_view params.now) (notes_view notes.old)) result notes.new }
    ensures extends { OnOk result (Extends environment.old environment.new) }
{
    match params {
        Params::Nothing => Ok(()),
        Params::Void => Ok(()),
        Params::List(list) => {
            let list = list.as_slice();
            typed_list(alloc, with_names, environment, height, found, list, notes)
        }
    }
}

//! The names of a function's parameters: they are found behind its header, and declared once more for its body.

ghost use Rattle.std.specs.Prelude.{◌≡◌, ◌≤◌, ◌++◌, length, map, option_map, IfOk, OnOk};
ghost use Rattle.c_syntax.specs.Views.{param_view, params_view};
ghost use Rattle.file_typing.specs.Blocks.{with_binding};
ghost use Rattle.file_typing.specs.FunctionDeclarators.{typed_parameters};
ghost use Rattle.file_typing.specs.FunctionDefinitions.{outermost};
ghost use Rattle.typing_base.specs.Follows.{Becomes};
ghost use Rattle.typing_base.specs.Views.{entity_view, notes_view};
ghost use Rattle.file_state.specs.Views.{file_state_view};
ghost use Rattle.file_items.specs.FunctionHeaders.{binding_in, bindings_in, block_of_parameters, found_as, list_of, parameter_binding, with_bindings};
ghost use Rattle.statement_elaboration.specs.Views.{block_view, Extends};

use c_syntax::{Param, Params, Word};
use file_declarations::typed_parameters;
use file_state::{FileState, copied_type, entity_in};
use rvt_num::Kind;
use rvt_tree::{CType, Name};
use statement_elaboration::Block;
use std::alloc::{AllocError, Global};
use typing_base::{Entity, Environment, Fault, Notes, copied_name};

/// A parameter that has a name: its number, its type, and whether it is `const`.
#[derive(Debug, Drop)]
pub struct Parameter {
    pub name: Name,
    pub number: u32,
    pub ty: CType,
    pub constant: bool,
}

// ---- what the names stand for

// What a name of a parameter stands for is a local.
fn put_found(
    alloc: Global,
    found: &mut Vec<Parameter>,
    word: &Word,
    entity: Option<&Entity>,
) -> Result<(), AllocError>
    ensures { OnOk result (map parameter_binding found.new.items ≡ map parameter_binding found.old.items ++ found_as word.now (option_map (λ entity. entity_view entity.now) entity.entry)) }
{
    match entity {
        None => Ok(()),
        Some(Entity::Local(number, ty, constant)) => {
            let name = copied_name(alloc, &word.name)?;
            let ty = copied_type(alloc, ty)?;
            found.push(Parameter {
                name,
                number: *number,
                ty,
                constant: *constant,
            })?;
            Ok(())
        }
        Some(Entity::Object(_, _, _)) => Err(AllocError),
        Some(Entity::Function(_, _, _)) => Err(AllocError),
        Some(Entity::Constant(_)) => Err(AllocError),
        Some(Entity::Null) => Err(AllocError),
        Some(Entity::Typedef(_)) => Err(AllocError),
    }
}

fn put_parameter(
    alloc: Global,
    state: &FileState,
    found: &mut Vec<Parameter>,
    p: &Param,
) -> Result<(), AllocError>
    ensures { OnOk result (map parameter_binding found.new.items ≡ map parameter_binding found.old.items ++ binding_in (file_state_view state.now).names (param_view p.now).word) }
{
    match &p.word {
        None => Ok(()),
        Some(word) => {
            let entity = entity_in(state, word.name.bytes());
            put_found(alloc, found, word, entity)?;
            Ok(())
        }
    }
}

fn found_in_list(
    alloc: Global,
    state: &FileState,
    params: &[Param],
) -> Result<Vec<Parameter>, AllocError>
    ensures { IfOk result (λ found. map parameter_binding found.items ≡ bindings_in (file_state_view state.now).names (map param_view params.now)) }
{
    let mut found = Vec::new(alloc);
    let mut rest = params;
    'params: while let [p, others @ ..] = rest {
        put_parameter(alloc, state, &mut found, p)?;
        rest = others;
    }
    Ok(found)
}

fn found_parameters(
    alloc: Global,
    state: &FileState,
    params: &Params,
) -> Result<Vec<Parameter>, AllocError>
    ensures { IfOk result (λ found. map parameter_binding found.items ≡ bindings_in (file_state_view state.now).names (list_of (params_view params.now))) }
{
    match params {
        Params::Nothing => Ok(Vec::new(alloc)),
        Params::Void => Ok(Vec::new(alloc)),
        Params::List(list) => {
            let found = found_in_list(alloc, state, list.as_slice())?;
            Ok(found)
        }
    }
}

/// The parameters of a header, whose names are forgotten again.
pub fn parameters_of_header(
    alloc: Global,
    with_names: bool,
    state: &mut FileState,
    kind: Option<Kind>,
    params: &Params,
    notes: &mut Notes,
) -> Result<Vec<Parameter>, Fault>
    ensures typed { Becomes (λ made. block_of_parameters (file_state_view state.old) kind made.items) (typed_parameters with_names (outermost (file_state_view state.old) kind) (params_view params.now) (notes_view notes.old)) result notes.new }
    ensures same { OnOk result (state.new ≡ state.old) }
{
    let height = state.environment.names.height();
    typed_parameters(
        alloc,
        with_names,
        &mut state.environment,
        height,
        kind,
        params,
        notes,
    )?;
    let parameters = found_parameters(alloc, state, params)?;
    state.environment.names.leave(height);
    Ok(parameters)
}

// ---- the names once more

#[tactic(auto, using(crate::proofs::Extensions::name_added, crate::proofs::Extensions::extends_name))]
fn declare(
    alloc: Global,
    environment: &mut Environment,
    block: Block,
    parameter: &Parameter,
) -> Result<(), AllocError>
    requires within { block.height ≤ length environment.old.names }
    ensures declared { OnOk result (block_view environment.new block ≡ with_binding (parameter_binding parameter.now) (block_view environment.old block)) }
    ensures extends { OnOk result (Extends environment.old environment.new) }
{
    let ty = copied_type(alloc, &parameter.ty)?;
    let entity = Entity::Local(parameter.number, ty, parameter.constant);
    environment.names.declare(parameter.name.bytes(), entity)?;
    Ok(())
}

/// The parameters are declared in a block.
#[tactic(auto, using(crate::proofs::Extensions::extends_same, crate::proofs::Extensions::extends_more, crate::proofs::Extensions::extends_within))]
pub fn declare_parameters(
    alloc: Global,
    environment: &mut Environment,
    block: Block,
    parameters: &[Parameter],
) -> Result<(), AllocError>
    requires within { block.height ≤ length environment.old.names }
    ensures declared { OnOk result (block_view environment.new block ≡ with_bindings (map parameter_binding parameters.now) (block_view environment.old block)) }
    ensures extends { OnOk result (Extends environment.old environment.new) }
{
    let mut rest = parameters;
    'parameters: while let [parameter, others @ ..] = rest {
        declare(alloc, environment, block, parameter)?;
        rest = others;
    }
    Ok(())
}

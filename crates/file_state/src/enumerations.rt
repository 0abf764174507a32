//! Enums (C 6.7.2.2).

ghost use Rattle.std.specs.Prelude.{◌≡◌, ◌≤ℤ◌, OnOk, IfOk};
ghost use Rattle.rvt_num.specs.Kinds.{IsOf};
ghost use Rattle.rvt_num.specs.declared.kinds.Kind.TheVariants.{I32};
ghost use Rattle.file_typing.specs.Enumerations.{begins_enum, is_int, with_constant, with_enum};
ghost use Rattle.typing_base.specs.Follows.{Gives};
ghost use Rattle.file_state.specs.Indexes.{IsIndexed};
ghost use Rattle.file_state.specs.Views.{file_state_view};

use crate::names::{declared_twice, with_name};
use crate::states::FileState;
use crate::tags::{tagged_in, with_tag};
use c_syntax::Word;
use rvt_num::{Kind, Num};
use std::alloc::{AllocError, Global};
use typing_base::{Entity, Fault, Tagged, wrong_type};

/// The value of a constant is one of `int`.
pub fn is_int(word: &Word, value: i128) -> Result<(), Fault>
    ensures int { Gives (λ x. x) (is_int word.now value) result }
    ensures within { OnOk result (IsOf I32 value) }
{
    if value < -2_147_483_648 || value > 2_147_483_647 {
        return Err(wrong_type(word.place));
    }
    Ok(())
}

/// One more constant of an enum.
#[tactic(auto, using(crate::proofs::Integers::wrapped_int))]
pub fn with_constant(state: &mut FileState, word: &Word, value: i128) -> Result<(), AllocError>
    requires int { IsOf I32 value }
    requires indexed { IsIndexed state.old }
    ensures named { OnOk result (file_state_view state.new ≡ with_constant word.now value (file_state_view state.old)) }
    ensures indexed { OnOk result (IsIndexed state.new) }
{
    let number = Num::wrapped(Kind::I32, value);
    with_name(state, &word.name, Entity::Constant(number))?;
    Ok(())
}

/// A tag has one body, and is that of a struct or of an enum.
pub fn begins_enum(alloc: Global, state: &FileState, tag: &Option<Word>) -> Result<(), Fault>
    ensures { Gives (λ x. x) (begins_enum (file_state_view state.now) tag.now) result }
{
    match tag {
        None => Ok(()),
        Some(tag) => match tagged_in(state, tag.name.bytes()) {
            None => Ok(()),
            Some(_) => {
                let fault = declared_twice(alloc, tag)?;
                Err(fault)
            }
        },
    }
}

/// The tag of an enum, if it has one, is known from here on.
pub fn with_enum(state: &mut FileState, tag: &Option<Word>) -> Result<(), AllocError>
    requires indexed { IsIndexed state.old }
    ensures tagged { OnOk result (file_state_view state.new ≡ with_enum tag.now (file_state_view state.old)) }
    ensures indexed { OnOk result (IsIndexed state.new) }
{
    match tag {
        None => Ok(()),
        Some(tag) => {
            with_tag(state, &tag.name, Tagged::Enum)?;
            Ok(())
        }
    }
}

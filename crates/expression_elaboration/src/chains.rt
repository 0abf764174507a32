//! Chains of suffixes and of casts, which may be long: they are gone through by loops.

ghost use Rattle.std.specs.Prelude.{◌≡◌, ◌++◌, ◌∷◌, [], ◌<◌, ◌≤◌, OnOk, IfOk, MatchOption, map};
ghost use Rattle.std.specs.List.{All};
ghost use Rattle.c_syntax.specs.Syntax.{no_suffixes};
ghost use Rattle.c_syntax.specs.Views.{suffixes_view};
ghost use Rattle.c_syntax.specs.declared.expressions.Suffixes.{size-Suffixes};
ghost use Rattle.typing_base.specs.Views.{operand_view};
ghost use Rattle.typing_base.specs.Follows.{GivesOperand};
ghost use Rattle.expression_elaboration.specs.Views.{cast_view};
ghost use Rattle.expression_elaboration.specs.Chains.{after, stacked, cast_back};

use c_syntax::Suffixes;
use operator_rules::{WrittenType, cast_to};
use rvt_tree::Place;
use std::alloc::{AllocError, Global};
use typing_base::{Fault, Operand};

// ---- suffixes

/// What a suffix follows.
fn before<'e>(suffixes: &'e Suffixes) -> Option<&'e Suffixes>
    ensures { MatchOption result (suffixes_view suffixes.now ≡ no_suffixes) (λ earlier. (after (suffixes_view suffixes.now) (suffixes_view earlier.now) ≡ suffixes_view suffixes.now) × (size-Suffixes earlier.now < size-Suffixes suffixes.now)) }
{
    match suffixes {
        Suffixes::End => None,
        Suffixes::Index(_, _, earlier) => Some(earlier),
        Suffixes::Dot(_, _, earlier) => Some(earlier),
        Suffixes::Arrow(_, _, earlier) => Some(earlier),
    }
}

/// The suffixes of a chain, the last one first.
pub fn chain_of<'e>(alloc: Global, suffixes: &'e Suffixes) -> Result<Vec<&'e Suffixes>, AllocError>
    ensures chain { IfOk result (λ chain. stacked (map (λ s. suffixes_view s.now) chain.items) no_suffixes ≡ suffixes_view suffixes.now) }
    ensures no_deeper { IfOk result (λ chain. All (λ s. size-Suffixes s.now ≤ size-Suffixes suffixes.now) chain.items) }
{
    let mut chain = Vec::new(alloc);
    let mut rest = suffixes;
    'suffixes: loop {
        match before(rest) {
            None => return Ok(chain),
            Some(earlier) => {
                put_suffix(&mut chain, rest)?;
                rest = earlier;
            }
        }
    }
}

fn put_suffix<'e>(chain: &mut Vec<&'e Suffixes>, suffix: &'e Suffixes) -> Result<(), AllocError>
    ensures { OnOk result (chain.new.items ≡ chain.old.items ++ suffix.entry ∷ []) }
{
    chain.push(suffix)?;
    Ok(())
}

// ---- casts

/// A cast to a type, at its `(`.
#[derive(Debug, Drop)]
pub struct CastTo {
    pub place: Place,
    pub ty: WrittenType,
}

pub fn put_cast(casts: &mut Vec<CastTo>, place: Place, ty: WrittenType) -> Result<(), AllocError>
    ensures { OnOk result (casts.new.items ≡ casts.old.items ++ record { place = place; ty = ty } ∷ []) }
{
    casts.push(CastTo { place, ty })?;
    Ok(())
}

/// An operand that is cast, by the last of the casts first.
pub fn cast_back<'t>(
    alloc: Global,
    casts: Vec<CastTo>,
    x: Operand<'t>,
) -> Result<Operand<'t>, Fault>
    ensures { GivesOperand (cast_back (map cast_view casts.items) (operand_view x.entry)) result }
{
    let mut casts = casts;
    let mut x = x;
    'casts: while let Some(cast) = casts.pop() {
        match cast_to(alloc, cast.place, &cast.ty, x) {
            Ok(made) => x = made,
            Err(fault) => return Err(fault),
        }
    }
    Ok(x)
}

// ---- arguments and lengths

pub fn put(items: &mut Vec<rvt_tree::Expr>, item: rvt_tree::Expr) -> Result<(), AllocError>
    ensures { OnOk result (items.new.items ≡ items.old.items ++ item ∷ []) }
{
    items.push(item)?;
    Ok(())
}

pub fn put_length(lengths: &mut Vec<Option<i128>>, length: Option<i128>) -> Result<(), AllocError>
    ensures { OnOk result (lengths.new.items ≡ lengths.old.items ++ length ∷ []) }
{
    lengths.push(length)?;
    Ok(())
}

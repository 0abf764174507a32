//! Which type a base, a pointer and dimensions name (C 6.7.2, 6.7.3, 6.7.6, 6.7.7, 6.7.8).

ghost use Rattle.std.specs.Prelude.{◌≡◌, IfOk, option_map, false};
ghost use Rattle.std.specs.List.{list_any};
ghost use Rattle.c_types.specs.Layout.{shape_of};
ghost use Rattle.expression_typing.specs.TypeNames.{kind_of_words, by_sign, type_of_words, typedef_named, struct_named, enum_named, specified, base_type, pointer_type, pointed};
ghost use Rattle.typing_base.specs.Views.{named_view, qualified_view, entity_view, tagged_view, scope_view};
ghost use Rattle.typing_base.specs.Follows.{Gives};
ghost use Rattle.expression_elaboration.specs.TypeWords.{is_word};

use c_syntax::{Base, Pointer, Specifier, TypeWord, Word};
use place_rules::pointee_of;
use rvt_num::Kind;
use rvt_tree::{CType, Name, Place};
use std::alloc::{AllocError, Global};
use typing_base::{Cause, Entity, Fault, NamedType, QualifiedType, Scope, Tagged, broken};

// ---- type words (C 6.7.2), which stand in any order

fn is_word(wanted: TypeWord, word: TypeWord) -> bool
    ensures { result ≡ is_word wanted word }
{
    match wanted {
        TypeWord::Void => matches!(word, TypeWord::Void),
        TypeWord::Char => matches!(word, TypeWord::Char),
        TypeWord::Short => matches!(word, TypeWord::Short),
        TypeWord::Int => matches!(word, TypeWord::Int),
        TypeWord::Long => matches!(word, TypeWord::Long),
        TypeWord::Signed => matches!(word, TypeWord::Signed),
        TypeWord::Unsigned => matches!(word, TypeWord::Unsigned),
        TypeWord::Bool => matches!(word, TypeWord::Bool),
    }
}

fn stands(wanted: TypeWord, words: &[TypeWord]) -> bool
    ensures { result ≡ list_any (is_word wanted) words.now }
{
    let mut left = words;
    'words: while let [word, rest @ ..] = left {
        if is_word(wanted, *word) {
            return true;
        }
        left = rest;
    }
    false
}

/// The second kind if `unsigned` stands among the words.
fn by_sign(words: &[TypeWord], plain: Kind, other: Kind) -> Kind
    ensures { result ≡ by_sign words.now plain other }
{
    if stands(TypeWord::Unsigned, words) {
        other
    } else {
        plain
    }
}

fn kind_of_words(words: &[TypeWord]) -> Kind
    ensures { result ≡ kind_of_words words.now }
{
    if stands(TypeWord::Bool, words) {
        Kind::Bool
    } else if stands(TypeWord::Char, words) {
        by_sign(words, Kind::I8, Kind::U8)
    } else if stands(TypeWord::Short, words) {
        by_sign(words, Kind::I16, Kind::U16)
    } else if stands(TypeWord::Long, words) {
        by_sign(words, Kind::I64, Kind::U64)
    } else {
        by_sign(words, Kind::I32, Kind::U32)
    }
}

/// The type that type words name.
pub fn type_of_words(words: &[TypeWord]) -> NamedType
    ensures { named_view result ≡ type_of_words words.now }
{
    if stands(TypeWord::Void, words) {
        NamedType::NoValue
    } else {
        NamedType::Type(CType::Word(kind_of_words(words)))
    }
}

// ---- bases

/// A type that is not `const`.
fn plain(named: NamedType) -> QualifiedType
    ensures { result ≡ record { named = named; constant = false } }
{
    QualifiedType {
        named,
        constant: false,
    }
}

/// A copy of a type.
#[cycle(copied)]
fn copied(alloc: Global, ty: &CType) -> Result<CType, AllocError>
    ensures { IfOk result (λ copy. shape_of copy ≡ shape_of ty.now) }
{
    match ty {
        CType::Word(kind) => Ok(CType::Word(*kind)),
        CType::Pointer(pointee, constant) => Ok(CType::Pointer(*pointee, *constant)),
        CType::Array(item, count) => {
            let item = copied(alloc, item)?;
            Ok(CType::Array(Box::new(alloc, item)?, *count))
        }
        CType::Struct(number) => Ok(CType::Struct(*number)),
    }
}

fn copied_named(alloc: Global, named: &NamedType) -> Result<NamedType, AllocError>
    ensures { IfOk result (λ copy. named_view copy ≡ named_view named.now) }
{
    match named {
        NamedType::NoValue => Ok(NamedType::NoValue),
        NamedType::Type(ty) => Ok(NamedType::Type(copied(alloc, ty)?)),
        NamedType::PointerElsewhere => Ok(NamedType::PointerElsewhere),
    }
}

/// The name of a typedef (C 6.7.8).
fn typedef_named(
    alloc: Global,
    word: &Word,
    entity: Option<&Entity>,
) -> Result<QualifiedType, Fault>
    ensures { Gives qualified_view (typedef_named word.now (option_map (λ e. entity_view e.now) entity.entry)) result }
{
    match entity {
        Some(Entity::Typedef(ty)) => Ok(QualifiedType {
            named: copied_named(alloc, &ty.named)?,
            constant: ty.constant,
        }),
        _ => Err(broken(
            Cause::UnknownName(Name::new(alloc, word.name.bytes())?),
            word.place,
        )),
    }
}

/// The tag of a struct (C 6.7.2.3).
fn struct_named(alloc: Global, word: &Word, tagged: Option<Tagged>) -> Result<QualifiedType, Fault>
    ensures { Gives qualified_view (struct_named word.now (option_map tagged_view tagged)) result }
{
    match tagged {
        Some(Tagged::Struct(number)) => Ok(plain(NamedType::Type(CType::Struct(number)))),
        Some(Tagged::Enum) => Err(broken(Cause::WrongType, word.place)),
        None => Err(broken(
            Cause::UnknownName(Name::new(alloc, word.name.bytes())?),
            word.place,
        )),
    }
}

/// The tag of an enum, which is `int` (C 6.7.2.2).
fn enum_named(alloc: Global, word: &Word, tagged: Option<Tagged>) -> Result<QualifiedType, Fault>
    ensures { Gives qualified_view (enum_named word.now (option_map tagged_view tagged)) result }
{
    match tagged {
        Some(Tagged::Enum) => Ok(plain(NamedType::Type(CType::Word(Kind::I32)))),
        Some(Tagged::Struct(_)) => Err(broken(Cause::WrongType, word.place)),
        None => Err(broken(
            Cause::UnknownName(Name::new(alloc, word.name.bytes())?),
            word.place,
        )),
    }
}

/// Without a tag, a struct or an enum is named by its members alone.
fn specified(
    alloc: Global,
    scope: Scope,
    at: Place,
    specifier: &Specifier,
) -> Result<QualifiedType, Fault>
    ensures { Gives qualified_view (specified (scope_view scope.entry) at specifier.now) result }
{
    match specifier {
        Specifier::Words(words) => Ok(plain(type_of_words(words.as_slice()))),
        Specifier::Named(word) => typedef_named(alloc, word, scope.entity(word.name.bytes())),
        Specifier::Struct(Some(word)) => {
            struct_named(alloc, word, scope.tagged(word.name.bytes()))
        }
        Specifier::Struct(None) => Err(broken(Cause::WrongType, at)),
        Specifier::Enum(Some(word)) => enum_named(alloc, word, scope.tagged(word.name.bytes())),
        Specifier::Enum(None) => Err(broken(Cause::WrongType, at)),
    }
}

/// The type that a base names, `const` where the base or its typedef says so (C 6.7.3).
pub fn base_type(alloc: Global, scope: Scope, base: &Base) -> Result<QualifiedType, Fault>
    ensures { Gives qualified_view (base_type (scope_view scope.entry) base.now) result }
{
    let ty = specified(alloc, scope, base.place, &base.specifier)?;
    Ok(QualifiedType {
        named: ty.named,
        constant: base.constant || ty.constant,
    })
}

// ---- pointers (C 6.7.6.1)

/// A pointer to an integer kind or a struct, `const` or not.
fn pointer_type(constant: bool, named: NamedType) -> NamedType
    ensures { named_view result ≡ pointer_type constant (named_view named) }
{
    match named {
        NamedType::NoValue => NamedType::PointerElsewhere,
        NamedType::PointerElsewhere => NamedType::PointerElsewhere,
        NamedType::Type(ty) => match pointee_of(&ty) {
            Some(pointee) => NamedType::Type(CType::Pointer(pointee, constant)),
            None => NamedType::PointerElsewhere,
        },
    }
}

/// A type, or a pointer to it. A `const` after the `*` is the pointer's own.
pub fn pointed(pointer: Option<Pointer>, ty: QualifiedType) -> QualifiedType
    ensures { qualified_view result ≡ pointed pointer (qualified_view ty) }
{
    match pointer {
        None => ty,
        Some(pointer) => QualifiedType {
            named: pointer_type(ty.constant, ty.named),
            constant: pointer.constant,
        },
    }
}

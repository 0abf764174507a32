//! A base whose tokens are being read.

ghost use Rattle.std.specs.Prelude.{◌≡◌};
ghost use Rattle.expression_actions.specs.Bases as spec;

use c_syntax::{Base, Specifier, TypeWord};
use rvt_tree::Place;
use sqlite_items::Items;
use std::alloc::Global;

/// What has been read of a base: the place of its first token, its type words, and its tag or type name.
#[derive(Drop)]
pub struct HalfBase {
    pub place: Option<Place>,
    pub constant: bool,
    pub words: Items<TypeWord>,
    pub tag: Option<Specifier>,
}

impl HalfBase {
    /// Before its first token.
    pub fn new(alloc: Global) -> HalfBase
        ensures { result ≡ spec.empty_base }
    {
        HalfBase {
            place: None,
            constant: false,
            words: Items::new(alloc),
            tag: None,
        }
    }

    /// A token of it at this place was read.
    pub fn begin(&mut self, place: Place)
        ensures { self.new ≡ spec.begun_at place self.old }
    {
        if self.place.is_none() {
            self.place = Some(place);
        }
    }

    /// The base, all of whose tokens were read.
    pub fn finish(self) -> Base
        ensures { result ≡ spec.base_of self }
    {
        let HalfBase {
            place,
            constant,
            words,
            tag,
        } = self;
        Base {
            place: place_or_first(place),
            constant,
            specifier: specifier(words, tag),
        }
    }
}

/// The place of its first token, which each base has.
fn place_or_first(place: Option<Place>) -> Place
    ensures { result ≡ spec.place_of place }
{
    match place {
        Some(place) => place,
        None => Place { line: 1, column: 1 },
    }
}

/// Which type it is: that of its tag or type name, else that of its words.
fn specifier(words: Items<TypeWord>, tag: Option<Specifier>) -> Specifier
    ensures { result ≡ spec.specifier_of words tag }
{
    match tag {
        Some(tag) => tag,
        None => Specifier::Words(words),
    }
}

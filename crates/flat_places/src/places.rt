ghost use Rattle.std.specs.Prelude.{◌≡◌, get_or, set, replicate, IfOk};
ghost use Rattle.flat_places.specs.Nowhere.{nowhere};

use c_places::Location;
use rvt_tree::Variable;
use std::alloc::{AllocError, Global};
use std::marker::Model;

/// An array of places, which contracts see as their list. Nothing but `new` takes memory.
#[derive(Drop, Debug)]
pub struct FlatPlaces {
    places: Vec<Location>,
}

impl Model for FlatPlaces {
    ghost use Rattle.std.specs.Prelude.{List};
    ghost use Rattle.c_meaning.specs.Stores.{Location as Place};

    ghost Value = { List Place };

    ghost view = { λ it. it.places.items };
}

impl FlatPlaces {
    /// So many places, each nowhere.
    pub fn new(alloc: Global, length: usize) -> Result<FlatPlaces, AllocError>
        ensures { IfOk result (λ places. places ≡ replicate length nowhere) }
    {
        let places = vec![in alloc; nowhere(); length]?;
        Ok(FlatPlaces { places })
    }

    /// The place in a slot, nowhere behind the end.
    pub fn get(&self, at: usize) -> Location
        ensures { result ≡ get_or self.now at nowhere }
    {
        match self.places.get(at) {
            Some(place) => *place,
            None => nowhere(),
        }
    }

    /// Writes a place; behind the end nothing is written.
    pub fn set(&mut self, at: usize, place: Location)
        ensures { self.new ≡ set self.old at place }
    {
        if at < self.places.len() {
            self.places[at] = place;
        }
    }
}

/// The place where no other is.
fn nowhere() -> Location
    ensures { result ≡ nowhere }
{
    Location::new(Variable::Local(0), 0)
}

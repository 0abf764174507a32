ghost use Rattle.std.specs.Prelude.{◌≡◌};

use rvt_num::Value;
use sqlite_items::Items;
use std::marker::Model;

/// What a call keeps of its caller: the locals, and the cells of the objects that the function owns.
#[derive(Drop)]
pub struct Saved {
    locals: Vec<Items<Value>>,
    cells: Vec<Value>,
}

impl Model for Saved {
    ghost use Rattle.c_places.specs.Kept.{Kept};

    ghost Value = { Kept };

    ghost view = { λ saved. record { locals = saved.locals.items; cells = saved.cells.items } };
}

impl Saved {
    pub(crate) fn new(locals: Vec<Items<Value>>, cells: Vec<Value>) -> Saved
        ensures { result ≡ record { locals = locals.items; cells = cells.items } }
    {
        Saved { locals, cells }
    }

    pub(crate) fn into_parts(self) -> (Vec<Items<Value>>, Vec<Value>)
        ensures locals { result.0.items ≡ self.locals }
        ensures cells { result.1.items ≡ self.cells }
    {
        (self.locals, self.cells)
    }
}

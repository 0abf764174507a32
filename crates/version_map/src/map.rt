//! What a map says.

use rvt_num::Kind;
use rvt_tree::Name;
use std::alloc::{AllocError, AllocFailed};

/// Two names that belong together, and the line that says so.
#[derive(Debug, Drop)]
pub struct Listed {
    pub line: u32,
    pub old: Name,
    pub new: Name,
}

/// An array that is added, and the line that says so.
#[derive(Debug, Drop)]
pub struct Added {
    pub line: u32,
    pub name: Name,
    pub kind: Kind,
    pub count: u32,
}

/// What the lines of a map say, in their order.
#[derive(Debug, Drop)]
pub struct Map {
    pub functions: Vec<Listed>,
    pub globals: Vec<Listed>,
    pub objects: Vec<Added>,
}

/// The line that is refused and its cause, or want of memory.
#[derive(Clone, Copy, Debug, PartialEq, Eq)]
pub enum MapFault {
    Refused(u32, u16),
    Memory,
}

impl From<AllocError> for MapFault {
    ghost use Rattle.std.specs.Prelude.{◌≡◌};
    ghost use Rattle.version_map.specs.declared.map.MapFault.TheVariants.{Memory};

    ghost from_gives = { λ _ fault. fault ≡ Memory };

    fn from(_: AllocError) -> Self {
        MapFault::Memory
    }
}

impl<T: Drop> From<AllocFailed<T>> for MapFault {
    ghost use Rattle.std.specs.Prelude.{◌≡◌};
    ghost use Rattle.version_map.specs.declared.map.MapFault.TheVariants.{Memory};

    ghost from_gives = { λ _ fault. fault ≡ Memory };

    fn from(_: AllocFailed<T>) -> Self {
        MapFault::Memory
    }
}

//! What a file has declared.

ghost use Rattle.std.specs.Prelude.{◌≡◌, map};
ghost use Rattle.file_typing.specs.FileScope.{scope_of_file, struct_number, function_number, structures};
ghost use Rattle.typing_base.specs.Views.{scope_view, structures_view};
ghost use Rattle.file_state.specs.Indexes.{IsIndexed};
ghost use Rattle.file_state.specs.Views.{file_state_view, struct_entry_view};

use crate::entries::FunctionEntry;
use name_scopes::Scopes;
use rvt_tree::Object;
use typing_base::{Environment, Scope, Structure};

/// What a file has declared up to a place in it.
#[derive(Drop)]
pub struct FileState {
    pub environment: Environment,
    /// How many bodies of structs have begun.
    pub bodies: u32,
    /// By their numbers: those that the file defines in the order of these definitions, and then the others.
    pub functions: Vec<FunctionEntry>,
    /// The objects declared so far, by their numbers.
    pub objects: Vec<Object>,
    // the number of the first struct of a tag, and of the first function of a name
    pub(crate) struct_numbers: Scopes<u32>,
    pub(crate) function_numbers: Scopes<u32>,
    // how many functions have been declared
    pub(crate) declared: u32,
}

impl FileState {
    /// Where an expression outside the functions stands.
    #[tactic(auto, using(crate::proofs::Parts::structures_are))]
    pub fn scope(&self) -> Scope
        ensures { scope_view result ≡ scope_of_file (file_state_view self.now) }
    {
        Scope {
            environment: &self.environment,
            evaluated: true,
        }
    }

    /// The structs by their numbers.
    #[tactic(auto, using(crate::proofs::Parts::structures_are))]
    pub fn structs(&self) -> &[Structure]
        ensures structures { structures_view result.now ≡ structures (file_state_view self.now) }
        ensures entries { map struct_entry_view result.now ≡ (file_state_view self.now).structs }
    {
        self.environment.structs.as_slice()
    }

    /// The struct of a tag, if the file has its body or has named it.
    pub fn struct_number(&self, tag: &[u8]) -> Option<u32>
        requires indexed { IsIndexed self.now }
        ensures { result ≡ struct_number (file_state_view self.now).structs tag.now }
    {
        match self.struct_numbers.look_up(tag) {
            Some(number) => Some(*number),
            None => None,
        }
    }

    pub fn function_number(&self, name: &[u8]) -> Option<u32>
        requires indexed { IsIndexed self.now }
        ensures { result ≡ function_number (file_state_view self.now).functions name.now }
    {
        match self.function_numbers.look_up(name) {
            Some(number) => Some(*number),
            None => None,
        }
    }
}

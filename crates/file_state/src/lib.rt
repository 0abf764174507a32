//! What a file has declared up to a place in it, and its changes (C 6.2.1, 6.2.3, 6.9).
#![tactic(auto)]

mod built_in;
mod comparisons;
mod copies;
mod declarations;
mod entries;
mod enumerations;
mod functions;
mod names;
mod numbers;
mod outline;
mod states;
mod structs;
mod tags;

pub use built_in::built_in_names;
pub use comparisons::{same_results, same_types};
pub use copies::{copied_interface, copied_type, copied_types};
pub use declarations::{function_declared, with_body};
pub use entries::{FunctionBody, FunctionEntry, Interface, Members};
pub use enumerations::{begins_enum, is_int, with_constant, with_enum};
pub use functions::{
    add_function, entity_in, may_name_function, named_function, unless_unlike, with_function,
};
pub use names::{declared_twice, unless_declared, unless_declared_in_file, with_name};
pub use outline::beginning;
pub use states::FileState;
pub use structs::{body_begun, body_ended, cell_kinds, has_field, with_field};
pub use tags::{
    add_struct, begins_body, of_struct, struct_named, tagged_in, tagged_with, with_tag,
};

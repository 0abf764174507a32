//! What the declarations of a file declare (C 6.7, 6.9).
#![tactic(auto)]

mod copies;
mod enums;
mod fields;
mod objects;
mod parameters;
mod typedefs;

pub use enums::enum_defined;
pub use fields::struct_defined;
pub use objects::typed_objects;
pub use parameters::typed_parameters;
pub use typedefs::typed_typedefs;

//! The object that a variable is.

ghost use Rattle.std.specs.Prelude.{◌≡◌};
ghost use Rattle.file_typing.specs.LocalObjects.{variable_in};
ghost use Rattle.local_objects.specs.ObjectTables.{object_at};

use rvt_tree::Variable;

fn object_at(objects: &[Option<u32>], number: u32) -> Option<u32>
    ensures { result ≡ object_at objects.now number }
{
    let place = number as usize;
    if place < objects.len() {
        objects[place]
    } else {
        None
    }
}

pub fn variable_in(variable: Variable, objects: &[Option<u32>]) -> Variable
    ensures { result ≡ variable_in (object_at objects.now) variable }
{
    match variable {
        Variable::Local(number) => match object_at(objects, number) {
            Some(object) => Variable::Object(object),
            None => variable,
        },
        Variable::Object(_) => variable,
    }
}

//! What stands for each variable.

ghost use Rattle.std.specs.Prelude.{◌≡◌, get_or, None};
ghost use Rattle.renamed_trees.specs.Renamings.{named};

use rvt_tree::Variable;

/// What stands for the locals and for the objects.
#[derive(Clone, Copy)]
pub struct Renaming<'a> {
    /// The object that each local becomes, or `None` for one that stays. A local beyond the end stays.
    pub locals: &'a [Option<u32>],
    /// The number that each object gets. An object beyond the end keeps its own.
    pub objects: &'a [u32],
}

impl<'a> Renaming<'a> {
    pub fn name(&self, variable: Variable) -> Variable
        ensures { result ≡ named self.now variable }
    {
        match variable {
            Variable::Local(number) => match object_of(self.locals, number) {
                Some(object) => Variable::Object(object),
                None => variable,
            },
            Variable::Object(number) => Variable::Object(number_of(self.objects, number)),
        }
    }
}

fn object_of(objects: &[Option<u32>], local: u32) -> Option<u32>
    ensures { result ≡ get_or objects.now local None }
{
    let place = local as usize;
    if place < objects.len() {
        objects[place]
    } else {
        None
    }
}

fn number_of(numbers: &[u32], object: u32) -> u32
    ensures { result ≡ get_or numbers.now object object }
{
    let place = object as usize;
    if place < numbers.len() {
        numbers[place]
    } else {
        object
    }
}

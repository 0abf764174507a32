//! Bodies over another table of objects.

ghost use Rattle.std.specs.Prelude.{◌≡◌, [], option_map};
ghost use Rattle.rvt_tree.specs.Views.{stmt_view};
ghost use Rattle.renamed_trees.specs.RenamedTrees.{statement_renamed};
ghost use Rattle.renamed_trees.specs.Renamings.{renamed_by};

use renamed_trees::{Renaming, rename};
use rvt_tree::Stmt;

pub fn renumbered_body(body: Option<Stmt>, numbers: &[u32]) -> Option<Stmt>
    ensures { option_map stmt_view result ≡ option_map (statement_renamed (renamed_by [] numbers.now)) (option_map stmt_view body) }
{
    match body {
        None => None,
        Some(mut statement) => {
            renumber(&mut statement, numbers);
            Some(statement)
        }
    }
}

fn renumber(statement: &mut Stmt, numbers: &[u32])
    ensures { stmt_view statement.new ≡ statement_renamed (renamed_by [] numbers.now) (stmt_view statement.old) }
{
    let renaming = Renaming {
        locals: &[],
        objects: numbers,
    };
    rename(statement, &renaming);
}

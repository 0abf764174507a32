//! The program of a file.

ghost use Rattle.std.specs.Prelude.{◌≡◌, IfOk, IfErr};
ghost use Rattle.rvt_tree.specs.declared.programs.Program.{Program as ProgramSpec};
ghost use Rattle.file_typing.specs.Programs.{program_view};
ghost use Rattle.c_programs.specs.Readings.{IsReading, IsFirstFault, NoReadingWhere, refused_for};

use c_elab::elaborate;
use c_lexer::Place;
use c_source::{Refusal, Refused, read};
use elaboration_laws::laws::one_answer;
use rvt_tree::{Fault, Program};
use std::alloc::Global;

/// The program of a C file. A file that has none is refused, for the first of these: its bytes spell no tokens; they are no
/// file; a rule of typing is broken.
pub fn read_program(alloc: Global, bytes: &[u8]) -> Result<Program, Refused>
    ensures program { IfOk result (IsReading bytes.now) }
    ensures only { IfOk result (λ program. (other : ProgramSpec) → IsReading bytes.now other → program_view other ≡ program_view program) }
    ensures refused { IfErr result (IsFirstFault bytes.now) }
    ensures none { IfErr result (NoReadingWhere bytes.now) }
{
    one_answer();
    let file = match read(alloc, bytes) {
        Ok(file) => file,
        Err(fault) => return Err(fault),
    };
    match elaborate(alloc, file.items.as_slice()) {
        Ok(program) => Ok(program),
        Err(fault) => Err(refused(fault)),
    }
}

/// The refusal that names a broken rule.
fn refused(fault: Fault) -> Refused
    ensures { result ≡ refused_for fault }
{
    match fault {
        Fault::Memory => Refused::Memory,
        Fault::Refused(refusal) => {
            let place = Place {
                line: refusal.place.line as usize,
                column: refusal.place.column as usize,
            };
            Refused::Source(Refusal {
                place,
                cause: refusal.cause,
                word: refusal.word,
            })
        }
    }
}

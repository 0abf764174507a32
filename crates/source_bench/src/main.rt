// Reads and types a C file from standard input, and says what it has or where it is refused. For measuring.
#![tactic(auto)]

use c_elab::elaborate;
use c_source::{Refused, read};
use rvt_tree::Fault;
use std::io;

fn main(rt: HostRuntime) -> io::Result<()> {
    let alloc = rt.alloc();
    let mut bytes = Vec::new(alloc);
    for line in rt.lines(alloc) {
        let text = line?;
        bytes.extend_from_slice(text.as_str().as_bytes())?;
        bytes.push(b'\n')?;
    }
    let file = match read(alloc, &bytes) {
        Ok(file) => file,
        Err(Refused::Memory) => return println!(rt; "no memory"),
        Err(Refused::Source(refusal)) => {
            return println!(rt;
                "{}:{}: cause {}",
                refusal.place.line, refusal.place.column, refusal.cause
            );
        }
    };
    match elaborate(alloc, file.items.as_slice()) {
        Ok(program) => println!(rt;
            "items {} functions {} objects {}",
            file.items.len(),
            program.functions.len(),
            program.table.objects.len()
        ),
        Err(Fault::Memory) => println!(rt; "no memory"),
        Err(Fault::Refused(refusal)) => println!(rt;
            "{}:{}: cause {}",
            refusal.place.line, refusal.place.column, refusal.cause
        ),
    }
}

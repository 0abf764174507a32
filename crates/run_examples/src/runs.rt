use crate::desks::{compare, run};
use std::alloc::Global;
use std::test::Fail;

const FACTORIAL: &str = "int f(int n){ if (n <= 1) return 1; return n * f(n - 1); }";

const QUEUE: &str = "#include <stdint.h>
#include <stdbool.h>
#define SIZE 16
typedef struct { uint8_t buf[SIZE]; uint8_t head; uint8_t tail; } Queue;
static Queue q;
enum kind { IDLE = 3, BUSY };
bool push(uint8_t b) { uint8_t next = (q.head + 1) % SIZE; if (next == q.tail) return false; q.buf[q.head] = b; q.head = next; return true; }
bool pop(uint8_t *out) { if (q.head == q.tail) return false; *out = q.buf[q.tail]; q.tail = (q.tail + 1) % SIZE; return true; }
int all(int n) { int s = 0; for (int i = 0; i < n; i++) { switch (i) { case IDLE: s += 2; break; default: s -= BUSY; } } return s; }
int last(int n) { int x = n; int *p = &x; while (*p > 9) *p /= 10; return x; }
";

#[test]
fn structs_pointers_loops_and_switches(rt: HostRuntime) -> Result<(), Fail> {
    let file = QUEUE.as_bytes();
    let (status, text) = compare(rt.alloc(), file, file)?;
    assert_eq!(rt;
        text.as_str(),
        "push: fully equivalent, twin\npop: fully equivalent, twin\nall: fully equivalent, twin\nall loop 1: fully equivalent, twin\nlast: fully equivalent, twin\nlast loop 1: fully equivalent, twin\npairs 6 full 6 partial 0 different 0 unknown 0\n"
    );
    assert_eq!(rt; status, 0);
    Ok(())
}

const LOOPS: &str = "int f(int n){ int s = 0;
for (int i = 0; i < n; i++) { while (s > 9) s -= 9; do s++; while (s < 3); }
switch (n) { case 1: while (n < 9) n++; break; default: s = n; }
return s; }
";

#[test]
fn each_loop_has_a_line(rt: HostRuntime) -> Result<(), Fail> {
    let file = LOOPS.as_bytes();
    let (status, text) = compare(rt.alloc(), file, file)?;
    assert_eq!(rt;
        text.as_str(),
        "f: fully equivalent, twin\nf loop 1: fully equivalent, twin\nf loop 2: fully equivalent, twin\nf loop 3: fully equivalent, twin\nf loop 4: fully equivalent, twin\npairs 5 full 5 partial 0 different 0 unknown 0\n"
    );
    assert_eq!(rt; status, 0);
    Ok(())
}

#[test]
fn a_failed_put_cuts_the_report(rt: HostRuntime) -> Result<(), Fail> {
    let alloc = rt.alloc();
    let file = FACTORIAL.as_bytes();
    let words = ["compare", "old.c", "new.c"];
    let files = [("old.c", file), ("new.c", file)];
    let (status, text) = run(alloc, &files, &words, vec![in alloc; 2]?)?;
    assert_eq!(rt; text.as_str(), "f: fully equivalent, twin\n");
    assert_eq!(rt; status, 4);
    let (status, text) = run(alloc, &files, &words, vec![in alloc; 1]?)?;
    assert_eq!(rt; text.as_str(), "");
    assert_eq!(rt; status, 4);
    Ok(())
}

// Whether these words are no command.
fn are_refused(alloc: Global, words: &[&str]) -> Result<bool, Fail> {
    let (status, text) = run(alloc, &[], words, Vec::new(alloc))?;
    Ok(status == 2 && text.as_str() == "rvt: the words are no command\n")
}

#[test]
fn other_words_are_no_command(rt: HostRuntime) -> Result<(), Fail> {
    let alloc = rt.alloc();
    assert!(rt; are_refused(alloc, &[])?);
    assert!(rt; are_refused(alloc, &["compare", "old.c"])?);
    assert!(rt; are_refused(alloc, &["compare", "old.c", ""])?);
    assert!(rt; are_refused(alloc, &["compare", "old.c", "-"])?);
    assert!(rt; are_refused(alloc, &["compare", "old.c", "a\nb"])?);
    assert!(rt; are_refused(alloc, &["check", "old.c", "new.c"])?);
    Ok(())
}

// Whether these words, over a desk with the file a.c, give this status and this text.
fn says(alloc: Global, file: &str, words: &[&str], status: u8, text: &str) -> Result<bool, Fail> {
    let files = [("a.c", file.as_bytes())];
    let (said, written) = run(alloc, &files, words, Vec::new(alloc))?;
    Ok(said == status && written.as_str() == text)
}

#[test]
fn a_call_is_run(rt: HostRuntime) -> Result<(), Fail> {
    let alloc = rt.alloc();
    assert!(rt;
        says(
            alloc,
            FACTORIAL,
            &["run", "a.c", "f", "5"],
            0,
            "returns 120 after 5 steps\n"
        )?
    );
    assert!(rt;
        says(
            alloc,
            FACTORIAL,
            &["run", "a.c", "f", "5", "--steps", "4"],
            7,
            "cut at 4 steps\n"
        )?
    );
    assert!(rt;
        says(
            alloc,
            FACTORIAL,
            &["run", "--steps=1", "a.c", "f", "1"],
            0,
            "returns 1 after 1 steps\n"
        )?
    );
    assert!(rt;
        says(
            alloc,
            FACTORIAL,
            &["run", "a.c", "f", "--", "-3"],
            0,
            "returns 1 after 1 steps\n"
        )?
    );
    Ok(())
}

#[test]
fn a_call_is_refused(rt: HostRuntime) -> Result<(), Fail> {
    let alloc = rt.alloc();
    assert!(rt;
        says(
            alloc,
            FACTORIAL,
            &["run", "a.c", "g", "1"],
            3,
            "a.c: no function g\n"
        )?
    );
    assert!(rt;
        says(
            alloc,
            FACTORIAL,
            &["run", "a.c", "f"],
            3,
            "wanted 1 arguments\n"
        )?
    );
    assert!(rt;
        says(
            alloc,
            FACTORIAL,
            &["run", "a.c", "f", "2147483648"],
            3,
            "argument 1: not a value of its type\n"
        )?
    );
    assert!(rt;
        says(
            alloc,
            "int f( {",
            &["run", "a.c", "f"],
            3,
            "a.c:1:8: unexpected {\n"
        )?
    );
    assert!(rt;
        says(
            alloc,
            FACTORIAL,
            &["run", "b.c", "f", "5"],
            4,
            "b.c: cannot read\n"
        )?
    );
    Ok(())
}

#[test]
fn a_run_stops(rt: HostRuntime) -> Result<(), Fail> {
    let alloc = rt.alloc();
    let quotient = "int f(int a){ return a / -1; }";
    assert!(rt;
        says(
            alloc,
            quotient,
            &["run", "a.c", "f", "--", "-2147483648"],
            7,
            "traps quotient after 1 steps\n"
        )?
    );
    let endless = "int f(int n){ return f(n); }";
    assert!(rt;
        says(
            alloc,
            endless,
            &["run", "a.c", "f", "0"],
            7,
            "deep at 10000 calls\n"
        )?
    );
    let written = "int g; void f(int *p){ *p = 1; }";
    assert!(rt;
        says(
            alloc,
            written,
            &["run", "a.c", "f", "&g[0]"],
            0,
            "returns after 1 steps\n"
        )?
    );
    assert!(rt;
        says(
            alloc,
            written,
            &["run", "a.c", "f", "&g[1]"],
            7,
            "traps place after 1 steps\n"
        )?
    );
    Ok(())
}

#[test]
fn a_failed_put_hides_the_end(rt: HostRuntime) -> Result<(), Fail> {
    let alloc = rt.alloc();
    let files = [("a.c", FACTORIAL.as_bytes())];
    let words = ["run", "a.c", "f", "5"];
    let (status, text) = run(alloc, &files, &words, vec![in alloc; 1]?)?;
    assert_eq!(rt; text.as_str(), "");
    assert_eq!(rt; status, 4);
    Ok(())
}

// Searches an assignment for clauses that are written one a line, with a limit of conflicts on the first line.
// With any argument the log of the search is not checked.
#![tactic(auto)]

ghost use Rattle.std.specs.Prelude.{◌<◌};

use clause_db::{Clause, Clauses, is_clause, largest_variable};
use refutation_check::{check_budget, check_log};
use sat_search::{Found, search};
use std::alloc::{AllocError, Global};
use std::rt::Env;
use std::{env, io};

/// The numbers of a line, or `None` where a word of it is no number.
fn numbers_of(alloc: Global, line: &str) -> Result<Option<Vec<i64>>, AllocError> {
    let mut numbers = Vec::new(alloc);
    for word in line.split(' ') {
        match word.parse::<i64>() {
            Ok(number) => numbers.push(number)?,
            Err(_) => return Ok(None),
        }
    }
    Ok(Some(numbers))
}

/// The clause of a line that a 0 ends.
fn clause_of(alloc: Global, line: &str) -> Result<Option<Clause>, AllocError> {
    let mut numbers = match numbers_of(alloc, line)? {
        Some(numbers) => numbers,
        None => return Ok(None),
    };
    if numbers.pop() != Some(0) || !is_clause(&numbers) {
        return Ok(None);
    }
    Ok(Some(Clause { literals: numbers }))
}

/// The limit that a line states, from 1 to 1,000,000,000.
fn limit_of(line: &str) -> Option<u32> {
    match line.parse::<u32>() {
        Ok(limit) if limit > 0 && limit <= 1_000_000_000 => Some(limit),
        _ => None,
    }
}

/// Is an argument given?
fn has_argument<R: Env + AllocGlobal>(rt: &R) -> bool {
    match env::args(rt) {
        Ok(args) => args.count() > 1,
        Err(_) => false,
    }
}

/// Says what a search came to.
fn tell(rt: &impl Print, found: &Found) -> io::Result<()> {
    match found {
        Found::Satisfied(_, conflicts) => println!(rt; "satisfied {conflicts}"),
        Found::Refuted(log) => println!(rt; "refuted {}", log.lines.len()),
        Found::Budget(log) => println!(rt; "budget {}", log.lines.len()),
    }
}

/// Says what a search came to, and whether its log is accepted.
fn report(rt: &impl Print, alloc: Global, clauses: &Clauses, limit: u32) -> io::Result<()>
    requires { 0 < limit }
{
    match search(alloc, clauses, limit) {
        Err(_) => println!(rt; "no memory"),
        Ok(Found::Satisfied(_, conflicts)) => println!(rt; "satisfied {conflicts}"),
        Ok(Found::Refuted(log)) => {
            let accepted = check_log(alloc, clauses, &log) == Ok(());
            println!(rt; "refuted {} {accepted}", log.lines.len())
        }
        Ok(Found::Budget(log)) => {
            let accepted = check_budget(alloc, clauses, &log, limit) == Ok(());
            println!(rt; "budget {} {accepted}", log.lines.len())
        }
    }
}

fn main(rt: HostRuntime) -> io::Result<()> {
    let alloc = rt.alloc();
    let mut list = Vec::new(alloc);
    let mut limit = 0;
    let mut number = 0u64;
    for line in rt.lines(alloc) {
        let text = line?;
        number = number.saturating_add(1);
        if limit == 0 {
            match limit_of(text.as_str()) {
                Some(stated) => limit = stated,
                None => return println!(rt; "line 1 is no limit from 1 to 1000000000"),
            }
        } else {
            match clause_of(alloc, text.as_str())? {
                Some(clause) => list.push(clause)?,
                None => return println!(rt;
                    "line {number} is no clause with its variables in order"
                ),
            }
        }
    }
    if limit == 0 {
        return println!(rt; "there is no limit");
    }
    let variables = largest_variable(&list);
    let clauses = Clauses { list, variables };
    if !has_argument(&rt) {
        return report(&rt, alloc, &clauses, limit);
    }
    match search(alloc, &clauses, limit) {
        Ok(found) => tell(&rt, &found),
        Err(_) => println!(rt; "no memory"),
    }
}

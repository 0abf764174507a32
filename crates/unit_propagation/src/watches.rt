ghost use Rattle.std.specs.Prelude.{◌≡◌, ℕ, ◌+◌, ◌*◌, ◌<◌, ◌≤◌, ◌^◌, [], ◌∷◌, ◌++◌, length, slice_index_or, slice_set, swap_remove, Option, IfOk, OnOk, IfSome, IfNone, Some, None, min};
ghost use Rattle.clause_db.specs.Literal.{variable_of};
ghost use Rattle.clause_db.specs.Log.{literal_lists, results};
ghost use Rattle.unit_propagation.specs.Quiet.{HasReasons};
ghost use Rattle.unit_propagation.specs.Status.{FitsVariables, Extends, IsOutcome};
ghost use Rattle.unit_propagation.specs.Watching.{code_of, entries, IsWatched};

use crate::settling::settle_all;
use crate::trail::Trail;
use crate::visits::visit_all;
use clause_db::{Clauses, LogLine, Memory, variable};
use std::alloc::Global;

/// The two literals of a clause that are watched.
#[derive(Clone, Copy, Debug, PartialEq, Eq)]
pub struct Watched {
    pub first: i64,
    pub second: i64,
}

/// Which literals of which clauses are watched. A clause is looked at only where a literal that it watches
/// becomes false.
#[derive(Drop)]
pub struct Watches {
    /// By clause, counted from 0: its watched literals, once there are any.
    pub pairs: Vec<Option<Watched>>,
    /// By code of a literal: the clauses that watch it.
    pub lists: Vec<Vec<usize>>,
    /// The clauses that are yet to be looked at as a whole.
    pub pending: Vec<usize>,
    /// How many literals of the trail have been handled.
    pub head: usize,
}

/// The place of a literal in the table of lists.
pub fn code(lists: &[Vec<usize>], literal: i64) -> usize
    requires { code_of literal < length lists.now }
    ensures { result ≡ code_of literal }
{
    let v = variable(literal) as usize;
    if literal < 0 { 2 * v + 1 } else { 2 * v }
}

/// Puts a clause at the end of the list of a code.
pub fn enter(lists: &mut Vec<Vec<usize>>, code: usize, clause: usize) -> Result<(), Memory>
    requires { code < length lists.old.items }
    ensures { OnOk result (entries lists.new.items ≡ slice_set (entries lists.old.items) code (slice_index_or (entries lists.old.items) code [] ++ clause ∷ [])) }
{
    match lists[code].push(clause) {
        Ok(()) => {}
        Err(_) => return Err(Memory),
    }
    Ok(())
}

/// Takes the entry at a place out of the list of a code.
pub fn leave(lists: &mut Vec<Vec<usize>>, code: usize, place: usize)
    requires within { code < length lists.old.items }
    requires in_list { place < length (slice_index_or (entries lists.old.items) code []) }
    ensures { entries lists.new.items ≡ slice_set (entries lists.old.items) code (swap_remove (slice_index_or (entries lists.old.items) code []) place 0) }
{
    lists[code].swap_remove(place);
}

/// The entry at a place of the list of a code.
pub fn entry(lists: &[Vec<usize>], code: usize, place: usize) -> Option<usize>
    requires { code < length lists.now }
    ensures found { IfSome result (λ clause. (place < length (slice_index_or (entries lists.now) code [])) × (slice_index_or (slice_index_or (entries lists.now) code []) place 0 ≡ clause)) }
    ensures next { IfSome result (λ _. place + 1 < 2 ^ 64) }
    ensures none { IfNone result (length (slice_index_or (entries lists.now) code []) ≤ place) }
{
    if place < lists[code].len() {
        Some(lists[code][place])
    } else {
        None
    }
}

impl Watches {
    /// The watches of no clauses, over the variables 1 to `variables`.
    pub fn new(alloc: Global, variables: usize) -> Result<Watches, Memory>
        requires { variables < 2 ^ 60 }
        ensures no_clause { IfOk result (λ watches. watches.pairs.items ≡ []) }
        ensures start { IfOk result (λ watches. watches.head ≡ 0) }
        ensures variables { IfOk result (λ watches. length watches.lists.items ≡ 2 * (variables + 1)) }
    {
        let mut lists = Vec::new(alloc);
        for _ in 0..2 * (variables + 1) {
            match lists.push(Vec::new(alloc)) {
                Ok(()) => {}
                Err(_) => return Err(Memory),
            }
        }
        Ok(Watches {
            pairs: Vec::new(alloc),
            lists,
            pending: Vec::new(alloc),
            head: 0,
        })
    }

    /// The watches of a list of clauses, over the variables 1 to `variables`.
    pub fn over(alloc: Global, clauses: &Clauses, variables: usize) -> Result<Watches, Memory>
        requires { variables < 2 ^ 60 }
        ensures watched { IfOk result (λ watches. IsWatched (literal_lists clauses.now.list.items) [] [] (variables + 1) watches.head watches.pairs.items (entries watches.lists.items) watches.pending.items) }
        ensures known { IfOk result (λ watches. length watches.pairs.items ≡ length clauses.now.list.items) }
    {
        let mut watches = Watches::new(alloc, variables)?;
        for _ in 0..clauses.list.len() {
            watches.add()?;
        }
        Ok(watches)
    }

    /// Takes up one clause more.
    pub fn add(&mut self) -> Result<(), Memory>
        ensures pairs { OnOk result (self.new.pairs.items ≡ self.old.pairs.items ++ None ∷ []) }
        ensures pending { OnOk result (self.new.pending.items ≡ self.old.pending.items ++ length self.old.pairs.items ∷ []) }
        ensures lists { self.new.lists ≡ self.old.lists }
        ensures head { self.new.head ≡ self.old.head }
    {
        let index = self.pairs.len();
        match self.pairs.push(None) {
            Ok(()) => {}
            Err(_) => return Err(Memory),
        }
        match self.pending.push(index) {
            Ok(()) => {}
            Err(_) => return Err(Memory),
        }
        Ok(())
    }

    /// Follows a trail that was cut.
    pub fn rewind(&mut self, trail: &Trail)
        ensures head { self.new.head ≡ min self.old.head (length trail.now.literals.items) }
        ensures pairs { self.new.pairs ≡ self.old.pairs }
        ensures lists { self.new.lists ≡ self.old.lists }
        ensures pending { self.new.pending ≡ self.old.pending }
    {
        if trail.literals.len() < self.head {
            self.head = trail.literals.len();
        }
    }

    /// Makes true what the clauses force, and answers the number of a clause all of whose literals are false.
    pub fn propagate(
        &mut self,
        clauses: &Clauses,
        lines: &[LogLine],
        trail: &mut Trail,
    ) -> Result<Option<u64>, Memory>
        requires fits { FitsVariables (length trail.old.places.items) (literal_lists clauses.now.list.items ++ results lines.now) }
        requires reasons { HasReasons (literal_lists clauses.now.list.items ++ results lines.now) trail.old.literals.items trail.old.starts.items trail.old.reasons.items }
        requires watched { IsWatched (literal_lists clauses.now.list.items ++ results lines.now) trail.old.literals.items trail.old.starts.items (length trail.old.places.items) self.old.head self.old.pairs.items (entries self.old.lists.items) self.old.pending.items }
        requires all_known { length self.old.pairs.items ≡ length (literal_lists clauses.now.list.items ++ results lines.now) }
        ensures extends { IfOk result (λ _. Extends trail.old.literals.items trail.new.literals.items) }
        ensures starts { IfOk result (λ _. trail.new.starts.items ≡ trail.old.starts.items) }
        ensures variables { length trail.new.places.items ≡ length trail.old.places.items }
        ensures reasons_kept { IfOk result (λ _. HasReasons (literal_lists clauses.now.list.items ++ results lines.now) trail.new.literals.items trail.new.starts.items trail.new.reasons.items) }
        ensures watched { IfOk result (λ _. IsWatched (literal_lists clauses.now.list.items ++ results lines.now) trail.new.literals.items trail.new.starts.items (length trail.new.places.items) self.new.head self.new.pairs.items (entries self.new.lists.items) self.new.pending.items) }
        ensures known { length self.new.pairs.items ≡ length self.old.pairs.items }
        ensures handled { IfOk result (λ found. found ≡ None → self.new.head ≡ length trail.new.literals.items) }
        ensures outcome { IfOk result (λ found. IsOutcome (literal_lists clauses.now.list.items ++ results lines.now) trail.new.literals.items found) }
    {
        match settle_all(clauses, lines, trail, self)? {
            Some(number) => return Ok(Some(number)),
            None => {}
        }
        'queue: while self.head < trail.literals.len() {
            let falsified = -trail.literals[self.head];
            match visit_all(clauses, lines, trail, self, falsified)? {
                Some(number) => return Ok(Some(number)),
                None => {}
            }
            self.head += 1;
        }
        Ok(None)
    }
}

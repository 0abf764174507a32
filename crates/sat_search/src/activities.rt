ghost use Rattle.std.specs.Prelude.{◌<◌, ◌^◌};

use crate::decisions::{Decides, least_free};
use clause_db::{LogLine, Memory, variable};
use std::alloc::Global;
use unit_propagation::Trail;

/// No activity is greater than this one for long.
const GREATEST: u64 = 1 << 60;

/// By how many bits activities are cut where one grew too great.
const RESCALED_BITS: u32 = 40;

/// How much the first conflict adds.
const FIRST_INCREMENT: u64 = 1 << 10;

/// A variable is the more active, the more often and the more lately it was met in a conflict. The most active
/// free variable is decided next, with the truth value that it had last.
#[derive(Drop)]
pub struct Activities {
    /// By variable.
    activity: Vec<u64>,
    /// By variable: is it to be made true?
    phase: Vec<bool>,
    /// A binary heap of variables, the most active one first, and behind it what is no longer of use.
    heap: Vec<usize>,
    /// How many variables are in the heap.
    size: usize,
    /// By variable: one more than its place in the heap, or 0.
    places: Vec<usize>,
    /// What a variable gains that is met now.
    increment: u64,
}

fn number_at(table: &[u64], place: usize) -> u64 {
    if place < table.len() { table[place] } else { 0 }
}

/// What stands at a place of a table, or 0 behind its end.
pub fn place_at(table: &[usize], place: usize) -> usize {
    if place < table.len() { table[place] } else { 0 }
}

fn is_at(table: &[bool], place: usize) -> bool {
    if place < table.len() {
        table[place]
    } else {
        false
    }
}

/// The numbers from one on and before another.
fn in_order(alloc: Global, start: usize, end: usize) -> Result<Vec<usize>, Memory> {
    let mut numbers = Vec::new(alloc);
    for number in start..end {
        match numbers.push(number) {
            Ok(()) => {}
            Err(_) => return Err(Memory),
        }
    }
    Ok(numbers)
}

impl Activities {
    /// No variable from 0 to `variables` is active yet, and the least one comes first.
    pub fn new(alloc: Global, variables: usize) -> Result<Activities, Memory>
        requires { variables < 2 ^ 60 }
    {
        let activity = match vec![in alloc; 0; variables + 1] {
            Ok(activity) => activity,
            Err(_) => return Err(Memory),
        };
        let phase = match vec![in alloc; false; variables + 1] {
            Ok(phase) => phase,
            Err(_) => return Err(Memory),
        };
        let heap = in_order(alloc, 0, variables + 1)?;
        let places = in_order(alloc, 1, variables + 2)?;
        Ok(Activities {
            activity,
            phase,
            heap,
            size: variables + 1,
            places,
            increment: FIRST_INCREMENT,
        })
    }

    fn is_before(&self, first: usize, second: usize) -> bool {
        number_at(&self.activity, first) > number_at(&self.activity, second)
    }

    /// Puts a variable at a place of the heap.
    fn set(&mut self, place: usize, v: usize) {
        if place < self.heap.len() && v < self.places.len() {
            self.heap[place] = v;
            self.places[v] = place + 1;
        }
    }

    /// Brings the variable at a place of the heap nearer to its head, as is due. A heap has no more than 64 levels.
    fn rise(&mut self, from: usize) {
        let v = place_at(&self.heap, from);
        let mut place = from;
        for _ in 0..64 {
            if place == 0 {
                self.set(place, v);
                return;
            }
            let parent = (place - 1) / 2;
            let above = place_at(&self.heap, parent);
            if !self.is_before(v, above) {
                self.set(place, v);
                return;
            }
            self.set(place, above);
            place = parent;
        }
    }

    /// The more active one of the two places below one that has one below it.
    fn below(&self, place: usize) -> usize {
        let left = place.saturating_mul(2).saturating_add(1);
        let right = left.saturating_add(1);
        if right < self.size
            && self.is_before(place_at(&self.heap, right), place_at(&self.heap, left))
        {
            right
        } else {
            left
        }
    }

    /// Brings the variable at a place of the heap farther from its head, as is due.
    fn sink(&mut self, from: usize) {
        let v = place_at(&self.heap, from);
        let mut place = from;
        for _ in 0..64 {
            if place >= self.size / 2 {
                self.set(place, v);
                return;
            }
            let below = self.below(place);
            let next = place_at(&self.heap, below);
            if !self.is_before(next, v) {
                self.set(place, v);
                return;
            }
            self.set(place, next);
            place = below;
        }
    }

    /// Takes the most active variable out of the heap.
    fn take_first(&mut self) -> usize {
        let first = place_at(&self.heap, 0);
        if self.size == 0 {
            return first;
        }
        if first < self.places.len() {
            self.places[first] = 0;
        }
        self.size -= 1;
        let last = place_at(&self.heap, self.size);
        if self.size > 0 {
            self.set(0, last);
            self.sink(0);
        }
        first
    }

    /// Puts a variable into the heap that isn't there.
    fn enter(&mut self, v: usize) {
        if v >= self.places.len() || self.places[v] > 0 || self.size >= self.heap.len() {
            return;
        }
        let end = self.size;
        self.size += 1;
        self.set(end, v);
        self.rise(end);
    }

    /// Cuts all activities alike.
    fn rescale(&mut self) {
        for v in 0..self.activity.len() {
            self.activity[v] >>= RESCALED_BITS;
        }
        self.increment >>= RESCALED_BITS;
    }

    /// A variable was met in a conflict.
    fn meet(&mut self, v: usize) {
        if v >= self.activity.len() {
            return;
        }
        let raised = self.activity[v].saturating_add(self.increment);
        self.activity[v] = raised;
        if raised > GREATEST {
            self.rescale();
        }
        let place = place_at(&self.places, v);
        if place > 0 {
            self.rise(place - 1);
        }
    }
}

impl Decides for Activities {
    fn choose(&mut self, trail: &Trail) -> Option<i64> {
        for _ in 0..self.size {
            let v = self.take_first();
            if v > 0 && v < trail.places.len() && trail.places[v] == 0 {
                if is_at(&self.phase, v) {
                    return Some(v as i64);
                }
                return Some(-(v as i64));
            }
        }
        let v = least_free(trail);
        if v == 0 { None } else { Some(-(v as i64)) }
    }

    fn learnt(&mut self, line: &LogLine) {
        for pivot in &line.pivots {
            self.meet(pivot.0 as usize);
        }
        for literal in &line.result.literals {
            self.meet(variable(*literal) as usize);
        }
    }

    fn decay(&mut self) {
        self.increment = self.increment.saturating_add(self.increment / 16 + 1);
    }

    fn undoing(&mut self, trail: &Trail, kept: usize) {
        for place in kept..trail.literals.len() {
            let literal = trail.literals[place];
            let v = variable(literal) as usize;
            if v < self.phase.len() {
                self.phase[v] = literal > 0;
            }
            self.enter(v);
        }
    }
}

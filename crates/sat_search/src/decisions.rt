ghost use Rattle.std.specs.Prelude.{◌≡◌, ℕ, ◌<◌, ◌≤◌, length, slice_index};
ghost use Rattle.sat_search.specs.Choice.{IsChoice};

use clause_db::{LogLine, variable};
use unit_propagation::Trail;

/// A rule that says which literal is decided next. A search is right by any rule; how long it takes depends on it.
pub trait Decides {
    /// A literal whose variable is free, or `None` where each variable has a value.
    fn choose(&mut self, trail: &Trail) -> Option<i64>
        requires started { (k : ℕ) → k < length trail.now.starts.items → slice_index trail.now.starts.items k < length trail.now.literals.items }
        requires variables { 0 < length trail.now.places.items }
        ensures { IsChoice trail.now.literals.items trail.now.places.items result };

    /// Hears what was learnt from a conflict, and by which resolutions.
    fn learnt(&mut self, line: &LogLine);

    /// Hears that a conflict is dealt with: what was met up to it counts less from here on.
    fn decay(&mut self);

    /// Hears that the literals behind this place of the trail are about to be freed, or some of them.
    fn undoing(&mut self, trail: &Trail, kept: usize);
}

/// The variable of the last decision, or 0 where there is none.
fn last_decided(trail: &Trail) -> usize
    requires started { (k : ℕ) → k < length trail.now.starts.items → slice_index trail.now.starts.items k < length trail.now.literals.items }
    requires variables { 0 < length trail.now.places.items }
    ensures { result < length trail.now.places.items }
{
    if trail.starts.is_empty() {
        return 0;
    }
    let start = trail.starts[trail.starts.len() - 1];
    variable(trail.literals[start]) as usize
}

/// The least free variable from one on and before another, or 0.
fn first_free(trail: &Trail, from: usize, to: usize) -> usize
    requires positive { 0 < from }
    requires within { to ≤ length trail.now.places.items }
    requires variables { 0 < length trail.now.places.items }
    ensures within { result < length trail.now.places.items }
    ensures free { 0 < result → slice_index trail.now.places.items result ≡ 0 }
    ensures none { result ≡ 0 → (v : ℕ) → from ≤ v → v < to → 0 < slice_index trail.now.places.items v }
{
    for v in from..to {
        if trail.places[v] == 0 {
            return v;
        }
    }
    0
}

/// A free variable, or 0. The variables behind the last decided one are looked at first.
pub fn least_free(trail: &Trail) -> usize
    requires started { (k : ℕ) → k < length trail.now.starts.items → slice_index trail.now.starts.items k < length trail.now.literals.items }
    requires variables { 0 < length trail.now.places.items }
    ensures within { result < length trail.now.places.items }
    ensures free { 0 < result → slice_index trail.now.places.items result ≡ 0 }
    ensures none { result ≡ 0 → (v : ℕ) → 0 < v → v < length trail.now.places.items → 0 < slice_index trail.now.places.items v }
{
    let next = last_decided(trail) + 1;
    let later = first_free(trail, next, trail.places.len());
    if later > 0 {
        return later;
    }
    first_free(trail, 1, next)
}

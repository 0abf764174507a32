/// After how many conflicts a search starts again, counted by steps of this many.
const STEP: u64 = 100;

/// When a search starts again: after so many steps of conflicts as the next term of 1, 1, 2, 1, 1, 2, 4, 1, .. says.
#[derive(Clone, Copy, Debug, PartialEq, Eq)]
pub struct Restarts {
    /// Its lowest bit is the last term of a run that doubles from 1 on.
    run: u64,
    term: u64,
    conflicts_left: u64,
}

impl Restarts {
    pub fn new() -> Restarts {
        Restarts {
            run: 1,
            term: 1,
            conflicts_left: STEP,
        }
    }

    /// Counts one conflict more, and answers whether to start again.
    pub fn is_due(&mut self) -> bool {
        if self.conflicts_left > 1 {
            self.conflicts_left -= 1;
            return false;
        }
        if self.run & self.run.wrapping_neg() == self.term {
            self.run = self.run.wrapping_add(1);
            self.term = 1;
        } else {
            self.term = self.term.wrapping_mul(2);
        }
        self.conflicts_left = self.term.saturating_mul(STEP);
        true
    }
}

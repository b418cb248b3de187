//! Counts the literals that `regex` copies before it builds a pattern: those that a choice is written out as, and those
//! of runs. It looks for runs from at most `MOST_RUNS` parts on, and follows each while it has fewer than `MOST_IN_RUN`
//! literals.
use crate::pattern::weight::piece::Piece;

const MOST_RUNS: usize = 256;

const MOST_IN_RUN: usize = 250;

/// The number of literals that are copied for what was read of a pattern.
#[derive(Clone, Copy)]
pub struct Literals {
    /// Those to write it out, if it is a choice among literals.
    written: usize,
    /// Those for runs.
    found: usize,
    /// The number of runs that begin before the next atom, and the literals of one that continues to it.
    runs: usize,
    in_run: usize,
}

impl Literals {
    /// Returns the count for an empty pattern.
    pub fn new() -> Self {
        Literals {
            written: 0,
            found: 0,
            runs: 0,
            in_run: 1,
        }
    }

    /// Returns the number of literals for a pattern that is this part.
    pub fn copied(self, entire: Piece) -> usize {
        if entire.is_choice() {
            self.found.saturating_add(self.written)
        } else {
            self.found
        }
    }

    /// Counts those for an atom after the rest of its branch. Half of the runs are assumed to continue to it.
    pub fn count(&mut self, before: Piece, atom: Piece) {
        let both = before.then(atom);
        if both.most > 1 {
            self.written = self.written.saturating_add(both.most);
        }
        let in_run = self.in_run.saturating_mul(atom.most).min(MOST_IN_RUN);
        self.in_run = if in_run < MOST_IN_RUN { in_run } else { 1 };
        self.found = self
            .found
            .saturating_add(in_run.saturating_mul(self.runs) / 2);
    }

    /// Begins a run at the last atom.
    pub fn begin(&mut self) {
        self.runs = self.runs.saturating_add(1).min(MOST_RUNS);
    }

    /// Ends the runs at the last atom.
    pub fn end(&mut self) {
        self.in_run = 1;
    }

    /// Takes back that runs may have ended at the last atom, because nothing may be left of it.
    pub fn go_on(&mut self) {
        self.in_run = MOST_IN_RUN - 1;
    }
}

//! The slots where the patterns of `match` and `search` are built (RFC 9535, 2.4.6 and 2.4.7).
ghost use Rattle.std.specs.Prelude.{◌≡◌, IfOk};

use crate::pattern::Pattern;
use std::alloc::{AllocError, Global};
use std::cell::OnceCell;

/// Says where a pattern comes from.
#[derive(Clone, Copy)]
pub enum Origin {
    /// The query, where it has this number.
    Query(usize),
    /// The document, or the query, where it has no number.
    Document,
}

/// A slot for one pattern, which is built once and then stays.
pub type PatternSlot = OnceCell<Box<Pattern>>;

/// Slots for patterns, by number. A pattern lives as long as its slot.
#[derive(Drop)]
pub struct PatternSlots {
    cells: Vec<PatternSlot>,
}

impl PatternSlots {
    ghost use Rattle.jsonpath_base.specs.Engine.{cell_count};

    /// Returns `count` empty slots.
    pub fn new(alloc: Global, count: usize) -> Result<Self, AllocError>
        ensures { IfOk result (λ made. cell_count made ≡ count) }
    {
        let mut cells = Vec::with_capacity(alloc, count)?;
        for _ in 0..count {
            cells.push(OnceCell::new())?;
        }
        Ok(PatternSlots { cells })
    }

    /// Returns the slot of this number.
    #[inline(always)]
    pub(crate) fn cell(&self, number: usize) -> Option<&PatternSlot> {
        self.cells.get(number)
    }
}

/// The slots of one call for patterns that come from the document.
#[derive(Drop)]
pub struct DocumentPatternSlots {
    /// The slots, which are made when the first is needed.
    cells: OnceCell<PatternSlots>,
}

/// The number of these slots.
const MOST_LENT: usize = 32;

impl DocumentPatternSlots {
    /// Returns empty slots. It allocates nothing.
    #[inline(always)]
    pub fn new() -> Self {
        DocumentPatternSlots {
            cells: OnceCell::new(),
        }
    }

    /// Returns the slots. The first call makes them.
    pub(crate) fn made(&self, alloc: Global) -> Result<Option<&PatternSlots>, AllocError> {
        if self.cells.get().is_none() {
            let cells = PatternSlots::new(alloc, MOST_LENT)?;
            let _ = self.cells.set(cells);
        }
        Ok(self.cells.get())
    }
}

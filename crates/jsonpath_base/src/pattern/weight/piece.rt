//! Describes parts of a pattern, and joins them. `regex` writes out a pattern that is a choice among literals, and
//! copies those of a branch for each part that follows them.

/// The limit for writing out: of the members of a class, of the rounds of a counted repetition, and of the literals of
/// a branch.
pub const FEW: usize = 10;

pub const MOST_ROUNDS: usize = 16;

pub const MOST_LITERALS: usize = 3_000;

/// A part of a pattern.
#[derive(Clone, Copy)]
pub struct Piece {
    /// The number of its characters where its counted repetitions are written out.
    pub length: usize,
    /// The number of bytes of text that it spells, or 0.
    pub text: usize,
    /// The least and the greatest number of literals that it is a choice among. The least is `usize::MAX` if it is no
    /// such choice.
    pub least: usize,
    pub most: usize,
}

/// The empty text.
pub const EMPTY: Piece = Piece {
    length: 0,
    text: 0,
    least: 1,
    most: 1,
};

/// A choice with no branch.
pub const NOTHING: Piece = Piece {
    length: 0,
    text: 0,
    least: 0,
    most: 0,
};

impl Piece {
    /// Returns a character, or a member of a class that stands for `literals` characters.
    pub fn one(length: usize, literals: usize) -> Piece {
        Piece {
            length,
            text: length,
            least: literals,
            most: literals,
        }
    }

    /// Returns a part of `length` characters that is a choice among at least `least` literals, and at most [`FEW`].
    pub fn some(length: usize, least: usize) -> Piece {
        Piece {
            length,
            text: length,
            least,
            most: FEW,
        }
    }

    /// Returns a part of `length` characters that is one literal at most.
    pub fn maybe(length: usize) -> Piece {
        Piece {
            length,
            text: 0,
            least: 0,
            most: 1,
        }
    }

    /// Returns a part of `length` characters that is no choice among literals.
    pub fn other(length: usize) -> Piece {
        Piece {
            length,
            text: length,
            least: usize::MAX,
            most: 1,
        }
    }

    /// Returns whether it is a choice among literals, as far as is known.
    pub fn is_choice(self) -> bool {
        self.least < usize::MAX
    }

    /// Returns this part and then the other.
    pub fn then(self, other: Piece) -> Piece {
        let least = self.least.saturating_mul(other.least);
        Piece {
            length: self.length.saturating_add(other.length),
            text: self.text.saturating_add(other.text),
            least: if least > MOST_LITERALS {
                usize::MAX
            } else {
                least
            },
            most: self.most.saturating_mul(other.most).min(MOST_LITERALS),
        }
    }

    /// Returns the choice between both.
    pub fn or(self, other: Piece) -> Piece {
        Piece {
            length: self.length.saturating_add(other.length),
            text: self.text.saturating_add(other.text),
            least: self.least.saturating_add(other.least),
            most: self.most.saturating_add(other.most),
        }
    }

    /// Returns this part any number of times, with `length` more characters. For the empty text that is the empty text.
    pub fn unbounded(self, length: usize) -> Piece {
        let mut all = self;
        all.length = self.length.saturating_add(length);
        if self.text > 0 {
            all.least = usize::MAX;
            all.most = 1;
        }
        all
    }

    /// Returns this part up to `rounds` times.
    pub fn repeated(self, rounds: usize) -> Piece {
        let mut all = EMPTY;
        for _ in 0..rounds.min(MOST_ROUNDS) {
            all = all.then(self);
        }
        Piece {
            length: self.length.saturating_mul(rounds),
            text: self.text.saturating_mul(rounds),
            least: all.least,
            // It may be repeated less often, so there are up to twice as many, or one more for each round.
            most: all.most.saturating_mul(2).saturating_add(MOST_ROUNDS),
        }
    }
}

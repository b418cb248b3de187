//! Reads a pattern, character by character, to estimate what it costs in `regex`.

use crate::pattern::weight::literals::Literals;
use crate::pattern::weight::piece::{EMPTY, FEW, MOST_ROUNDS, NOTHING, Piece};
use std::alloc::{AllocError, Global};

/// The length of a class of all characters except a few, and of an escape by number.
const ALL_BUT_FEW: usize = 6;

/// The length of the ends of a group.
const ENDS: usize = 2;

/// The length of a test for the end of a word. At a character that is not ASCII `regex` leaves its tables for it, so
/// each byte of a text costs one more unit.
const WORD_END: usize = 8;

/// What a group costs, and the number of other groups for which its name costs a unit, because it is compared with
/// theirs.
const GROUP: usize = 100;

const NAMES: usize = 64;

/// What it costs to combine two classes, and to find the other cases of a range.
const TOGETHER: usize = 60;

const CASES: usize = 700;

/// A negated class that excludes more members than this may have few.
const ALMOST_ALL: usize = 1_000_000;

/// The length that is assumed for a pattern with the flag `x`, because its comments are not recognized.
const VERBOSE: usize = 1 << 20;

/// Where the next character of a pattern is.
#[derive(Clone, Copy)]
enum Place {
    /// After nothing that is listed below.
    Free,
    /// After a backslash.
    Escaped,
    /// After an escape that takes a name, and in the braces of the name.
    Named,
    Name,
    /// After the bracket of a class, and after the `^` that negates the class.
    Opened,
    Turned,
    /// After the `-` of a range.
    Range,
    /// In a counted repetition, with its greatest number so far, and the current one.
    Count { most: usize, number: usize },
    /// After the parenthesis of a group, and after the `?` that follows it.
    Group,
    Flags,
}

/// What was read of a pattern.
#[derive(Drop)]
pub struct Scale {
    /// The length of a class of a property.
    property: usize,
    place: Place,
    /// The number of open brackets of classes.
    brackets: usize,
    /// For each open group or class, what is before it in the one around it: the branches that have ended, and the last
    /// one.
    outer: Vec<(Piece, Piece)>,
    /// The branches that have ended of the innermost group, or the members of the innermost class.
    ended: Piece,
    /// Its last branch before the last atom.
    before: Piece,
    /// The last atom, which a repetition multiplies.
    atom: Piece,
    /// The last character of a class; whether the class is negated; and whether it may have few members, or none, as
    /// far as is known.
    last: usize,
    is_turned: bool,
    is_unknown: bool,
    /// Whether a letter also matches its other case, and whether an escape may match ASCII only.
    has_cases: bool,
    has_bytes: bool,
    groups: usize,
    literals: Literals,
    /// Whether the last atom is a character to which the next one is joined.
    is_text: bool,
    /// What reading the pattern costs in addition.
    more: usize,
}

impl Scale {
    /// Reads a pattern, where a class of a property has the length `property`.
    pub fn of(alloc: Global, pattern: &str, property: usize) -> Result<Scale, AllocError> {
        let mut scale = Scale {
            property,
            place: Place::Free,
            brackets: 0,
            outer: Vec::new(alloc),
            ended: NOTHING,
            before: EMPTY,
            atom: EMPTY,
            last: 0,
            is_turned: false,
            is_unknown: false,
            has_cases: false,
            has_bytes: false,
            groups: 0,
            literals: Literals::new(),
            is_text: false,
            more: 0,
        };
        for c in pattern.chars() {
            scale.put(c)?;
        }
        Ok(scale)
    }

    /// Returns about how many characters the pattern has where its counted repetitions are written out.
    pub fn length(&self) -> usize {
        self.entire().length
    }

    /// Returns what reading the pattern costs in addition: its groups, its classes, and the literals that it is a
    /// choice among.
    pub fn beside(&self) -> usize {
        let copied = self.literals.copied(self.entire());
        self.more.saturating_add(copied)
    }

    /// Returns all that was read of the innermost group or class.
    fn entire(&self) -> Piece {
        self.ended.or(self.before.then(self.atom))
    }

    /// Reads a character.
    fn put(&mut self, c: char) -> Result<(), AllocError> {
        let place = self.place;
        self.place = Place::Free;
        match place {
            Place::Escaped => self.put_escaped(c),
            Place::Named if c == '{' => self.place = Place::Name,
            Place::Name if c != '}' => self.place = Place::Name,
            Place::Named | Place::Name => {}
            Place::Count { most, number } => self.put_count(c, most, number),
            Place::Opened if c == '^' => self.turn_class(),
            Place::Opened | Place::Turned if c == ']' => self.put_member(c),
            Place::Range if !matches!(c, ']' | '[' | '\\') => self.end_range(c),
            Place::Group if c == '?' => self.place = Place::Flags,
            Place::Group => {
                self.add_group();
                self.put_free(c)?;
            }
            Place::Flags => self.put_flag(c),
            _ => self.put_free(c)?,
        }
        Ok(())
    }

    /// Reads a character after nothing that changes its meaning.
    fn put_free(&mut self, c: char) -> Result<(), AllocError> {
        let is_joined = self.is_text;
        self.is_text = false;
        match c {
            '\\' => self.place = Place::Escaped,
            '[' => self.open_class()?,
            ']' if self.brackets > 0 => self.close_class(),
            _ if self.brackets > 0 => self.put_member(c),
            '(' => self.open(EMPTY, Place::Group)?,
            ')' => self.close_group(),
            '|' => self.end_branch(),
            '{' => self.place = Place::Count { most: 0, number: 0 },
            '*' | '+' => self.put_other(self.atom.unbounded(1)),
            '?' => self.repeat(self.atom.or(Piece::maybe(1))),
            '.' => self.add(Piece::other(ALL_BUT_FEW)),
            '^' | '$' => self.add(Piece::other(1)),
            _ => self.put_text(c, is_joined),
        }
        Ok(())
    }

    /// Reads a character that matches itself. It is joined to such a character before it.
    fn put_text(&mut self, c: char, is_joined: bool) {
        if is_joined {
            self.put_atom(Piece::one(c.len_utf8(), 1));
        } else {
            self.add_character(c);
        }
        if !is_joined && !self.has_cases {
            self.literals.begin();
        }
        self.is_text = !self.has_cases;
    }

    /// Reads what is after a backslash. A property may have few members, and so may a range that an escape ends.
    fn put_escaped(&mut self, c: char) {
        if matches!(c, 'p' | 'P' | 'x' | 'u' | 'U') {
            self.place = Place::Named;
        }
        self.last = usize::MAX;
        self.is_unknown |= self.is_turned;
        self.add(match c {
            'p' | 'P' => Piece::some(self.property, 1),
            'd' | 's' if self.has_bytes => Piece::some(self.property / 10 + 1, 1),
            'w' | 'W' => Piece::other(self.property),
            'd' | 'D' | 's' | 'S' => Piece::other(self.property / 10 + 1),
            'x' | 'u' | 'U' => Piece::some(ALL_BUT_FEW, 1),
            'b' | 'B' | '<' | '>' => Piece::other(WORD_END),
            'A' | 'z' => Piece::other(1),
            _ if self.brackets > 0 => Piece::some(1, 1),
            _ => Piece::one(1, 1),
        });
    }

    /// Reads a character of a counted repetition.
    fn put_count(&mut self, c: char, most: usize, number: usize) {
        if c == '}' {
            return self.put_rounds(most, number);
        }
        let number = match c.to_digit(10) {
            Some(digit) => number.saturating_mul(10).saturating_add(digit as usize),
            None => 0,
        };
        let most = most.max(number);
        self.place = Place::Count { most, number };
    }

    /// Reads the end of a counted repetition. If its last number is 0 or missing, it is assumed to have no bound. If it
    /// has no other number, nothing may be left of the atom.
    fn put_rounds(&mut self, most: usize, last: usize) {
        let part = self.atom.repeated(most.max(1));
        if most == 0 {
            self.atom = EMPTY;
            self.atom.length = part.length;
            self.literals.go_on();
        } else if most > MOST_ROUNDS || last == 0 {
            self.put_other(part.unbounded(0));
        } else {
            self.repeat(part);
        }
    }

    /// Replaces the last atom by this part, at which a run may end.
    fn put_other(&mut self, part: Piece) {
        self.atom = part;
        if !part.is_choice() {
            self.literals.end();
        }
    }

    /// Reads a character after the `(?` of a group.
    fn put_flag(&mut self, c: char) {
        match c {
            ')' => return self.close_group(),
            ':' => return,
            '<' => {
                self.more = self.more.saturating_add(self.groups / NAMES);
                return self.add_group();
            }
            'i' => self.has_cases = true,
            'u' => self.has_bytes = true,
            'x' => self.before.length = VERBOSE,
            _ => {}
        }
        self.place = Place::Flags;
    }

    /// Reads a character of a class.
    fn put_member(&mut self, c: char) {
        if c == '-' && self.ended.most > 0 {
            self.ended = self.ended.or(Piece::maybe(1));
            self.place = Place::Range;
            return;
        }
        let code = c as usize;
        if code == self.last && matches!(c, '&' | '~') {
            self.put_together();
        }
        self.last = code;
        self.add_character(c);
    }

    /// Reads the end of a range, or the operator that subtracts a class.
    fn end_range(&mut self, c: char) {
        if c == '-' {
            self.put_together();
        } else if self.has_cases {
            self.more = self.more.saturating_add(CASES);
        }
        let members = (c as usize).saturating_sub(self.last);
        self.add(Piece::one(c.len_utf8(), members));
    }

    /// Reads an operator that combines two classes.
    fn put_together(&mut self) {
        self.is_unknown = true;
        self.more = self.more.saturating_add(TOGETHER);
    }

    /// Adds a character that matches itself.
    fn add_character(&mut self, c: char) {
        let mut literals = 1;
        if self.has_cases && c.is_ascii_alphabetic() {
            literals = 2;
            self.more = self.more.saturating_add(1);
        }
        self.add(Piece::one(c.len_utf8(), literals));
    }

    /// Adds a member of a class, or else an atom.
    fn add(&mut self, part: Piece) {
        if self.brackets > 0 {
            self.ended = self.ended.or(part);
            return;
        }
        self.put_atom(part);
        self.put_other(part);
        self.literals.count(self.before, self.atom);
    }

    fn put_atom(&mut self, part: Piece) {
        self.before = self.before.then(self.atom);
        self.atom = part;
    }

    /// Replaces the last atom by this part, which repeats it or is a group.
    fn repeat(&mut self, part: Piece) {
        self.atom = part;
        self.literals.count(self.before, self.atom);
        self.literals.begin();
    }

    /// Records that the current group can be referred to, by a number or a name.
    fn add_group(&mut self) {
        self.before.length = self.before.length.saturating_add(ENDS);
        self.groups = self.groups.saturating_add(1);
        self.more = self.more.saturating_add(GROUP);
    }

    fn open_class(&mut self) -> Result<(), AllocError> {
        self.is_unknown = self.brackets > 0;
        self.is_turned = false;
        self.brackets = self.brackets.saturating_add(1);
        self.last = usize::MAX;
        self.open(NOTHING, Place::Opened)
    }

    fn turn_class(&mut self) {
        self.is_turned = true;
        self.add(Piece::some(ALL_BUT_FEW, 0));
        self.place = Place::Turned;
    }

    fn open(&mut self, before: Piece, place: Place) -> Result<(), AllocError> {
        self.outer.push((self.ended, self.before.then(self.atom)))?;
        self.ended = NOTHING;
        self.before = before;
        self.atom = EMPTY;
        self.place = place;
        Ok(())
    }

    fn end_branch(&mut self) {
        self.ended = self.entire();
        self.ended.length = self.ended.length.saturating_add(1);
        self.before = EMPTY;
        self.atom = EMPTY;
    }

    /// Returns the group or class that was opened last, which ends here.
    fn close(&mut self) -> Piece {
        let entire = self.entire();
        let (ended, before) = self.outer.pop().unwrap_or((NOTHING, EMPTY));
        self.ended = ended;
        self.before = before;
        self.atom = EMPTY;
        entire
    }

    fn close_group(&mut self) {
        let group = self.close();
        self.repeat(group);
    }

    fn close_class(&mut self) {
        self.brackets = self.brackets.saturating_sub(1);
        let members = self.close();
        let length = members.length;
        self.add(if self.brackets > 0 {
            members
        } else if self.is_unknown || (self.is_turned && members.most > ALMOST_ALL) {
            Piece::some(length, 0)
        } else if self.is_turned || members.least > FEW {
            Piece::other(length)
        } else if self.has_cases {
            Piece::some(length, members.least)
        } else {
            members
        });
    }
}

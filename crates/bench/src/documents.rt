//! Documents and their texts: bookstores, and small messages. Each run makes the same ones.
ghost use Rattle.std.specs.Prelude.{◌≡◌, Some, IfOk, string_bytes};
ghost use Rattle.serde_json.specs.Read.{read as read_text};
ghost use Rattle.serde_json.specs.View.{view};

use jsonpath_rust::{ReadError, Whole};
use serde_json::Value;
use std::alloc::{AllocError, Global};
use std::fmt::Write;
use std::io;
use std::io::ErrorKind;

const NOUNS: [&str; 14] = [
    "sword", "honour", "moby", "dick", "lord", "rings", "century", "sayings", "night", "river",
    "silver", "winter", "garden", "stone",
];

const CATEGORIES: [&str; 4] = ["fiction", "reference", "poetry", "science"];

const KINDS: [&str; 4] = ["order", "invoice", "question", "thanks"];

/// Choices that look like chance: a linear congruential generator.
#[derive(Drop)]
pub struct Dice {
    state: u64,
}

impl Dice {
    /// One that makes the choices of this seed.
    pub fn new(seed: u64) -> Self {
        Dice { state: seed }
    }

    /// The next number from 0 on, below the bound.
    fn below(&mut self, bound: u32) -> u64 {
        let next = self.state.wrapping_mul(6364136223846793005);
        self.state = next.wrapping_add(1442695040888963407);
        (self.state >> 32).wrapping_mul(u64::from(bound)) >> 32
    }

    /// One of four words.
    fn word<'w>(&mut self, [first, second, third, fourth]: [&'w str; 4]) -> &'w str {
        match self.below(4) {
            0 => first,
            1 => second,
            2 => third,
            _ => fourth,
        }
    }

    /// One of the nouns.
    fn noun(&mut self) -> &'static str {
        match NOUNS.get(self.below(14) as usize) {
            Some(noun) => noun,
            None => "",
        }
    }
}

/// A bookstore of that many bytes, and up to 400 more.
pub fn bookstore(alloc: Global, bytes: usize) -> Result<String, AllocError> {
    let mut text = String::from_str(alloc, "{\"store\":{\"book\":[")?;
    let mut dice = Dice::new(1);
    for id in 0..u64::MAX {
        if text.len() >= bytes {
            break;
        }
        push_book(&mut text, &mut dice, id)?;
    }
    text.push_str("],\"bicycle\":{\"color\":\"red\",\"price\":20}},")?;
    text.push_str("\"expensive\":10,\"pattern\":\"[a-m].*\"}")?;
    Ok(text)
}

fn push_book(text: &mut String, dice: &mut Dice, id: u64) -> Result<(), AllocError> {
    text.push_str(if id == 0 { "{" } else { ",{" })?;
    let category = dice.word(CATEGORIES);
    write!(text, "\"category\":\"{category}\",\"author\":\"")?;
    push_nouns(text, dice, 2, " ")?;
    text.push_str("\",\"title\":\"")?;
    push_nouns(text, dice, 4, " ")?;
    let price = dice.below(39).saturating_add(1);
    let pages = dice.below(1180).saturating_add(20);
    write!(
        text,
        "\",\"price\":{price},\"pages\":{pages},\"id\":{id},\"tags\":["
    )?;
    match dice.below(4) {
        0 => text.push(']')?,
        count => {
            text.push('"')?;
            push_nouns(text, dice, count, "\",\"")?;
            text.push_str("\"]")?;
        }
    }
    if dice.below(2) == 0 {
        let number = dice.below(100000);
        write!(text, ",\"isbn\":\"0-{number:05}\"")?;
    }
    if dice.below(10) < 3 {
        let a = dice.below(3);
        let b = dice.below(3);
        write!(text, ",\"a\":{a},\"b\":{b}")?;
    }
    text.push('}')
}

/// So many nouns, parted by that text.
fn push_nouns(
    text: &mut String,
    dice: &mut Dice,
    count: u64,
    parting: &str,
) -> Result<(), AllocError> {
    for index in 0..count {
        text.push_str(if index == 0 { "" } else { parting })?;
        text.push_str(dice.noun())?;
    }
    Ok(())
}

/// A message of up to four lines.
pub fn message(alloc: Global, dice: &mut Dice) -> Result<String, AllocError> {
    let kind = dice.word(KINDS);
    let mut text = format!(in alloc; "{{\"kind\":\"{kind}\",\"subject\":\"")?;
    push_nouns(&mut text, dice, 4, " ")?;
    text.push_str("\",\"lines\":[")?;
    for index in 0..dice.below(5) {
        text.push_str(if index == 0 { "" } else { "," })?;
        let item = dice.noun();
        let count = dice.below(9).saturating_add(1);
        let price = dice.below(39).saturating_add(1);
        write!(
            text,
            "{{\"item\":\"{item}\",\"count\":{count},\"price\":{price}}}"
        )?;
    }
    let urgent = dice.below(10) == 0;
    write!(text, "],\"urgent\":{urgent}}}")?;
    Ok(text)
}

/// A list of so many numbers.
pub fn numbers(alloc: Global, count: usize) -> Result<String, AllocError> {
    let mut text = String::from_str(alloc, "[0")?;
    for number in 1..count {
        write!(text, ",{number}")?;
    }
    text.push(']')?;
    Ok(text)
}

/// So many messages.
pub fn inbox(alloc: Global, count: usize) -> io::Result<Vec<Whole<Value>>> {
    let mut messages = Vec::new(alloc);
    let mut dice = Dice::new(2);
    for _ in 0..count {
        messages.push(read(alloc, message(alloc, &mut dice)?)?)?;
    }
    Ok(messages)
}

/// The document of a text, whose numbers have to be whole.
pub fn read(alloc: Global, text: String) -> io::Result<Whole<Value>>
    ensures { IfOk result (λ w. read_text (string_bytes text) ≡ Some (view w.value)) }
{
    Whole::read(alloc, text.as_str()).map_err(unread)
}

/// Why a text is no document, as an error of this program.
fn unread(error: ReadError) -> io::Error {
    let kind = match error {
        ReadError::Memory => ErrorKind::OutOfMemory,
        ReadError::NotJson | ReadError::NotWhole => ErrorKind::InvalidData,
    };
    kind.into()
}

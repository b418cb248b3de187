//! The command line.
ghost use Rattle.std.specs.Prelude.{◌≡◌, map, string_bytes, option_map};
ghost use Rattle.std.specs.Str.{all_ascii_digits};
ghost use Rattle.jpath.specs.Words.{asked_by, command_of, depth_of, is_depth};

use jsonpath_parser::MAX_NESTING_DEPTH;

/// What is printed of each node that a query selects.
#[derive(Clone, Copy, Debug)]
pub enum Listing {
    /// The path and the value of each node.
    Nodes,
    /// The value of each node.
    Values,
    /// The path of each node.
    Paths,
}

/// What is done with what a query selects.
#[derive(Clone, Copy, Debug)]
pub enum Command {
    /// A line for each node is printed.
    Print(Listing),
    /// All of it is deleted at once; the count and the document that is left are printed.
    Delete,
}

impl Command {
    /// The command of that word.
    pub fn of(word: &str) -> Option<Command>
        ensures { result ≡ command_of word.now }
    {
        match word {
            "nodes" => Some(Command::Print(Listing::Nodes)),
            "values" => Some(Command::Print(Listing::Values)),
            "paths" => Some(Command::Print(Listing::Paths)),
            "delete" => Some(Command::Delete),
            _ => None,
        }
    }
}

/// What the words ask for.
#[derive(Clone, Copy, Debug)]
pub struct Request<'w> {
    pub command: Command,
    /// How deep the brackets of the query may nest.
    pub depth: usize,
    /// The text of the query.
    pub query: &'w str,
}

/// What these words, those behind the program's name, ask for; None where they are no command and query.
pub fn request_of(words: &[String]) -> Option<Request<'_>>
    ensures { option_map (λ r. record { command = r.command; depth = r.depth; query = r.query.now }) result ≡ asked_by (map string_bytes words.now) }
{
    let (command, depth, query) = match words {
        [command, query] => (command, MAX_NESTING_DEPTH, query),
        [command, option, depth, query] if option.as_str() == "--depth" => {
            (command, depth_of(depth.as_str())?, query)
        }
        _ => return None,
    };
    Some(Request {
        command: Command::of(command.as_str())?,
        depth,
        query: query.as_str(),
    })
}

/// The depth that a word of one to three ASCII digits names; None for any other word.
fn depth_of(word: &str) -> Option<usize>
    ensures { result ≡ depth_of word.now }
{
    if !is_depth(word) {
        return None;
    }
    word.parse().ok()
}

/// Whether a word is one to three ASCII digits.
fn is_depth(word: &str) -> bool
    ensures { result ≡ is_depth word.now }
{
    word.len() >= 1 && word.len() <= 3 && has_digits_alone(word)
}

/// Whether each byte is an ASCII digit.
fn has_digits_alone(word: &str) -> bool
    ensures { result ≡ all_ascii_digits word.now }
{
    for byte in word.as_bytes() {
        if !byte.is_ascii_digit() {
            return false;
        }
    }
    true
}

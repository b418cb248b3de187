//! Why a run ends early.
ghost use Rattle.std.specs.Prelude.{◌≡◌};
ghost use Rattle.jpath.specs.Fault.{ending};

use jsonpath_parser::errors::JsonPathError;
use std::alloc::{AllocError, AllocFailed};
use std::fmt;
use std::fmt::Write;

/// Why a run ends early. Its `Display` is the line for standard error, without the newline.
#[derive(Debug, Drop)]
pub enum Fault {
    /// The words are no command and query.
    Usage,
    /// The query was refused: by the parser, before anything is read; or, when all is read, by `InvalidJsonPath` for a
    /// pattern: one stands in the query whose value at some node of the document is a text that `regex` reads, and `regex`
    /// refused it for its size.
    Query(JsonPathError),
    /// The input is not JSON.
    NotJson,
    /// The document holds a number that is no whole number of 64 bits.
    NotWhole,
    /// A read, a write or a flush failed.
    Io,
    /// Memory ran out.
    Memory,
}

impl Fault {
    /// The exit status.
    pub fn status(&self) -> u8
        ensures { result ≡ (ending self.now).0 }
    {
        match self {
            Fault::Query(_) => 1,
            Fault::Usage => 2,
            Fault::NotJson => 3,
            Fault::NotWhole => 4,
            Fault::Io => 5,
            Fault::Memory => 6,
        }
    }
}

impl fmt::Display for Fault {
    ghost use Rattle.std.specs.Prelude.{Some};
    ghost use Rattle.jpath.specs.Fault.{ending};

    ghost output = { λ f. Some (ending f).1 };

    fn fmt<W: Write>(&self, f: &mut fmt::Formatter<W>) -> fmt::Result {
        match self {
            Fault::Query(JsonPathError::InvalidNumber(_)) => {
                f.write_str("jpath: a literal is no whole number of 64 bits")
            }
            Fault::Query(JsonPathError::MaxNestingDepthExceeded(depth)) => {
                write!(f, "jpath: nesting deeper than {depth}")
            }
            Fault::Query(JsonPathError::InvalidJsonPath(_)) => f.write_str(
                "jpath: a pattern is too large",
            ),
            Fault::Query(_) => f.write_str("jpath: not a query"),
            Fault::Usage => f.write_str(
                "jpath: usage: jpath nodes, values, paths or delete, then a query",
            ),
            Fault::NotJson => f.write_str("jpath: input is not JSON"),
            Fault::NotWhole => {
                f.write_str("jpath: the document holds a number that is no whole number of 64 bits")
            }
            Fault::Io => f.write_str("jpath: reading or writing failed"),
            Fault::Memory => f.write_str("jpath: out of memory"),
        }
    }
}

impl From<AllocError> for Fault {
    ghost use Rattle.jpath.specs.declared.fault.Fault.TheVariants.{Memory};

    ghost from_gives = { λ _ f. f ≡ Memory };

    fn from(_error: AllocError) -> Fault {
        Fault::Memory
    }
}

impl<T: Drop> From<AllocFailed<T>> for Fault {
    ghost use Rattle.jpath.specs.declared.fault.Fault.TheVariants.{Memory};

    ghost from_gives = { λ _ f. f ≡ Memory };

    fn from(_error: AllocFailed<T>) -> Fault {
        Fault::Memory
    }
}

impl From<JsonPathError> for Fault {
    ghost use Rattle.jpath.specs.Fault.{fault_of};

    ghost from_gives = { λ e f. f ≡ fault_of e };

    fn from(error: JsonPathError) -> Fault {
        match error {
            JsonPathError::OutOfMemory => Fault::Memory,
            error => Fault::Query(error),
        }
    }
}

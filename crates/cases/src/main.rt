//! Asks the cases on standard input, and tells which do not hold: of what no clause says, and that the definitions answer as RFC 9535 does.
//!
//! A case names a call, and has its arguments and its answer (`asking`). A table leads each name to a function (`calls`), which reads the
//! arguments (`arguments`) and gives a value, or why there is none (`answers`). The functions stand in a module for each kind of call: of
//! texts and the trees that are read of them (`trees`), of trees and errors that are made (`makers`, `built`), of `jsonpath_base` (`base`),
//! of documents (`types`), of which `doc` has a second type, of limits and conditions (`limits`), of parts of a query, asked of a state
//! (`process`, `states`), of the proved callers in `examples` that ask (`callers`), and of what changes a document (`changes`).
#![tactic(auto)]

mod answers;
mod arguments;
mod asking;
mod base;
mod built;
mod callers;
mod calls;
mod changes;
mod doc;
mod limits;
mod makers;
mod process;
mod states;
mod trees;
mod types;

use std::io;

fn main(rt: HostRuntime) -> io::Result<()> {
    let input = io::read_to_string(rt.alloc(), rt.reader())?;
    asking::ask_cases(&rt, input.as_str(), calls::answer)
}

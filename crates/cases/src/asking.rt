//! Cases: `{"call": .., "arguments": [..], "answer": ..}`, the name of a call, what it takes, and what it answers. A refusal is the answer
//! `{"refused": ..}`.
ghost use Rattle.std.specs.Prelude.{IsTrue, IsOkAnd};
ghost use Rattle.jsonpath_base.specs.Same.{same};
ghost use Rattle.jsonpath_base.specs.Values.{value_tree};

use crate::answers::{CaseResult, Refusal, answered, are_same};
use crate::arguments::{given, list, text};
use serde_json::Value;
use std::alloc::Global;
use std::io;

/// What asking a case comes to.
#[derive(Drop)]
enum Outcome {
    Holds,
    /// This came, and not the answer that is wanted.
    Came(Value),
    /// Nothing came, and why.
    Nothing(&'static str),
}

/// Asks each case, of the call that its name leads to, tells which do not hold and what came, and last how many hold.
pub fn ask_cases<C: Fn(Global, &str, &[Value]) -> CaseResult<Value>>(
    rt: &(impl Print + AllocGlobal),
    input: &str,
    call: C,
) -> io::Result<()>
    requires { C.IsAlwaysCallable call }
{
    let mut count = 0u64;
    let mut held = 0u64;
    for (at, line) in input.lines().enumerate() {
        if line.is_empty() || line.starts_with('#') {
            continue;
        }
        count = count.saturating_add(1);
        let outcome = ask(rt.alloc(), line, &call);
        if matches!(&outcome, Outcome::Holds) {
            held = held.saturating_add(1);
        }
        let told = tell(rt, at.saturating_add(1), line, &outcome);
        drop(outcome);
        told?;
    }
    println!(rt; "{held} of {count} cases hold")
}

/// Tells of a case that does not hold what it asks and wants, and what came.
fn tell(
    rt: &(impl Print + AllocGlobal),
    number: usize,
    line: &str,
    outcome: &Outcome,
) -> io::Result<()> {
    match outcome {
        Outcome::Holds => Ok(()),
        Outcome::Came(answer) => {
            println!(rt; "case {number} does not hold: {line}, but {answer}")
        }
        Outcome::Nothing(why) => println!(rt; "case {number}, {why}: {line}"),
    }
}

/// Asks the case that the line spells.
fn ask<C: Fn(Global, &str, &[Value]) -> CaseResult<Value>>(
    alloc: Global,
    line: &str,
    call: &C,
) -> Outcome
    requires { C.IsAlwaysCallable call.now }
{
    let case = match Value::from_str(alloc, line) {
        Ok(case) => case,
        Err(error) if error.is_memory() => return Outcome::Nothing("out of memory"),
        Err(_) => return Outcome::Nothing("no case"),
    };
    let outcome = match parts_of(&case) {
        Ok((name, arguments, wanted)) => {
            beside(answered(alloc, call(alloc, name, arguments)), wanted)
        }
        Err(_) => Outcome::Nothing("no case"),
    };
    drop(case);
    outcome
}

/// The name of the call, its arguments, and the answer that is wanted. A case has these members, and it may have a `name`.
fn parts_of(case: &Value) -> CaseResult<(&str, &[Value], &Value)> {
    let members = if case.get("name").is_some() { 4 } else { 3 };
    if given(case.as_object())?.len() != members {
        return Err(Refusal::NoAnswer);
    }
    let (call, arguments) = (given(case.get("call"))?, given(case.get("arguments"))?);
    Ok((text(call)?, list(arguments)?, given(case.get("answer"))?))
}

/// What came, beside the answer that is wanted.
fn beside(given: CaseResult<Value>, wanted: &Value) -> Outcome {
    if is_wanted(&given, wanted) {
        drop(given);
        return Outcome::Holds;
    }
    match given {
        Ok(answer) => Outcome::Came(answer),
        Err(refusal) => Outcome::Nothing(refusal.words()),
    }
}

/// Whether there is an answer, and it is the one that is wanted.
fn is_wanted(given: &CaseResult<Value>, wanted: &Value) -> bool
    ensures { IsTrue result → IsOkAnd given.now (λ v. IsTrue (same (value_tree v) (value_tree wanted.now))) }
{
    match given {
        Ok(answer) => are_same(answer, wanted),
        Err(_) => false,
    }
}

//! The grammar functions for logical expressions and what stands in them (RFC 9535, 2.3.5.1 and 2.4).
ghost use Rattle.jsonpath_parser.specs.Prelude.{always, atom_view, call_view, comparable_view, comparison_view, filter_view, literal_view, ReadsPart, SpellsBasic, SpellsCall, SpellsComparable, SpellsComparison, SpellsConjunction, SpellsLiteral, SpellsLogical, SpellsTest, test_view};
ghost use Rattle.jsonpath_parser.specs.tree.Typing as typed;

use super::Cursor;
use super::part::part;
use crate::errors::Parsed;
use crate::grammar::productions;
use crate::tree::model::{Comparable, Comparison, Filter, FilterAtom, Literal, Test, TestFunction};
use crate::tree::typing;
use std::alloc::Global;

/// Reads a logical expression (2.3.5.1). It returns `Or` of the operands of `||` where there are two or more, else what the
/// one operand is.
///
/// # Errors
///
/// Those of [`Cursor`].
pub fn logical_expr(alloc: Global, cursor: &mut Cursor<'_>) -> Parsed<Filter>
    ensures { ReadsPart SpellsLogical typed.is_typed_filter filter_view cursor.old cursor.new result }
{
    part(
        alloc,
        cursor,
        productions::logical,
        productions::as_read,
        typing::filter,
    )
}

/// Reads an operand of `||` (2.3.5.1). It returns `And` of the operands of `&&` where there are two or more, else the one
/// operand as an `Atom`.
///
/// # Errors
///
/// Those of [`Cursor`].
pub fn logical_expr_and(alloc: Global, cursor: &mut Cursor<'_>) -> Parsed<Filter>
    ensures { ReadsPart SpellsConjunction typed.is_typed_filter filter_view cursor.old cursor.new result }
{
    part(
        alloc,
        cursor,
        productions::conjunction,
        productions::filter,
        typing::filter,
    )
}

/// Reads an operand of `&&`: an expression in parentheses or a test, each perhaps behind `!`, or a comparison (2.3.5.1). It
/// returns the operand.
///
/// # Errors
///
/// Those of [`Cursor`].
pub fn filter_atom(alloc: Global, cursor: &mut Cursor<'_>) -> Parsed<FilterAtom>
    ensures { ReadsPart SpellsBasic typed.is_typed_filter atom_view cursor.old cursor.new result }
{
    part(
        alloc,
        cursor,
        productions::basic,
        productions::atom_in,
        typing::atom,
    )
}

/// Reads a comparison of two values (2.3.5.1). It returns the comparison by its operator.
///
/// # Errors
///
/// Those of [`Cursor`].
pub fn comp_expr(alloc: Global, cursor: &mut Cursor<'_>) -> Parsed<Comparison>
    ensures { ReadsPart SpellsComparison typed.is_typed_filter comparison_view cursor.old cursor.new result }
{
    part(
        alloc,
        cursor,
        productions::basic,
        productions::comparison_in,
        typing::comparison,
    )
}

/// Reads a side of a comparison: a literal, a singular query, or a call that gives a value (2.3.5.1). It returns the side.
///
/// # Errors
///
/// Those of [`Cursor`].
pub fn comparable(alloc: Global, cursor: &mut Cursor<'_>) -> Parsed<Comparable>
    ensures { ReadsPart SpellsComparable typed.is_typed_side comparable_view cursor.old cursor.new result }
{
    part(
        alloc,
        cursor,
        productions::operand,
        |operand, remaining| productions::comparable(alloc, operand, remaining),
        typing::comparable,
    )
}

/// Reads a literal: a number, a string, `true`, `false` or `null` (2.3.5.1). It returns its value.
///
/// # Errors
///
/// Those of [`Cursor`].
pub fn literal(alloc: Global, cursor: &mut Cursor<'_>) -> Parsed<Literal>
    ensures { ReadsPart SpellsLiteral always literal_view cursor.old cursor.new result }
{
    part(
        alloc,
        cursor,
        productions::operand,
        productions::literal_in,
        productions::has_no_call,
    )
}

/// Reads a test: a query from `@` or from `$`, or a call that gives a truth (2.3.5.1). It returns the test.
///
/// # Errors
///
/// Those of [`Cursor`].
pub fn test(alloc: Global, cursor: &mut Cursor<'_>) -> Parsed<Test>
    ensures { ReadsPart SpellsTest typed.is_typed_truth test_view cursor.old cursor.new result }
{
    part(
        alloc,
        cursor,
        productions::operand,
        productions::test_in,
        typing::truth,
    )
}

/// Reads a call of a function that takes its arguments (2.4). It returns the call.
///
/// # Errors
///
/// Those of [`Cursor`].
pub fn function_expr(alloc: Global, cursor: &mut Cursor<'_>) -> Parsed<TestFunction>
    ensures { ReadsPart SpellsCall typed.is_typed_call call_view cursor.old cursor.new result }
{
    part(
        alloc,
        cursor,
        productions::operand,
        productions::call_in,
        typing::call,
    )
}

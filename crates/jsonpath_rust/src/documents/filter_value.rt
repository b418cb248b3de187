//! Values in a filter: the sides of a comparison, and what functions take and return.
ghost use Rattle.std.specs.Prelude.{◌++◌, ◌≡◌, IfErr, IfOk, length, OnOk, option_and_then, option_map, option_to_list, Some};
ghost use Rattle.jsonpath_base.specs.Prelude.Documents.{as_int, as_text, count_value, is_true, length_of, literal_tree, literal_view};
ghost use Rattle.jsonpath_rust.specs.Prelude.Documents.{arg_trees, Memory, filter_value_tree, own_tree, scalar_tree, filter_ref_tree, tree_of};

use crate::documents::args::Args;
use crate::documents::queryable::Queryable;
use crate::documents::walk_error::WalkResult;
use crate::documents::whole::{Whole, WholeRef};
use jsonpath_base::text_length;
use jsonpath_parser::model::Literal;
use std::alloc::{AllocError, Global};

/// The greatest count, which is the greatest integer of 64 bits. Counts stop there.
pub const GREATEST_COUNT: usize = 9223372036854775807;

/// A value without children.
#[derive(Clone, Copy)]
pub enum Scalar<'s> {
    Null,
    Truth(bool),
    Number(i64),
    Text(&'s str),
}

impl<'s> Scalar<'s> {
    /// Returns the text, if it is one.
    #[inline(always)]
    fn as_text(&self) -> Option<&str>
        ensures { option_map (λ s. s.now) result ≡ as_text (scalar_tree self.now) }
    {
        match self {
            Scalar::Text(text) => Some(*text),
            _ => None,
        }
    }
}

/// A borrowed value in a filter, or none.
pub enum FilterValueRef<'a, 's, T: Queryable> {
    Absent,
    /// A value in the document, or one that a custom function made.
    Borrowed(WholeRef<'a, T>),
    Plain(Scalar<'s>),
}

impl<'a, 's, T: Queryable> Clone for FilterValueRef<'a, 's, T> {
    fn clone(&self) -> Result<Self, AllocError> {
        Ok(*self)
    }
}

impl<'a, 's, T: Queryable> Copy for FilterValueRef<'a, 's, T> {}

/// The value of an expression in a filter.
#[derive(Drop)]
pub enum FilterValue<'a, 's, T: Queryable> {
    /// A value in the document, a scalar, or none.
    Ref(FilterValueRef<'a, 's, T>),
    /// A value that a custom function made.
    Owned(Whole<T>),
}

/// Returns the value of a literal.
#[inline(always)]
pub fn scalar_of(literal: &Literal) -> Scalar<'_>
    ensures { scalar_tree result ≡ literal_tree (literal_view literal.now) }
{
    match literal {
        Literal::Int(number) => Scalar::Number(*number),
        Literal::String(text) => Scalar::Text(text.as_str()),
        Literal::Bool(truth) => Scalar::Truth(*truth),
        Literal::Null => Scalar::Null,
    }
}

/// Returns a count as a value.
#[inline(always)]
pub fn count_scalar<'s>(count: usize) -> Scalar<'s>
    ensures { scalar_tree result ≡ count_value count }
{
    Scalar::Number(count.min(GREATEST_COUNT) as i64)
}

impl<'a, 's, T: Queryable> FilterValueRef<'a, 's, T> {
    /// Returns a value, or absent for None.
    #[inline(always)]
    pub fn from_ref(value: Option<WholeRef<'a, T>>) -> Self
        ensures { filter_ref_tree result ≡ option_map tree_of value.entry }
    {
        match value {
            Some(value) => FilterValueRef::Borrowed(value),
            None => FilterValueRef::Absent,
        }
    }

    /// Returns the number, if it is one.
    #[inline(always)]
    pub fn as_number(&self) -> Option<i64>
        ensures { result ≡ option_and_then as_int (filter_ref_tree self.now) }
    {
        match self {
            FilterValueRef::Borrowed(value) => value.as_i64(),
            FilterValueRef::Plain(Scalar::Number(number)) => Some(*number),
            _ => None,
        }
    }

    /// Returns the text, if it is one.
    #[inline(always)]
    pub fn as_text(&self) -> Option<&str>
        ensures { option_map (λ s. s.now) result ≡ option_and_then as_text (filter_ref_tree self.now) }
    {
        match self {
            FilterValueRef::Absent => None,
            FilterValueRef::Borrowed(value) => value.as_str(),
            FilterValueRef::Plain(scalar) => scalar.as_text(),
        }
    }

    /// Returns whether it is `true`.
    #[inline(always)]
    pub fn is_true(&self) -> bool
        ensures { result ≡ is_true (filter_ref_tree self.now) }
    {
        match self {
            FilterValueRef::Borrowed(value) => value.as_bool() == Some(true),
            FilterValueRef::Plain(Scalar::Truth(truth)) => *truth,
            _ => false,
        }
    }

    /// Returns the length of a text, a list or an object, and absent for any other value (RFC 9535, 2.4.4).
    pub fn length<'l>(&self, alloc: Global) -> WalkResult<FilterValueRef<'l, 's, T>>
        ensures value { IfOk result (λ s. filter_ref_tree s ≡ length_of (filter_ref_tree self.now)) }
        ensures memory { IfErr result (λ h. h ≡ Memory) }
    {
        match self {
            FilterValueRef::Borrowed(value) => Ok(counted(length_of(alloc, *value)?)),
            FilterValueRef::Plain(Scalar::Text(text)) => Ok(FilterValueRef::Plain(count_scalar(
                text_length(text),
            ))),
            _ => Ok(FilterValueRef::Absent),
        }
    }

    /// Adds it to the arguments of a custom function, unless it is absent.
    pub fn push_to(self, alloc: Global, args: &mut Args<'a, T>) -> WalkResult<()>
        ensures value { OnOk result (arg_trees args.new ≡ arg_trees args.old ++ option_to_list (filter_ref_tree self.entry)) }
        ensures memory { IfErr result (λ h. h ≡ Memory) }
    {
        match self {
            FilterValueRef::Absent => Ok(()),
            FilterValueRef::Borrowed(value) => {
                args.push_lent(value)?;
                Ok(())
            }
            FilterValueRef::Plain(scalar) => {
                let value = made(alloc, scalar)?;
                args.push_made(value)?;
                Ok(())
            }
        }
    }
}

impl<'a, 's, T: Queryable> FilterValue<'a, 's, T> {
    /// Returns a value of the document, or absent for None.
    #[inline(always)]
    pub fn from_ref(value: Option<WholeRef<'a, T>>) -> Self
        ensures { filter_value_tree result ≡ option_map tree_of value.entry }
    {
        FilterValue::Ref(FilterValueRef::from_ref(value))
    }

    /// Returns the same value. A value that a custom function made is copied.
    #[inline(always)]
    pub fn try_clone(&self, alloc: Global) -> WalkResult<Self>
        ensures value { IfOk result (λ o. filter_value_tree o ≡ filter_value_tree self.now) }
        ensures memory { IfErr result (λ h. h ≡ Memory) }
    {
        match self {
            FilterValue::Ref(side) => Ok(FilterValue::Ref(*side)),
            FilterValue::Owned(value) => Ok(FilterValue::Owned(value.try_clone(alloc)?)),
        }
    }

    /// Returns it borrowed, as a side of a comparison.
    #[inline(always)]
    pub fn as_side(&self) -> FilterValueRef<'_, 's, T>
        ensures { filter_ref_tree result ≡ filter_value_tree self.now }
    {
        match self {
            FilterValue::Ref(side) => *side,
            FilterValue::Owned(value) => FilterValueRef::Borrowed(value.as_ref()),
        }
    }

    /// Returns the number of values: 0 if it is absent, else 1.
    pub fn count(&self) -> usize
        ensures { result ≡ length (option_to_list (filter_value_tree self.now)) }
    {
        match self {
            FilterValue::Ref(FilterValueRef::Absent) => 0,
            _ => 1,
        }
    }

    /// Returns whether it is `true`.
    #[inline(always)]
    pub fn is_true(&self) -> bool
        ensures { result ≡ is_true (filter_value_tree self.now) }
    {
        self.as_side().is_true()
    }

    /// Returns the length of a text, a list or an object, and absent for any other value (RFC 9535, 2.4.4).
    #[inline(always)]
    pub fn length(&self, alloc: Global) -> WalkResult<FilterValue<'a, 's, T>>
        ensures value { IfOk result (λ o. filter_value_tree o ≡ length_of (filter_value_tree self.now)) }
        ensures memory { IfErr result (λ h. h ≡ Memory) }
    {
        let length = self.as_side().length(alloc)?;
        Ok(FilterValue::Ref(length))
    }

    /// Adds it to the arguments of a custom function, unless it is absent.
    pub fn push_to(self, alloc: Global, args: &mut Args<'a, T>) -> WalkResult<()>
        ensures value { OnOk result (arg_trees args.new ≡ arg_trees args.old ++ option_to_list (filter_value_tree self.entry)) }
        ensures memory { IfErr result (λ h. h ≡ Memory) }
    {
        match self {
            FilterValue::Ref(side) => side.push_to(alloc, args),
            FilterValue::Owned(value) => {
                args.push_made(value)?;
                Ok(())
            }
        }
    }
}

/// Returns a scalar as a value of the document's type.
pub fn made<T: Queryable>(alloc: Global, scalar: Scalar<'_>) -> WalkResult<Whole<T>>
    ensures value { IfOk result (λ v. own_tree v ≡ scalar_tree scalar.entry) }
    ensures memory { IfErr result (λ h. h ≡ Memory) }
{
    match scalar {
        Scalar::Null => Ok(Whole { value: T::null() }),
        Scalar::Truth(truth) => Ok(Whole {
            value: T::from_bool(alloc, truth)?,
        }),
        Scalar::Number(number) => Ok(Whole {
            value: T::from_i64(alloc, number)?,
        }),
        Scalar::Text(text) => Ok(Whole {
            value: T::from_text(alloc, text)?,
        }),
    }
}

/// Returns the length of a value, if it has one (RFC 9535, 2.4.4).
pub fn length_of<T: Queryable>(alloc: Global, value: WholeRef<'_, T>) -> WalkResult<Option<usize>>
    ensures value { IfOk result (λ o. option_map count_value o ≡ length_of (Some (tree_of value.entry))) }
    ensures memory { IfErr result (λ h. h ≡ Memory) }
{
    if let Some(text) = value.as_str() {
        return Ok(Some(text_length(text)));
    }
    if let Some(items) = value.elements() {
        return Ok(Some(items.len()));
    }
    Ok(value.member_count(alloc)?)
}

/// Returns a count as a value, or absent for None.
fn counted<'a, 's, T: Queryable>(count: Option<usize>) -> FilterValueRef<'a, 's, T>
    ensures { filter_ref_tree result ≡ option_map count_value count }
{
    match count {
        Some(count) => FilterValueRef::Plain(count_scalar(count)),
        None => FilterValueRef::Absent,
    }
}

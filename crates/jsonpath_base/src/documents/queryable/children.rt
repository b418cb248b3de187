//! The children of a value that a walk needs.
ghost use Rattle.std.specs.Prelude.{◌<◌, ◌≡◌, IfSome, IsTrue, map, None, option_to_list};
ghost use Rattle.jsonpath_base.specs.Prelude.Documents.{as_list, as_members, below, indexed, Location, size};
ghost use Rattle.jsonpath_parser.specs.Location as location;
ghost use Rattle.jsonpath_base.specs.documents.Meaning as meaning;

use crate::documents::queryable::Queryable;

/// Returns whether the value is a text or a number, which has no children.
#[inline(always)]
pub fn is_leaf<T: Queryable>(at: &T) -> bool
    requires { IsTrue (T.is_whole at.now) }
    ensures list { IsTrue result → None ≡ as_list (T.tree at.now) }
    ensures object { IsTrue result → None ≡ as_members (T.tree at.now) }
{
    at.as_str().is_some() || at.as_i64().is_some()
}

/// Returns the element that an index means in a list, with its position, counted from 0 (RFC 9535, 2.3.3).
#[inline(always)]
pub fn element<T: Queryable>(at: &T, index: i64) -> Option<(usize, &T)>
    requires { IsTrue (T.is_whole at.now) }
    ensures value { (l : Location) → map (λ p. below l (location.index p.0) (T.tree p.1.now)) (option_to_list result)
        ≡ indexed index (record { location = l; tree = T.tree at.now }) }
    ensures whole { IfSome result (λ p. IsTrue (T.is_whole p.1.now)) }
    ensures smaller { IfSome result (λ p. size (T.tree p.1.now) < size (T.tree at.now)) }
{
    let items = at.as_array()?;
    let position = element_of(index, items.len())?;
    let child = items.get(position)?;
    Some((position, child))
}

/// Returns the position from 0 that an index means in a list of this length. A negative index counts from the end.
#[inline(always)]
pub fn element_of(index: i64, length: usize) -> Option<usize>
    ensures { result ≡ meaning.element_of index length }
{
    if index < 0 {
        length.checked_sub(index.unsigned_abs() as usize)
    } else {
        let position = index as usize;
        if position < length {
            Some(position)
        } else {
            None
        }
    }
}

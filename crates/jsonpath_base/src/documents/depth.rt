//! The depth of lists and objects in one another.
ghost use Rattle.std.specs.Prelude.{◌≡◌, IfErr};
ghost use Rattle.jsonpath_base.specs.Prelude.Documents.{Memory};

use crate::documents::queryable::Queryable;
use crate::documents::walk_error::WalkResult;
use std::alloc::Global;

/// Returns whether lists and objects are in one another more than `levels` deep, the value itself counted. Each value
/// inside takes one of `looks`: an element when it is visited, the members of an object before they are listed. Where
/// the looks run out, the result covers only the values that were visited.
#[cycle(depth)]
pub fn is_deeper<T: Queryable>(
    alloc: Global,
    value: &T,
    levels: usize,
    looks: &mut usize,
) -> WalkResult<bool>
    ensures { IfErr result (λ h. h ≡ Memory) }
{
    if let Some(items) = value.as_array() {
        return is_list_deeper(alloc, items, levels, looks);
    }
    let Some(count) = value.member_count(alloc)? else {
        return Ok(false);
    };
    if levels == 0 {
        return Ok(true);
    }
    if count > *looks {
        *looks = 0;
        return Ok(false);
    }
    *looks -= count;
    match value.as_object(alloc)? {
        Some(members) => is_member_deeper(alloc, &members, levels - 1, looks),
        None => Ok(false),
    }
}

/// Returns whether some of these elements is that deep.
#[cycle(depth)]
fn is_list_deeper<T: Queryable>(
    alloc: Global,
    items: &Vec<T>,
    levels: usize,
    looks: &mut usize,
) -> WalkResult<bool>
    ensures { IfErr result (λ h. h ≡ Memory) }
{
    if levels == 0 {
        return Ok(true);
    }
    for item in items {
        if *looks == 0 {
            return Ok(false);
        }
        *looks -= 1;
        if is_deeper(alloc, item, levels - 1, looks)? {
            return Ok(true);
        }
    }
    Ok(false)
}

/// Returns whether some of these members is that deep.
#[cycle(depth)]
fn is_member_deeper<T: Queryable>(
    alloc: Global,
    members: &Vec<(&str, &T)>,
    levels: usize,
    looks: &mut usize,
) -> WalkResult<bool>
    ensures { IfErr result (λ h. h ≡ Memory) }
{
    for member in members {
        if is_deeper(alloc, member.1, levels, looks)? {
            return Ok(true);
        }
    }
    Ok(false)
}

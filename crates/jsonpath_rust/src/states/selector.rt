//! The member or element that one name or one index selects from a pointer (RFC 9535, 2.3.1 and 2.3.3).
ghost use Rattle.std.specs.Prelude.{◌≡◌, IfErr, IfOk, IsTrue};
ghost use Rattle.jsonpath_base.specs.Prelude.Documents.{OutOfMemory};
ghost use Rattle.jsonpath_rust.specs.Prelude.States.{content_of, DataIsWhole, indexed_from, named_from, target_of};

use crate::documents::Queried;
use crate::documents::queryable::Queryable;
use crate::states::held::WholePointerRef;
use crate::states::state::{Data, Pointer};
use std::alloc::Global;

/// Returns the member of that name, at the pointer's path and one more step; nothing where there is none. It fails with
/// `OutOfMemory` only.
pub fn process_key<'a, T: Queryable>(
    alloc: Global,
    pointer: Pointer<'a, T>,
    key: &str,
) -> Queried<Data<'a, T>>
    requires { IsTrue (T.is_whole pointer.inner.now) }
    ensures value { IfOk result (λ d. content_of T.tree d ≡ named_from key.now (target_of T.tree pointer.entry)) }
    ensures whole { IfOk result (λ d. DataIsWhole T.is_whole d) }
    ensures memory { IfErr result (λ e. e ≡ OutOfMemory) }
{
    let from = WholePointerRef { pointer: &pointer };
    Ok(from.named(alloc, key)?.content)
}

/// Returns the element that the index means, from the end where it is negative, at the pointer's path and one more
/// step; nothing where there is none. It fails with `OutOfMemory` only.
pub fn process_index<'a, T: Queryable>(
    alloc: Global,
    pointer: Pointer<'a, T>,
    idx: &i64,
) -> Queried<Data<'a, T>>
    requires { IsTrue (T.is_whole pointer.inner.now) }
    ensures value { IfOk result (λ d. content_of T.tree d ≡ indexed_from idx.now (target_of T.tree pointer.entry)) }
    ensures whole { IfOk result (λ d. DataIsWhole T.is_whole d) }
    ensures memory { IfErr result (λ e. e ≡ OutOfMemory) }
{
    let from = WholePointerRef { pointer: &pointer };
    Ok(from.indexed(alloc, *idx)?.content)
}

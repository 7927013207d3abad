//! Copies and equality of lists.

ghost use Rattle.std.specs.Prelude.{◌≡◌, IfOk};
ghost use Rattle.std.specs.Cmp.Lexicographic.{pointwise};

use crate::body::{Body, Memory};
use std::alloc::Global;

// Copies all items, in order.
pub(crate) fn copy_all<T: Body>(alloc: Global, items: &[T]) -> Result<Vec<T>, Memory>
    ensures { IfOk result (λ copies. copies.items ≡ items.now) }
{
    let mut copies = Vec::with_capacity(alloc, items.len())?;
    for item in items {
        copies.push(item.copy(alloc)?)?;
    }
    Ok(copies)
}

// Returns whether the lists are equal in value, item by item.
pub(crate) fn all_same<T: Body>(items: &[T], others: &[T]) -> bool
    ensures { result ≡ pointwise T.same items.now others.now }
{
    if items.len() != others.len() {
        return false;
    }
    for (i, item) in items.iter().enumerate() {
        if !item.same(&others[i]) {
            return false;
        }
    }
    true
}

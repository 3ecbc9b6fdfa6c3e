//! Lists in memory of just their size.

ghost use Rattle.std.specs.Prelude.{◌≡◌, [], IfOk, OnOk};

use rc_fixed::{List, NoMemory};
use std::alloc::Global;

/// The items of a list, in memory of just their size. The list has none left, and keeps its memory for further ones.
///
/// # Errors
///
/// `NoMemory` for want of memory.
pub fn fitted<T: Drop>(alloc: Global, list: &mut List<T>) -> Result<List<T>, NoMemory>
    ensures items { IfOk result (λ fit. fit ≡ list.old) }
    ensures left { OnOk result (list.new ≡ []) }
{
    let mut fit = List::with_capacity(alloc, list.len())?;
    fit.append(list)?;
    Ok(fit)
}

//! Lists that may gain an item.

ghost use Rattle.std.specs.Prelude.{◌≡◌, ◌++◌, [], OnOk};
ghost use Rattle.std.specs.List.{cons_option};

use rc_fixed::{List, NoMemory};

/// Appends an item, where there is one.
pub fn push_any<T: Drop>(list: &mut List<T>, item: Option<T>) -> Result<(), NoMemory>
    ensures { OnOk result (list.new ≡ list.old ++ cons_option item []) }
{
    match item {
        Some(item) => list.push(item),
        None => Ok(()),
    }
}

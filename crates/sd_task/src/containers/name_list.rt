ghost use Rattle.std.specs.Prelude.{◌≡◌, ◌++◌, [], ◌∷◌, map, string_bytes, bytes_eq, IfOk, OnOk};
ghost use Rattle.std.specs.List.{IsDistinct};

use indexmap::IndexSet;
use sd_list::NoMemory;
use std::alloc::Global;

/// Adds a name.
pub(crate) fn push_name(alloc: Global, names: &mut Vec<String>, name: &str) -> Result<(), NoMemory>
    ensures { OnOk result (map string_bytes names.new.items ≡ map string_bytes names.old.items ++ name.now ∷ []) }
{
    names.push(String::from_str(alloc, name)?)?;
    Ok(())
}

/// Adds several names.
pub(crate) fn push_names(
    alloc: Global,
    names: &mut Vec<String>,
    more: &[String],
) -> Result<(), NoMemory>
    ensures { OnOk result (map string_bytes names.new.items ≡ map string_bytes names.old.items ++ map string_bytes more.now) }
{
    for name in more {
        push_name(alloc, names, name.as_str())?;
    }
    Ok(())
}

/// The set of names that are all different, in their order.
pub(crate) fn set_of(alloc: Global, names: &[String]) -> Result<IndexSet<String>, NoMemory>
    requires { IsDistinct bytes_eq (map string_bytes names.now) }
    ensures { IfOk result (λ set. map string_bytes set.keys ≡ map string_bytes names.now) }
{
    let mut set = IndexSet::with_capacity(alloc, names.len())?;
    for name in names {
        set.insert(String::from_str(alloc, name.as_str())?)?;
    }
    Ok(set)
}

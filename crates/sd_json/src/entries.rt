ghost use Rattle.std.specs.Prelude.{◌≡◌, ℕ, List, [], ◌∷◌, ◌++◌, ◌||◌, not, bytes_eq, IfOk, OnOk};
ghost use Rattle.std.specs.List.{filter_map, list_any};
ghost use Rattle.std.specs.BTreeMap.{get_by_text};
ghost use Rattle.std.specs.BTreeSet.{contains_text};
ghost use Rattle.sd_json.specs.Names.{is_extra};
ghost use Rattle.sd_json.specs.Entries.{size_kept};

use crate::entry::Entry;
use crate::names::Names;
use sd_list::{NoMemory, Sequence, Text};
use std::alloc::Global;
use std::collections::{BTreeMap, BTreeSet};

/// Entries of an arrays file by their names.
pub(crate) type Entries = BTreeMap<String, Entry>;

/// Adds names to a set of them.
fn add(alloc: Global, set: &mut BTreeSet<String>, names: &[Text]) -> Result<(), NoMemory>
    ensures { OnOk result ((name : List ℕ) → contains_text set.new name ≡ (contains_text set.old name || list_any (bytes_eq name) names.now)) }
{
    for name in names {
        set.insert(name.as_str().to_string(alloc)?)?;
    }
    Ok(())
}

/// The names that a graph looks for, as a set.
pub(crate) fn wanted(alloc: Global, names: &Names) -> Result<BTreeSet<String>, NoMemory>
    ensures { IfOk result (λ set. (name : List ℕ) → is_extra names.now name ≡ not (contains_text set name)) }
{
    let mut set = BTreeSet::new(alloc);
    add(alloc, &mut set, names.symbols.as_slice())?;
    add(alloc, &mut set, names.arguments.as_slice())?;
    Ok(set)
}

/// Adds the size of a symbol, with its name, where it has an entry that is one.
fn push_size(
    alloc: Global,
    sizes: &mut Sequence<(Text, i64)>,
    entries: &Entries,
    symbol: &Text,
) -> Result<(), NoMemory>
    ensures { OnOk result (sizes.new ≡ sizes.old ++ filter_map (λ symbol. size_kept symbol (get_by_text entries.now symbol)) (symbol.now ∷ [])) }
{
    if let Some(entry) = entries.get(symbol.as_str()) {
        if let Some(size) = entry.size() {
            sizes.push((symbol.copy_of(alloc)?, size))?;
        }
    }
    Ok(())
}

/// The sizes of these symbols, each with its name, where they have an entry that is one.
pub(crate) fn sizes(
    alloc: Global,
    entries: &Entries,
    symbols: &[Text],
) -> Result<Sequence<(Text, i64)>, NoMemory>
    ensures { IfOk result (λ sizes. sizes ≡ filter_map (λ symbol. size_kept symbol (get_by_text entries.now symbol)) symbols.now) }
{
    let mut sizes = Sequence::new(alloc);
    for symbol in symbols {
        push_size(alloc, &mut sizes, entries, symbol)?;
    }
    Ok(sizes)
}

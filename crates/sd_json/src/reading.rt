ghost use Rattle.std.specs.Prelude.{◌≡◌, ◌≢◌, ℕ, List, false, Ok, Err, Some, map, length, IfOk, IfErr, bytes_eq};
ghost use Rattle.std.specs.List.{IsDistinct};
ghost use Rattle.std.specs.BTreeMap.{get_by_text};
ghost use Rattle.serde_json.specs.Data.{Members};
ghost use Rattle.sd_graph.specs.TreeFold.{graph_tree};
ghost use Rattle.sd_json.specs.Names.{names_in};
ghost use Rattle.sd_json.specs.Entries.{array_kept, AreKept, AreOfObject};
ghost use Rattle.sd_json.specs.ArraysReading.{refusal_of, entries_reading, arrays_reading};

use crate::array::Array;
use crate::elements::Elements;
use crate::entries::{self, Entries};
use crate::error::InputError;
use crate::fault::Fault;
use crate::given::Given;
use crate::kept::Kept;
use crate::names::Names;
use crate::object::read_entries;
use sd_graph::Sdfg;
use sd_list::{NoMemory, Sequence, Text};
use std::alloc::Global;

/// The first case that refuses the entries of a file.
fn refusal(
    alloc: Global,
    entries: &Entries,
    extra: Option<Text>,
    names: &Names,
) -> Result<Option<InputError>, NoMemory>
    ensures { IfOk result (λ refusal. (members : Members) → AreKept names.now (record { entries = entries.now; extra = extra }) members → refusal ≡ refusal_of names.now members) }
{
    let symbols = names.symbols.as_slice();
    let arguments = names.arguments.as_slice();
    if let Some(name) = Fault::Missing.first(entries, arguments) {
        return Ok(Some(InputError::Missing(name.copy_of(alloc)?)));
    }
    if let Some(name) = extra {
        return Ok(Some(InputError::Extra(name)));
    }
    if let Some(name) = Fault::NoSize.first(entries, symbols) {
        return Ok(Some(InputError::NotANumber(name.copy_of(alloc)?)));
    }
    if let Some(name) = Fault::NoNumber.first(entries, arguments) {
        return Ok(Some(InputError::NotANumber(name.copy_of(alloc)?)));
    }
    if let Some(name) = Fault::Ragged.first(entries, arguments) {
        return Ok(Some(InputError::Ragged(name.copy_of(alloc)?)));
    }
    Ok(None)
}

/// Takes the array of a name out of the entries; without an entry it is empty.
fn take_array(alloc: Global, entries: &mut Entries, name: &Text) -> Array
    ensures array { result ≡ array_kept (get_by_text entries.old name.now) }
    ensures others { (other : List ℕ) → bytes_eq name.now other ≡ false → get_by_text entries.new other ≡ get_by_text entries.old other }
{
    match entries.remove(name.as_str()) {
        Some(entry) => entry.into_array(alloc),
        None => Array {
            shape: Sequence::new(alloc),
            elements: Elements::new(alloc),
        },
    }
}

/// Takes the arrays of these names, each of which stands there once, out of the entries.
fn take_arrays(
    alloc: Global,
    entries: &mut Entries,
    names: &[Text],
) -> Result<Sequence<Array>, NoMemory>
    requires { IsDistinct bytes_eq names.now }
    ensures { IfOk result (λ arrays. arrays ≡ map (λ name. array_kept (get_by_text entries.old name)) names.now) }
{
    let mut arrays = Vec::with_capacity(alloc, names.len())?;
    for name in names {
        arrays.push(take_array(alloc, entries, name))?;
    }
    Ok(Sequence::from(arrays))
}

/// What the entries of a file give, or the first case that refuses them.
fn judged(alloc: Global, kept: Kept, names: &Names) -> Result<Given, InputError>
    requires object { AreOfObject names.now kept }
    requires distinct { IsDistinct bytes_eq names.now.arguments }
    ensures ok { IfOk result (λ given. (members : Members) → AreKept names.now kept members → entries_reading names.now (Some members) ≡ Ok given) }
    ensures err { IfErr result (λ error. error ≢ InputError.Memory → (members : Members) → AreKept names.now kept members → entries_reading names.now (Some members) ≡ Err error) }
{
    let Kept { mut entries, extra } = kept;
    if let Some(refusal) = refusal(alloc, &entries, extra, names)? {
        return Err(refusal);
    }
    let sizes = entries::sizes(alloc, &entries, names.symbols.as_slice())?;
    let arrays = take_arrays(alloc, &mut entries, names.arguments.as_slice())?;
    Ok(Given::new(sizes, arrays))
}

/// What an arrays file gives to a graph, or the first case that refuses it.
///
/// The cases are, in this order: it is no JSON object; an argument has no entry; an entry is
/// neither a size symbol's nor an argument's; a size or a leaf of an argument is no whole number;
/// the lists of an argument have no common shape. A size symbol without an entry is not refused
/// here. Each name that is told is the first in its order: of symbols in source order, of arguments
/// in the order of the signature, of other entries the least in byte order.
pub fn read_arrays(alloc: Global, bytes: &[u8], graph: &Sdfg) -> Result<Given, InputError>
    ensures ok { IfOk result (λ given. arrays_reading (names_in (graph_tree graph.now)) bytes.now ≡ Ok given) }
    ensures err { IfErr result (λ error. error ≢ InputError.Memory → arrays_reading (names_in (graph_tree graph.now)) bytes.now ≡ Err error) }
    ensures arrays { IfOk result (λ given. length given.arrays ≡ length (names_in (graph_tree graph.now)).arguments) }
{
    let names = Names::of(alloc, graph)?;
    match read_entries(alloc, bytes, &names)? {
        Some(kept) => judged(alloc, kept, &names),
        None => Err(InputError::NotJson),
    }
}

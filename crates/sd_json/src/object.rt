ghost use Rattle.std.specs.Prelude.{◌≡◌, ◌∷◌, ◌<◌, length, false, Some, None, Err, IfOk, OnOk, option_and_then};
ghost use Rattle.std.specs.Bool.{MatchBool};
ghost use Rattle.std.specs.Option.{MatchOption};
ghost use Rattle.json.specs.Token.{begin_object};
ghost use Rattle.json.specs.Json.{value, members, parse_map};
ghost use Rattle.serde_json.specs.Data.{Data, Members, no_members};
ghost use Rattle.serde_json.specs.Read.{of_json, of_members, converted, read};
ghost use Rattle.serde_json.specs.Find.{as_object};
ghost use Rattle.sd_json.specs.ArraysReading.{entries_of};
ghost use Rattle.sd_json.specs.Entries.{entry_of, AreKept};
ghost use Rattle.sd_json.specs.Walk.{opens_object};

use crate::entries;
use crate::entry::Entry;
use crate::kept::Kept;
use crate::names::Names;
use crate::numbers::Numbers;
use crate::stop::Stop;
use crate::walk::read_value;
use json::{Reader, Scratch, Token};
use sd_list::NoMemory;
use std::alloc::Global;

/// Lists and objects may nest so deep.
const MAX_DEPTH: usize = 127;

/// Reads one entry.
fn read_entry(alloc: Global, reader: &mut Reader<'_>, depth: usize) -> Result<Entry, Stop>
    ensures ok { IfOk result (λ entry. parse_map entry_of (converted of_json (value depth reader.old)) ≡ Some (entry, reader.new)) }
    ensures shorter { OnOk result (length reader.new < length reader.old) }
    ensures err { result ≡ Err Stop.NotJson → converted of_json (value depth reader.old) ≡ None }
{
    let mut numbers = Numbers::new(alloc);
    let shape = read_value(alloc, reader, depth, &mut numbers)?;
    Ok(Entry {
        numbers: numbers.into_list(),
        shape,
    })
}

/// Passes an entry that nobody asks for.
fn pass_entry(alloc: Global, reader: &mut Reader<'_>, depth: usize) -> Result<(), Stop>
    ensures ok { OnOk result ((of : Data) × (converted of_json (value depth reader.old) ≡ Some (of, reader.new))) }
    ensures shorter { OnOk result (length reader.new < length reader.old) }
    ensures err { result ≡ Err Stop.NotJson → converted of_json (value depth reader.old) ≡ None }
{
    let mut numbers = Numbers::unasked(alloc);
    drop(read_value(alloc, reader, depth, &mut numbers)?);
    Ok(())
}

/// Reads the entries of an object behind its brace. Of two with one name the last one stays. Of
/// those that are neither a size symbol's nor an argument's only a name is kept.
fn read_members(
    alloc: Global,
    reader: &mut Reader<'_>,
    depth: usize,
    names: &Names,
) -> Result<Kept, Stop>
    ensures ok { IfOk result (λ kept. (of : Members) × (converted (λ ms. of_members ms no_members) (members (value depth) (length reader.old) reader.old) ≡ Some (of, reader.new)) × AreKept names.now kept of) }
    ensures err { result ≡ Err Stop.NotJson → converted (λ ms. of_members ms no_members) (members (value depth) (length reader.old) reader.old) ≡ None }
{
    let wanted = entries::wanted(alloc, names)?;
    let mut kept = Kept::new(alloc);
    'members: while let Some(name) = reader.next_key()? {
        if wanted.contains(name) {
            let key = String::from_str(alloc, name)?;
            let entry = read_entry(alloc, reader, depth)?;
            drop(kept.entries.insert(key, entry)?);
        } else {
            kept.note(alloc, name)?;
            pass_entry(alloc, reader, depth)?;
        }
    }
    Ok(kept)
}

/// Takes the brace that opens an object.
fn take_brace(reader: &mut Reader<'_>) -> bool
    ensures { MatchBool result (reader.old ≡ begin_object ∷ reader.new) (opens_object reader.old ≡ false) }
{
    match reader.next() {
        Some(token) => matches!(token, Token::BeginObject),
        None => false,
    }
}

/// Reads a text that is one object.
fn read_object(
    alloc: Global,
    text: &str,
    scratch: &mut Scratch,
    names: &Names,
) -> Result<Kept, Stop>
    ensures ok { IfOk result (λ kept. (of : Members) × (option_and_then as_object (read text.now) ≡ Some of) × AreKept names.now kept of) }
    ensures err { result ≡ Err Stop.NotJson → option_and_then as_object (read text.now) ≡ None }
{
    let mut reader = Reader::new(text, scratch)?;
    if !take_brace(&mut reader) {
        return Err(Stop::NotJson);
    }
    let kept = read_members(alloc, &mut reader, MAX_DEPTH - 1, names)?;
    match reader.next() {
        Some(_) => Err(Stop::NotJson),
        None => Ok(kept),
    }
}

/// Reads the entries of an arrays file, where its bytes are an object, and keeps what a graph looks
/// for and the least of the other names.
pub(crate) fn read_entries(
    alloc: Global,
    bytes: &[u8],
    names: &Names,
) -> Result<Option<Kept>, NoMemory>
    ensures { IfOk result (λ found. MatchOption found (entries_of bytes.now ≡ None) (λ kept. (of : Members) × (entries_of bytes.now ≡ Some of) × AreKept names.now kept of)) }
{
    let Ok(text) = simdutf8::compat::from_utf8(bytes) else {
        return Ok(None);
    };
    let mut scratch = Scratch::new(alloc);
    match read_object(alloc, text, &mut scratch, names) {
        Ok(kept) => Ok(Some(kept)),
        Err(Stop::NotJson) => Ok(None),
        Err(Stop::Memory) => Err(NoMemory),
    }
}

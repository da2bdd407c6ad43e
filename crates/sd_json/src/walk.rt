// One pass over the tokens of a text. What is read is told by the value that the kit's own reading
// of the same tokens gives.
ghost use Rattle.std.specs.Prelude.{◌≡◌, ℕ, ◌<◌, ◌≤◌, ◌∷◌, [], List, Option, length, Some, None, IfOk, OnOk, Err};
ghost use Rattle.json.specs.Token.{Token as AToken};
ghost use Rattle.json.specs.Reads.{token_of};
ghost use Rattle.json.specs.Json.{number, value, items, members, parse_map};
ghost use Rattle.serde_json.specs.Data.{Members, no_members};
ghost use Rattle.serde_json.specs.Read.{of_json, of_items, of_members, converted};
ghost use Rattle.sd_json.specs.Walk.{rows_with, value_kept, items_kept};

use crate::leaf::{read_number, short_number};
use crate::numbers::Numbers;
use crate::rows::Rows;
use crate::stop::Stop;
use json::{Reader, Token};
use sd_list::Sequence;
use std::alloc::Global;

/// Reads a value with lists and objects at most so deep. Gives its shape, and adds its numbers to
/// those before.
pub(crate) fn read_value(
    alloc: Global,
    reader: &mut Reader<'_>,
    depth: usize,
    numbers: &mut Numbers,
) -> Result<Option<Sequence<u64>>, Stop>
    ensures ok { IfOk result (λ shape. parse_map (value_kept numbers.old) (converted of_json (value depth reader.old)) ≡ Some ((shape, numbers.new), reader.new)) }
    ensures shorter { OnOk result (length reader.new < length reader.old) }
    ensures err { result ≡ Err Stop.NotJson → converted of_json (value depth reader.old) ≡ None }
{
    match reader.next() {
        Some(token) => read_from(alloc, token, reader, depth, numbers),
        None => Err(Stop::NotJson),
    }
}

/// Reads a number of another form than few digits, as `read_leaf` does.
#[cold]
#[inline(never)]
fn read_other_leaf(text: &str, numbers: &mut Numbers) -> Result<(), Stop>
    ensures ok { OnOk result ((rest : List AToken) → parse_map (value_kept numbers.old) (converted of_json (Some (number text.now, rest))) ≡ Some ((Some [], numbers.new), rest)) }
    ensures err { result ≡ Err Stop.NotJson → (rest : List AToken) → converted of_json (Some (number text.now, rest)) ≡ None }
{
    match read_number(text) {
        Some(leaf) => Ok(numbers.add(leaf)?),
        None => Err(Stop::NotJson),
    }
}

/// Reads a number, and adds it to those before where it is a whole one.
#[inline(always)]
fn read_leaf(text: &str, numbers: &mut Numbers) -> Result<(), Stop>
    ensures ok { OnOk result ((rest : List AToken) → parse_map (value_kept numbers.old) (converted of_json (Some (number text.now, rest))) ≡ Some ((Some [], numbers.new), rest)) }
    ensures err { result ≡ Err Stop.NotJson → (rest : List AToken) → converted of_json (Some (number text.now, rest)) ≡ None }
{
    match short_number(text) {
        Some(number) => Ok(numbers.push(number)?),
        None => read_other_leaf(text, numbers),
    }
}

/// Reads the value that begins with this token, behind which the reader stands, as `read_value`
/// does.
#[cycle(walk)]
#[inline(always)]
fn read_from(
    alloc: Global,
    token: Token<'_>,
    reader: &mut Reader<'_>,
    depth: usize,
    numbers: &mut Numbers,
) -> Result<Option<Sequence<u64>>, Stop>
    ensures ok { IfOk result (λ shape. parse_map (value_kept numbers.old) (converted of_json (value depth (token_of token.entry ∷ reader.old))) ≡ Some ((shape, numbers.new), reader.new)) }
    ensures shorter { OnOk result (length reader.new ≤ length reader.old) }
    ensures err { result ≡ Err Stop.NotJson → converted of_json (value depth (token_of token.entry ∷ reader.old)) ≡ None }
{
    match token {
        Token::Number(text) => {
            read_leaf(text, numbers)?;
            Ok(Some(Sequence::new(alloc)))
        }
        Token::String(_) | Token::Bool(_) | Token::Null => {
            numbers.add(None)?;
            Ok(Some(Sequence::new(alloc)))
        }
        Token::EndObject | Token::EndArray | Token::Key(_) | Token::Bad => Err(Stop::NotJson),
        Token::BeginArray => {
            if depth == 0 {
                return Err(Stop::NotJson);
            }
            read_items(alloc, reader, depth - 1, numbers)
        }
        Token::BeginObject => {
            if depth == 0 {
                return Err(Stop::NotJson);
            }
            numbers.add(None)?;
            pass_members(alloc, reader, depth - 1, numbers)?;
            Ok(Some(Sequence::new(alloc)))
        }
    }
}

/// Reads one item of a list, as `read_value` does, and adds it to those before. A number goes
/// without a shape of its own.
#[cycle(walk)]
#[inline(always)]
fn read_item(
    alloc: Global,
    reader: &mut Reader<'_>,
    depth: usize,
    numbers: &mut Numbers,
    rows: &mut Rows,
) -> Result<(), Stop>
    ensures ok { OnOk result ((shape : Option (List ℕ)) × (parse_map (value_kept numbers.old) (converted of_json (value depth reader.old)) ≡ Some ((shape, numbers.new), reader.new)) × (rows.new ≡ rows_with rows.old shape)) }
    ensures shorter { OnOk result (length reader.new < length reader.old) }
    ensures err { result ≡ Err Stop.NotJson → converted of_json (value depth reader.old) ≡ None }
{
    let token = reader.next().ok_or(Stop::NotJson)?;
    if let Token::Number(text) = token {
        read_leaf(text, numbers)?;
        rows.add_leaf()?;
    } else {
        let shape = read_from(alloc, token, reader, depth, numbers)?;
        rows.add(shape)?;
    }
    Ok(())
}

/// Reads the items of a list behind its bracket, as `read_value` does.
#[cycle(walk)]
#[inline(never)]
fn read_items(
    alloc: Global,
    reader: &mut Reader<'_>,
    depth: usize,
    numbers: &mut Numbers,
) -> Result<Option<Sequence<u64>>, Stop>
    ensures ok { IfOk result (λ shape. parse_map (items_kept numbers.old) (converted of_items (items (value depth) (length reader.old) reader.old)) ≡ Some ((shape, numbers.new), reader.new)) }
    ensures shorter { OnOk result (length reader.new < length reader.old) }
    ensures err { result ≡ Err Stop.NotJson → converted of_items (items (value depth) (length reader.old) reader.old) ≡ None }
{
    let mut rows = Rows::new();
    'items: while !reader.take_end_array() {
        read_item(alloc, reader, depth, numbers, &mut rows)?;
    }
    Ok(rows.into_shape(alloc)?)
}

/// Passes the members of an object behind its brace. No numbers are added where a leaf was none
/// before.
#[cycle(walk)]
#[inline(never)]
fn pass_members(
    alloc: Global,
    reader: &mut Reader<'_>,
    depth: usize,
    numbers: &mut Numbers,
) -> Result<(), Stop>
    ensures ok { OnOk result ((found : Members) × (converted (λ ms. of_members ms no_members) (members (value depth) (length reader.old) reader.old) ≡ Some (found, reader.new))) }
    ensures none { OnOk result (numbers.old ≡ None → numbers.new ≡ None) }
    ensures shorter { OnOk result (length reader.new < length reader.old) }
    ensures err { result ≡ Err Stop.NotJson → converted (λ ms. of_members ms no_members) (members (value depth) (length reader.old) reader.old) ≡ None }
{
    'members: while let Some(name) = reader.next_key()? {
        let token = reader.next().ok_or(Stop::NotJson)?;
        read_from(alloc, token, reader, depth, numbers)?;
    }
    Ok(())
}

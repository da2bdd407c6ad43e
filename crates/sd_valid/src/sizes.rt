ghost use Rattle.std.specs.Prelude.{◌≡◌, map, string_bytes, Some, None, IfOk, MatchOption};
ghost use Rattle.sd_graph.specs.TreeFold.{graph_tree};
ghost use Rattle.sd_valid.specs.SizeValues.{size_of, is_size, value_of_size, symbols_of, first_name, has_no_size, has_bad_size};

use sd_graph::Sdfg;
use sd_list::{NoMemory, Sequence, Text};
use std::alloc::Global;

/// The greatest value of a size symbol, 2^24.
const MOST: i64 = 1 << 24;

/// Names with a value each. Where a name stands twice its first value counts.
#[derive(Drop)]
pub struct Sizes {
    pub values: Sequence<(Text, i64)>,
}

impl Sizes {
    /// The value of a name. Takes no memory.
    pub fn size_of(&self, name: &str) -> Option<i64>
        ensures { result ≡ size_of self.now.values name.now }
    {
        for (other, value) in self.values.as_slice() {
            if name == other.as_str() {
                return Some(*value);
            }
        }
        None
    }
}

/// The names of a graph's size symbols, which are its first variables.
pub(crate) fn symbols_of_graph(graph: &Sdfg) -> &[String]
    ensures { map string_bytes result.now ≡ symbols_of (graph_tree graph.now) }
{
    let count = (graph.symbols as usize).min(graph.variables.len());
    &graph.variables.as_slice()[..count]
}

/// The first symbol without a value.
pub(crate) fn first_missing<'a>(symbols: &'a [String], sizes: &Sizes) -> Option<&'a str>
    ensures { MatchOption result (first_name (has_no_size sizes.now.values) (map string_bytes symbols.now) ≡ None) (λ name. first_name (has_no_size sizes.now.values) (map string_bytes symbols.now) ≡ Some name.now) }
{
    for symbol in symbols {
        if sizes.size_of(symbol.as_str()).is_none() {
            return Some(symbol.as_str());
        }
    }
    None
}

/// The first symbol whose value is outside its limits.
pub(crate) fn first_bad<'a>(symbols: &'a [String], sizes: &Sizes) -> Option<&'a str>
    ensures { MatchOption result (first_name (has_bad_size sizes.now.values) (map string_bytes symbols.now) ≡ None) (λ name. first_name (has_bad_size sizes.now.values) (map string_bytes symbols.now) ≡ Some name.now) }
{
    for symbol in symbols {
        if !is_within(known_size(sizes, symbol.as_str())) {
            return Some(symbol.as_str());
        }
    }
    None
}

/// Whether a value is a size.
fn is_within(value: i64) -> bool
    ensures { result ≡ is_size value }
{
    0 <= value && value <= MOST
}

/// The value of a name, 0 where it has none.
fn known_size(sizes: &Sizes, name: &str) -> i64
    ensures { result ≡ value_of_size sizes.now.values name.now }
{
    match sizes.size_of(name) {
        Some(value) => value,
        None => 0,
    }
}

/// The values of the symbols in their order.
pub(crate) fn values_of_symbols(
    alloc: Global,
    symbols: &[String],
    sizes: &Sizes,
) -> Result<Vec<i64>, NoMemory>
    ensures { IfOk result (λ values. values.items ≡ map (value_of_size sizes.now.values) (map string_bytes symbols.now)) }
{
    let mut values = Vec::with_capacity(alloc, symbols.len())?;
    for symbol in symbols {
        values.push(known_size(sizes, symbol.as_str()))?;
    }
    Ok(values)
}

ghost use Rattle.std.specs.Prelude.{◌≡◌, ◌<◌, ◌^◌, map, length, string_bytes, bytes_eq, false, IfOk};
ghost use Rattle.std.specs.List.{list_any};
ghost use Rattle.sd_graph.specs.TreeFold.{named_container};
ghost use Rattle.sd_task.specs.containers.Declarations.{name_with_number, names_in_use};
ghost use Rattle.sd_task.specs.containers.Declarations as definition;

use indexmap::{IndexMap, IndexSet};
use sd_graph::Container;
use sd_list::NoMemory;
use std::alloc::Global;

/// Whether a container is declared under this name anywhere, or there is one so far.
#[tactic(auto, using(crate::proofs::containers_lemmas::MapLemmas::in_use_found))]
fn is_in_use(
    declared: &IndexSet<String>,
    containers: &IndexMap<String, Container>,
    name: &str,
) -> bool
    ensures { result ≡ list_any (bytes_eq name.now) (names_in_use (map string_bytes declared.now.keys) (map named_container containers.now.entries)) }
{
    declared.contains(name) || containers.contains_key(name)
}

/// The name with a number.
fn numbered(alloc: Global, name: &str, number: usize) -> Result<String, NoMemory>
    ensures { IfOk result (λ numbered. string_bytes numbered ≡ name_with_number name.now number) }
{
    Ok(format!(in alloc; "{name}${number}")?)
}

/// The name with the first number with which it is not in use.
fn first_free(
    alloc: Global,
    declared: &IndexSet<String>,
    containers: &IndexMap<String, Container>,
    name: &str,
) -> Result<String, NoMemory>
    ensures name { IfOk result (λ free. string_bytes free ≡ (let used = names_in_use (map string_bytes declared.now.keys) (map named_container containers.now.entries) in definition.first_free (length used) 1 used name.now)) }
    ensures few { length (names_in_use (map string_bytes declared.now.keys) (map named_container containers.now.entries)) < 2 ^ 64 }
{
    let last = declared.len() + containers.len() + 1;
    for number in 1..last {
        let free = numbered(alloc, name, number)?;
        if !is_in_use(declared, containers, free.as_str()) {
            return Ok(free);
        }
    }
    numbered(alloc, name, last)
}

/// The name itself where it is not in use, else with the first number with which it is not.
pub(crate) fn fresh_name(
    alloc: Global,
    declared: &IndexSet<String>,
    containers: &IndexMap<String, Container>,
    name: &str,
) -> Result<String, NoMemory>
    ensures name { IfOk result (λ fresh. string_bytes fresh ≡ definition.fresh_name (names_in_use (map string_bytes declared.now.keys) (map named_container containers.now.entries)) name.now) }
    ensures new { IfOk result (λ fresh. list_any (bytes_eq (string_bytes fresh)) (names_in_use (map string_bytes declared.now.keys) (map named_container containers.now.entries)) ≡ false) }
{
    if is_in_use(declared, containers, name) {
        first_free(alloc, declared, containers, name)
    } else {
        Ok(String::from_str(alloc, name)?)
    }
}

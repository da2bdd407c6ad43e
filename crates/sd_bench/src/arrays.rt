use indexmap::IndexMap;
use sd_graph::{Bound, Container, ContainerKind, Sdfg, Width};
use sd_json::{InputError, array_line, read_arrays};
use sd_list::{NoMemory, Sequence};
use sd_range::{Affine, Terms};
use std::alloc::Global;

/// An array with so many elements.
fn array_of(alloc: Global, count: u64) -> Result<Container, NoMemory> {
    let extent = Affine {
        constant: i128::from(count),
        terms: Terms::new(alloc),
    };
    Ok(Container {
        extents: Sequence::from(vec![in alloc; extent]?),
        kind: ContainerKind::Argument,
        width: Width::W64,
    })
}

/// A graph with one argument, an array with so many elements.
fn graph_of(alloc: Global, count: u64) -> Result<Bound, NoMemory> {
    let mut containers = IndexMap::new(alloc);
    containers.insert("A".to_string(alloc)?, array_of(alloc, count)?)?;
    Ok(Bound {
        graph: Sdfg {
            name: String::new(alloc),
            containers,
            arguments: 1,
            variables: Vec::new(alloc),
            symbols: 0,
            states: Vec::new(alloc),
        },
    })
}

/// The line of the array of a file.
fn line_of_file(alloc: Global, bytes: Vec<u8>, count: u64) -> Result<String, InputError> {
    let bound = graph_of(alloc, count)?;
    let given = read_arrays(alloc, &bytes, &bound.graph)?;
    drop(bytes);
    let memory = given.into_memory(alloc, &bound)?;
    Ok(array_line(alloc, &bound, &memory, 0)?)
}

/// Only reads the array of a file.
fn read_file(alloc: Global, bytes: &[u8], count: u64) -> Result<(), InputError> {
    let bound = graph_of(alloc, count)?;
    drop(read_arrays(alloc, bytes, &bound.graph)?);
    Ok(())
}

/// An arrays file is read.
pub(crate) fn read(alloc: Global, bytes: &[u8], count: u64) -> Result<String, NoMemory> {
    Ok(match read_file(alloc, bytes, count) {
        Ok(()) => "read\n".to_string(alloc)?,
        Err(error) => format!(in alloc; "{error}\n")?,
    })
}

/// An arrays file is read, and its array printed.
pub(crate) fn printed(alloc: Global, bytes: Vec<u8>, count: u64) -> Result<String, NoMemory> {
    match line_of_file(alloc, bytes, count) {
        Ok(line) => Ok(line),
        Err(error) => Ok(format!(in alloc; "{error}\n")?),
    }
}

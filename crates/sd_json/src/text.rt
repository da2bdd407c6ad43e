ghost use Rattle.std.specs.Prelude.{◌≡◌, ◌++◌, map, unsigned_abs, string_bytes, IfOk, OnOk};
ghost use Rattle.sd_work.specs.Memory.{elements_of};
ghost use Rattle.sd_graph.specs.TreeFold.{graph_tree};
ghost use Rattle.sd_mem.specs.mem.Cells.{array_lent};
ghost use Rattle.sd_json.specs.AnswerText.{cells_text, extents_text};
ghost use Rattle.sd_json.specs.AnswerText as definition;

use crate::fitting::extent_value;
use sd_graph::Bound;
use sd_list::NoMemory;
use sd_mem::{Elements, Memory};
use sd_num::Cell;
use sd_range::Affine;
use std::alloc::Global;

/// Adds extents, which are constants, joined by commas.
fn push_extents(line: &mut String, extents: &[Affine]) -> Result<(), NoMemory>
    ensures { OnOk result (string_bytes line.new ≡ string_bytes line.old ++ extents_text (map (λ extent. unsigned_abs extent.constant) extents.now)) }
{
    let Some((extent, others)) = extents.split_first() else {
        return Ok(());
    };
    write!(line, "{}", extent_value(extent))?;
    for other in others {
        write!(line, ",{}", extent_value(other))?;
    }
    Ok(())
}

/// Adds the elements of cells, each after a space.
fn push_cells<T: Cell>(line: &mut String, cells: &[T]) -> Result<(), NoMemory>
    ensures { OnOk result (string_bytes line.new ≡ string_bytes line.old ++ cells_text T.element cells.now) }
{
    let mut buffer = itoa::Buffer::new();
    for cell in cells {
        line.push_str(" ")?;
        line.push_str(buffer.format(cell.value()))?;
    }
    Ok(())
}

/// Adds elements of either width, each after a space.
fn push_elements(line: &mut String, elements: Elements) -> Result<(), NoMemory>
    ensures { OnOk result (string_bytes line.new ≡ string_bytes line.old ++ definition.elements_text (elements_of (array_lent elements.entry))) }
{
    match elements {
        Elements::W32(cells) => push_cells(line, cells),
        Elements::W64(cells) => push_cells(line, cells),
    }
}

/// How the line of an array begins, up to its elements.
fn head_of(alloc: Global, name: &str, extents: &[Affine]) -> Result<String, NoMemory>
    ensures { IfOk result (λ head. string_bytes head ≡ definition.head_of name.now (map (λ extent. unsigned_abs extent.constant) extents.now)) }
{
    let mut head = String::new(alloc);
    head.push_str(name)?;
    head.push_str("[")?;
    push_extents(&mut head, extents)?;
    head.push_str("] =")?;
    Ok(head)
}

/// How the line of a container begins, up to its elements: its name, and its extents in brackets. A container that
/// is not there has neither.
pub fn line_head(alloc: Global, bound: &Bound, container: u32) -> Result<String, NoMemory>
    ensures { IfOk result (λ head. string_bytes head ≡ definition.container_head (graph_tree bound.now.graph) container) }
{
    match bound.graph.containers.get_index(container as usize) {
        Some((name, array)) => head_of(alloc, name.as_str(), array.extents.as_slice()),
        None => head_of(alloc, "", &[]),
    }
}

/// The elements of cells as they stand in a line, each after a space.
pub fn elements_text<T: Cell>(alloc: Global, cells: &[T]) -> Result<String, NoMemory>
    ensures { IfOk result (λ text. string_bytes text ≡ cells_text T.element cells.now) }
{
    let mut text = String::new(alloc);
    push_cells(&mut text, cells)?;
    Ok(text)
}

/// The line of one container of a memory: its name, its extents in brackets, and its elements in
/// row order, with the newline at its end. A stream has no elements; a container that is not there has no
/// name and no extents either.
pub fn array_line(
    alloc: Global,
    bound: &Bound,
    memory: &Memory,
    container: u32,
) -> Result<String, NoMemory>
    ensures { IfOk result (λ line. string_bytes line ≡ definition.container_line (graph_tree bound.now.graph) memory.now container) }
{
    let mut line = line_head(alloc, bound, container)?;
    push_elements(&mut line, memory.cells(container))?;
    line.push_str("\n")?;
    Ok(line)
}

/// A line for each argument of a graph, in the order of the signature, as `array_line` gives them.
pub fn arrays_text(alloc: Global, bound: &Bound, memory: &Memory) -> Result<String, NoMemory>
    ensures { IfOk result (λ text. string_bytes text ≡ definition.text_of_arrays (graph_tree bound.now.graph) memory.now) }
{
    let mut text = String::new(alloc);
    for argument in 0..bound.graph.arguments {
        let line = array_line(alloc, bound, memory, argument)?;
        text.push_str(line.as_str())?;
    }
    Ok(text)
}

//! A map cut into tiles.
ghost use Rattle.std.specs.Prelude.{◌≡◌, pos, ◌*ℤ◌, map, string_bytes, IfOk, OnOk};
ghost use Rattle.sd_graph.specs.TreeFold.{item_trees, kind_tree};
ghost use Rattle.sd_alike.specs.alike.Places as places;
ghost use Rattle.sd_alike.specs.alike.Tiles as ranges;
ghost use Rattle.sd_exchange.specs.maps.OrderRewrites as specs;
ghost use Rattle.sd_exchange.specs.tiles.Tiled as definition;

use crate::copies;
use crate::maps::{keep, map_of};
use crate::rebuilt::Replace;
use sd_graph::{Item, ItemKind};
use sd_list::NoMemory;
use sd_range::{Affine, Range};
use std::alloc::Global;

/// A map over the tiles, which have these sizes, round a map over the values of a tile. The tiles have further variables
/// with these names.
#[derive(Clone, Copy)]
pub(crate) struct Tiling<'a> {
    pub(crate) sizes: &'a [u64],
    pub(crate) names: &'a [String],
}

/// A number times a step; want of memory where it does not fit.
fn times(step: i128, number: u64) -> Result<i128, NoMemory>
    ensures { IfOk result (λ product. product ≡ step *ℤ pos number) }
{
    step.checked_mul(i128::from(number)).ok_or(NoMemory)
}

/// The begins of the tiles of a range.
fn range_of_tiles(alloc: Global, size: u64, range: &Range) -> Result<Range, NoMemory>
    ensures { IfOk result (λ tiles. tiles ≡ ranges.range_of_tiles size range.now) }
{
    let mut tiles = range.copy_of(alloc)?;
    tiles.step = times(range.step, size)?;
    Ok(tiles)
}

/// A variable and a number.
fn variable_plus(alloc: Global, variable: u32, number: i128) -> Result<Affine, NoMemory>
    ensures { IfOk result (λ sum. sum ≡ ranges.variable_plus variable number) }
{
    let mut sum = Affine::variable(alloc, variable)?;
    sum.constant = number;
    Ok(sum)
}

/// The values of a range in the tile that begins at the value of a variable: so many, as far as the range goes.
fn range_in_tile(alloc: Global, size: u64, variable: u32, range: &Range) -> Result<Range, NoMemory>
    ensures { IfOk result (λ within. within ≡ ranges.range_in_tile size variable range.now) }
{
    let mut within = range.copy_of(alloc)?;
    within.begin = variable_plus(alloc, variable, 0)?;
    let last = times(range.step, size.saturating_sub(1))?;
    within.ends.push(variable_plus(alloc, variable, last)?)?;
    Ok(within)
}

/// The tiles of parameters: for each a further variable, from this one on, that takes the begins of its tiles.
fn tile_params(
    alloc: Global,
    sizes: &[u64],
    first: u32,
    params: &[(u32, Range)],
) -> Result<Vec<(u32, Range)>, NoMemory>
    ensures { IfOk result (λ tiles. tiles.items ≡ definition.tile_params sizes.now first params.now) }
{
    let mut tiles = Vec::with_capacity(alloc, params.len())?;
    let mut variable = first;
    for (size, (_, range)) in sizes.iter().zip(params) {
        tiles.push((variable, range_of_tiles(alloc, *size, range)?))?;
        variable = variable.checked_add(1).ok_or(NoMemory)?;
    }
    Ok(tiles)
}

/// The parameters in a tile.
fn params_in_tile(
    alloc: Global,
    sizes: &[u64],
    first: u32,
    params: &[(u32, Range)],
) -> Result<Vec<(u32, Range)>, NoMemory>
    ensures { IfOk result (λ within. within.items ≡ definition.params_in_tile sizes.now first params.now) }
{
    let mut within = Vec::with_capacity(alloc, params.len())?;
    let mut variable = first;
    for (size, (number, range)) in sizes.iter().zip(params) {
        let range = range_in_tile(alloc, *size, variable, range)?;
        within.push((*number, range))?;
        variable = variable.checked_add(1).ok_or(NoMemory)?;
    }
    Ok(within)
}

impl Replace for Tiling<'_> {
    ghost replacing = { λ tiling. specs.tiled_by tiling.sizes.now };

    ghost further = { λ tiling. map string_bytes tiling.names.now };

    fn names(&self) -> &[String] {
        self.names
    }

    fn put(
        &self,
        alloc: Global,
        variables: u32,
        line: u32,
        kind: &ItemKind,
        items: &mut Vec<Item>,
    ) -> Result<(), NoMemory> {
        let ItemKind::Map {
            params,
            private,
            body,
            sequential,
        } = kind
        else {
            return keep(alloc, line, kind, items);
        };
        let tiles = tile_params(alloc, self.sizes, variables, params)?;
        let within = params_in_tile(alloc, self.sizes, variables, params)?;
        let body = copies::items(alloc, body)?;
        let inner = map_of(alloc, *sequential, within, private, body)?;
        let alone = copies::sole(alloc, line, inner)?;
        let kind = map_of(alloc, *sequential, tiles, &[], alone)?;
        items.push(Item { line, kind })?;
        Ok(())
    }
}

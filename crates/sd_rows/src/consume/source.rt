//! Where the inputs of an element come from.
ghost use Rattle.std.specs.Prelude.{◌≡◌, ◌∷◌, [], ◌<◌, ◌^◌, length, map, IfOk};
ghost use Rattle.std.specs.Option.{MatchOption};
ghost use Rattle.std.specs.Bool.{⊤};
ghost use Rattle.std.specs.List.{AllByRecursion, AllZip};
ghost use Rattle.sd_tcode.specs.tcode.Compiled.{Compiled};
ghost use Rattle.sd_tcode.specs.tcode.Held.{IsReady, given};
ghost use Rattle.sd_rows.specs.consume.Own.{IsSource, seen_from};

use sd_list::NoMemory;
use sd_mem::{Address, Machine};
use sd_row::Track;
use sd_tcode::Frame;
use std::alloc::Global;

/// Where an input of an element comes from.
#[derive(Clone, Copy)]
pub(crate) enum Source {
    /// The value that was taken, as the element shows it.
    Own,
    /// An element of a memory further out.
    Outside(Address),
}

/// That of an input which leads here; `None` where it is another element of the innermost memory.
fn source_of(track: &Track, element: u32) -> Option<Source>
    ensures { MatchOption result ⊤ (IsSource element track.now) }
{
    let cell = track.cell(0);
    if cell.station.level > 0 {
        return Some(Source::Outside(cell));
    }
    if cell.station.container == element && cell.element == 0 {
        return Some(Source::Own);
    }
    None
}

/// Those of inputs which lead here; `None` where one is another element of the innermost memory.
pub(crate) fn sources_of(
    alloc: Global,
    reads: &[Track],
    element: u32,
) -> Result<Option<Vec<Source>>, NoMemory>
    ensures { IfOk result (λ sources. MatchOption sources ⊤ (λ sources. AllZip (IsSource element) reads.now sources.items)) }
{
    let mut sources = Vec::with_capacity(alloc, reads.len())?;
    for track in reads {
        let Some(source) = source_of(track, element) else {
            return Ok(None);
        };
        sources.push(source)?;
    }
    Ok(Some(sources))
}

/// What an input sees, for an element that shows this value.
#[inline(always)]
fn seen(source: &Source, value: i64, machine: &Machine) -> i64
    ensures { result ≡ seen_from value machine.now.memories source.now }
{
    match source {
        Source::Own => value,
        Source::Outside(cell) => machine.look(*cell),
    }
}

/// Gives code with scalar inputs what they see, for an element that shows this value.
#[inline(always)]
pub(crate) fn load_element(frame: &mut Frame, sources: &[Source], value: i64, machine: &Machine)
    requires singles { AllByRecursion (λ values. length values ≡ 1) (given frame.old).values }
    requires reads { length (given frame.old).values ≡ length sources.now }
    requires few { length sources.now < 2 ^ 32 }
    ensures given { given frame.new ≡ record (given frame.old) { values = map (λ source. seen_from value machine.now.memories source ∷ []) sources.now } }
    ensures ready { (code : Compiled) → IsReady code frame.old → IsReady code frame.new }
{
    for number in 0..sources.len() {
        frame.load(number as u32, 0, seen(&sources[number], value, machine));
    }
}

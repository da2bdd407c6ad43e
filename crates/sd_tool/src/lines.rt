//! The lines of refusals.
ghost use Rattle.std.specs.Prelude.{◌≡◌, ◌++◌, IfOk, codes, string_bytes};
ghost use Rattle.sd_graph.specs.TreeFold.{graph_tree};
ghost use Rattle.sd_race.specs.checking.Found.{race_of};
ghost use Rattle.sd_race.specs.text.RaceText as races;
ghost use Rattle.sd_report.specs.write.RunText.{line};
ghost use Rattle.sd_tool.specs.AnswerText.{source_text, arrays_text, chain_text, condition_text, picks_text};

use crate::ending::ArraysRefusal;
use sd_graph::Bound;
use sd_list::NoMemory;
use sd_parse::Refusal;
use sd_race::{Race, race_text};
use std::alloc::Global;

/// That of words that are no call.
pub(crate) fn bad_words(alloc: Global) -> Result<String, NoMemory>
    ensures { IfOk result (λ text. string_bytes text ≡ line (codes "bad words")) }
{
    let mut text = String::new(alloc);
    writeln!(text, "bad words")?;
    Ok(text)
}

/// That of a source with an error.
pub(crate) fn source(alloc: Global, refusal: &Refusal) -> Result<String, NoMemory>
    ensures { IfOk result (λ text. string_bytes text ≡ source_text refusal.now) }
{
    let Refusal { number, line } = refusal;
    let mut text = String::new(alloc);
    writeln!(text, "source error {number} at line {line}")?;
    Ok(text)
}

/// That of an arrays file, sizes or shapes that are refused.
pub(crate) fn arrays(alloc: Global, refusal: &ArraysRefusal) -> Result<String, NoMemory>
    ensures { IfOk result (λ text. string_bytes text ≡ arrays_text refusal.now) }
{
    let number = refusal.number;
    let mut text = String::new(alloc);
    match &refusal.name {
        None => writeln!(text, "arrays error {number}")?,
        Some(name) => writeln!(text, "arrays error {number} {}", name.as_str())?,
    }
    Ok(text)
}

/// That of a line of a chain that is no form.
pub(crate) fn chain(alloc: Global, number: u32) -> Result<String, NoMemory>
    ensures { IfOk result (λ text. string_bytes text ≡ chain_text number) }
{
    let mut text = String::new(alloc);
    writeln!(text, "chain refused at line {number}")?;
    Ok(text)
}

/// That of a line of a chain whose step may not be done.
pub(crate) fn condition(alloc: Global, number: u32, condition: u8) -> Result<String, NoMemory>
    ensures { IfOk result (λ text. string_bytes text ≡ condition_text number condition) }
{
    let mut text = String::new(alloc);
    writeln!(text, "chain refused at line {number} condition {condition}")?;
    Ok(text)
}

/// That of a word that is no pick.
pub(crate) fn picks(alloc: Global, word: u64) -> Result<String, NoMemory>
    ensures { IfOk result (λ text. string_bytes text ≡ picks_text word) }
{
    let mut text = String::new(alloc);
    writeln!(text, "picks refused at word {word}")?;
    Ok(text)
}

/// That of a race of a graph.
pub(crate) fn race(alloc: Global, bound: &Bound, race: &Race) -> Result<String, NoMemory>
    ensures { IfOk result (λ text. string_bytes text ≡ line (races.race_text (graph_tree bound.now.graph) (race_of race.now))) }
{
    let mut text = race_text(alloc, bound, race)?;
    text.push_str("\n")?;
    Ok(text)
}

/// That of a file that cannot be read.
pub(crate) fn read_fault(alloc: Global, name: &str) -> Result<String, NoMemory>
    ensures { IfOk result (λ text. string_bytes text ≡ line (codes "read fault " ++ name.now)) }
{
    let mut text = String::new(alloc);
    writeln!(text, "read fault {name}")?;
    Ok(text)
}

/// That of a file that is longer than its limit.
pub(crate) fn too_long(alloc: Global, name: &str) -> Result<String, NoMemory>
    ensures { IfOk result (λ text. string_bytes text ≡ line (codes "too long " ++ name.now)) }
{
    let mut text = String::new(alloc);
    writeln!(text, "too long {name}")?;
    Ok(text)
}

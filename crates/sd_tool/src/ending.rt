ghost use Rattle.std.specs.Prelude.{◌≡◌, [], IfOk, string_bytes};
ghost use Rattle.std.specs.Option.{option_map_or};
ghost use Rattle.sd_tool.specs.declared.ending.Ending.TheVariants.{Memory};
ghost use Rattle.sd_tool.specs.Answer.{status_of, text_of};
ghost use Rattle.sd_tool.specs.Ending.{answer_of, source_ending, input_ending, binding_ending, chain_ending, picks_ending};

use crate::lines;
use sd_chain::{ChainError, PicksError};
use sd_graph::Bound;
use sd_json::InputError;
use sd_list::{NoMemory, Text};
use sd_parse::{Refusal, SourceError};
use sd_race::Race;
use sd_valid::BindError;
use std::alloc::Global;

/// The number of an error of the arrays, with the name that is told.
#[derive(Drop)]
pub(crate) struct ArraysRefusal {
    pub(crate) number: u8,
    pub(crate) name: Option<Text>,
}

/// How a call ends that has nothing to report.
#[derive(Drop)]
pub(crate) enum Ending<'a> {
    /// There is no memory.
    Memory,
    /// The words are not those of a command.
    BadWords,
    /// The source has an error.
    Source(Refusal),
    /// The arrays file is refused, or its sizes or its shapes.
    Arrays(ArraysRefusal),
    /// The line of this number is the first in the chain file that is no form, or has a step too many.
    Chain(u32),
    /// The step of the line of this number may not be done: the condition of this number is the lowest that fails.
    Condition(u32, u8),
    /// The word of this number is the first in the picks file that is no pick.
    Picks(u64),
    /// The race check refuses the graph, for this race of it.
    Race(Bound, Race),
    /// A file cannot be read.
    ReadFault(&'a str),
    /// A file is longer than its limit.
    TooLong(&'a str),
}

impl From<NoMemory> for Ending<'_> {
    ghost from_gives = { λ _ ending. ending ≡ Memory };

    fn from(_error: NoMemory) -> Self {
        Ending::Memory
    }
}

impl From<SourceError> for Ending<'_> {
    ghost from_gives = { λ error ending. ending ≡ source_ending error };

    fn from(error: SourceError) -> Self {
        match error {
            SourceError::At { number, line } => Ending::Source(Refusal { number, line }),
            SourceError::Memory => Ending::Memory,
        }
    }
}

impl From<InputError> for Ending<'_> {
    ghost from_gives = { λ error ending. ending ≡ input_ending error };

    fn from(error: InputError) -> Self {
        match error {
            InputError::NotJson => refused(14, None),
            InputError::NotANumber(name) => refused(15, Some(name)),
            InputError::Ragged(name) => refused(16, Some(name)),
            InputError::Missing(name) => refused(17, Some(name)),
            InputError::Extra(name) => refused(18, Some(name)),
            InputError::WrongShape(name) => refused(19, Some(name)),
            InputError::Memory => Ending::Memory,
        }
    }
}

impl From<BindError> for Ending<'_> {
    ghost from_gives = { λ error ending. ending ≡ binding_ending error };

    fn from(error: BindError) -> Self {
        match error {
            BindError::MissingSize(name) => refused(11, Some(name)),
            BindError::BadSize(name) => refused(12, Some(name)),
            BindError::OverLimit(name) => refused(13, Some(name)),
            BindError::Memory => Ending::Memory,
        }
    }
}

impl From<ChainError> for Ending<'_> {
    ghost from_gives = { λ error ending. ending ≡ chain_ending error };

    fn from(error: ChainError) -> Self {
        match error {
            ChainError::NoForm(line) => Ending::Chain(line),
            ChainError::Condition(line, condition) => Ending::Condition(line, condition),
            ChainError::Memory => Ending::Memory,
        }
    }
}

impl From<PicksError> for Ending<'_> {
    ghost from_gives = { λ error ending. ending ≡ picks_ending error };

    fn from(error: PicksError) -> Self {
        match error {
            PicksError::NoForm(word) => Ending::Picks(word),
            PicksError::Memory => Ending::Memory,
        }
    }
}

/// Arrays that are refused with this number and this name.
fn refused<'a>(number: u8, name: Option<Text>) -> Ending<'a>
    ensures { result ≡ Ending.Arrays (record { number = number; name = name }) }
{
    Ending::Arrays(ArraysRefusal { number, name })
}

impl Ending<'_> {
    pub(crate) fn status(&self) -> u8
        ensures { result ≡ option_map_or status_of (answer_of self.now) 1 }
    {
        match self {
            Ending::Memory => 1,
            Ending::BadWords => 2,
            Ending::Source(_) => 3,
            Ending::Arrays(_) => 4,
            Ending::Chain(_) | Ending::Condition(..) | Ending::Picks(_) => 5,
            Ending::Race(..) => 6,
            Ending::ReadFault(_) => 9,
            Ending::TooLong(_) => 11,
        }
    }

    /// The line that is written; it is empty for want of memory.
    pub(crate) fn line(&self, alloc: Global) -> Result<String, NoMemory>
        ensures { IfOk result (λ line. string_bytes line ≡ option_map_or text_of (answer_of self.now) []) }
    {
        match self {
            Ending::Memory => Ok(String::new(alloc)),
            Ending::BadWords => lines::bad_words(alloc),
            Ending::Source(refusal) => lines::source(alloc, refusal),
            Ending::Arrays(refusal) => lines::arrays(alloc, refusal),
            Ending::Chain(number) => lines::chain(alloc, *number),
            Ending::Condition(number, condition) => lines::condition(alloc, *number, *condition),
            Ending::Picks(word) => lines::picks(alloc, *word),
            Ending::Race(bound, race) => lines::race(alloc, bound, race),
            Ending::ReadFault(name) => lines::read_fault(alloc, name),
            Ending::TooLong(name) => lines::too_long(alloc, name),
        }
    }
}

//! A source is read to its program, or refused.
ghost use Rattle.std.specs.Prelude.{◌≡◌, ◌≤◌, ◌^◌, Ok, Err, length, IfOk, IfErr, IfSome};
ghost use Rattle.sd_lex.specs.TreeFold.{program_of};
ghost use Rattle.sd_read.specs.readable.Levels.{HasFewLevels};
ghost use Rattle.sd_parse.specs.ErrorNumber as errors;
ghost use Rattle.sd_program.specs.Place.{EveryPlace};
ghost use Rattle.sd_program.specs.WellFormed.{IsWellFormed};
ghost use Rattle.sd_source.specs.source.SourceReading as definition;
ghost use Rattle.sd_read.specs.told.Told.{IsErrorNumber, IsLineOf};

use crate::error::SourceError;
use sd_context::Refusal;
use sd_lex::Program;
use sd_list::NoMemory;
use sd_source::read_text;
use std::alloc::Global;

/// The program that a source of at most 2^20 bytes is, or the number and the line of its error: the first
/// that keeps it from being cut into tokens, else the first line that is refused, with the least
/// number that stands against it.
pub fn parse(alloc: Global, text: &[u8]) -> Result<Program, SourceError>
    requires { length text.now ≤ 2 ^ 20 }
    ensures ok { IfOk result (λ program. definition.reads text.now ≡ Ok (program_of program)) }
    ensures well_formed { IfOk result (λ program. IsWellFormed (program_of program)) }
    ensures levels { IfOk result (λ program. EveryPlace HasFewLevels (program_of program)) }
    ensures err { IfErr result (λ error. IfSome (errors.refusal_of error) (λ refusal. definition.reads text.now ≡ Err refusal)) }
    ensures number { IfErr result (λ error. IfSome (errors.number_of error) IsErrorNumber) }
    ensures line { IfErr result (λ error. IfSome (errors.line_of error) (IsLineOf text.now)) }
{
    match read_text(alloc, text) {
        Ok(Ok(program)) => Ok(program),
        Ok(Err(Refusal { number, line })) => Err(SourceError::At { number, line }),
        Err(NoMemory) => Err(SourceError::Memory),
    }
}

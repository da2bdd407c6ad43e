ghost use Rattle.std.specs.Prelude.{◌≡◌, ◌≤◌, ◌^◌, Ok, length, IfOk, IfErr};
ghost use Rattle.sd_chain.specs.Chain.{chain_reading, IsNoForm};

use crate::error::ChainError;
use crate::line::{Line, read_line};
use crate::parts::first_part;
use crate::step::Chain;
use sd_list::Sequence;
use std::alloc::Global;

/// The most steps of a chain.
const MOST_STEPS: usize = 256;

/// The steps of a chain file of at most 2^16 bytes: a rewrite and its arguments on each line, in the order in which they
/// are done, at most 256 of them. Lines of spaces alone and lines that begin with `#` are no steps, but are counted.
#[tactic(auto, using(crate::proofs::Lines::line_steps))]
pub fn read_chain(alloc: Global, text: &[u8]) -> Result<Chain, ChainError>
    requires { length text.now ≤ 2 ^ 16 }
    ensures ok { IfOk result (λ chain. chain_reading text.now ≡ Ok chain.steps) }
    ensures err { IfErr result (λ error. IsNoForm (chain_reading text.now) error) }
{
    let mut steps = Sequence::new(alloc);
    let mut number = 1_u32;
    let mut rest = Some(text);
    while let Some(from) = rest {
        let (line, behind) = first_part(from, b'\n');
        match read_line(alloc, line)? {
            Line::Nothing => {}
            Line::NoForm => return Err(ChainError::NoForm(number)),
            Line::Does(step) => {
                if steps.len() == MOST_STEPS {
                    return Err(ChainError::NoForm(number));
                }
                steps.push((number, step))?;
            }
        }
        number += 1;
        rest = behind;
    }
    Ok(Chain { steps })
}

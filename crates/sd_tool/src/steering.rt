//! What steers a call: the graph that its chain makes of the source's, and its picks.
ghost use Rattle.std.specs.Prelude.{◌≡◌, ◌≤◌, ◌^◌, ℕ, List, Ok, length, option_map, IfOk, IfErr, IfSome};
ghost use Rattle.sd_graph.specs.TreeFold.{graph_tree};
ghost use Rattle.sd_race.specs.race.Pairs.{IsGraphAccepted};
ghost use Rattle.sd_steps.specs.Chained as chains;
ghost use Rattle.sd_words.specs.Command.{command_of, call_of};
ghost use Rattle.sd_tool.specs.Answers.{TellsRace};
ghost use Rattle.sd_tool.specs.Ending.{answer_of, Refuses};
ghost use Rattle.sd_tool.specs.Files.{picks_file, shelf_use};
ghost use Rattle.sd_tool.specs.Steering as definition;
ghost use Rattle.sd_tool.specs.Steering.{Steers, Unsteered};
ghost use Rattle.sd_tool.specs.Workspace.{work_of, made_of, graph_of};

use crate::ending::Ending;
use crate::files::named;
use crate::workspace::Workspace;
use sd_chain::{Chain, ChainError, read_chain, read_picks};
use sd_graph::Bound;
use sd_io::Shelf;
use sd_race::{RaceError, check};
use sd_steps::apply;
use sd_words::{Asked, Command};
use std::alloc::Global;

/// The most bytes of a chain file and of a picks file.
const CHAIN_LIMIT: usize = 1 << 16;

const PICKS_LIMIT: usize = 1 << 24;

/// The work of a call, with the graph that its chain made, where the chain has steps, and the picks that it goes by.
#[derive(Drop)]
pub(crate) struct Steered {
    pub(crate) work: Workspace,
    pub(crate) other: Option<Bound>,
    pub(crate) picks: Vec<u64>,
}

impl Steered {
    /// The graph that the call goes by: the one that its chain made, or else the source's own.
    fn graph(&self) -> &Bound
        ensures { graph_tree result.now.graph ≡ graph_of self.now }
    {
        match &self.other {
            Some(other) => other,
            None => &self.work.bound,
        }
    }

    /// The same graph alone. All else is let go.
    pub(crate) fn into_graph(self) -> Bound
        ensures { graph_tree result.graph ≡ graph_of self }
    {
        let Steered { work, other, .. } = self;
        match other {
            Some(other) => other,
            None => {
                let Workspace { bound, .. } = work;
                bound
            }
        }
    }
}

/// The graph that a chain makes of a graph. A chain without steps makes none, so that nothing is copied.
fn made(alloc: Global, bound: &Bound, chain: &Chain) -> Result<Option<Bound>, ChainError>
    ensures ok { IfOk result (λ other. chains.chained (graph_tree bound.now.graph) chain.now.steps ≡ Ok (made_of bound.now other)) }
    ensures err { IfErr result (chains.IsRefusal (chains.chained (graph_tree bound.now.graph) chain.now.steps)) }
{
    if chain.steps.is_empty() {
        return Ok(None);
    }
    Ok(Some(apply(alloc, bound, chain)?))
}

/// The work steered by these texts of a chain file and a picks file, or what is refused of them.
fn steered_by<'a>(
    alloc: Global,
    work: Workspace,
    chain: &[u8],
    picks: &[u8],
) -> Result<Steered, Ending<'a>>
    requires { length chain.now ≤ 2 ^ 16 }
    ensures same { IfOk result (λ kept. kept.work ≡ work) }
    ensures steers { IfOk result (λ kept. definition.steered (work_of work).tree chain.now picks.now ≡ Ok (graph_of kept, kept.picks.items)) }
    ensures refused { IfErr result (λ ending. Refuses (λ answer. answer) (definition.steered (work_of work).tree chain.now picks.now) (answer_of ending)) }
{
    let chain = read_chain(alloc, chain)?;
    let picks = read_picks(alloc, picks)?;
    let other = made(alloc, &work.bound, &chain)?;
    Ok(Steered { work, other, picks })
}

/// The name of the picks file of a command.
fn picks_name(command: Command<'_>) -> Option<&str>
    ensures { option_map (λ name. name.now) result ≡ picks_file (command_of command.entry) }
{
    match command {
        Command::Step(step) => Some(step.picks),
        _ => None,
    }
}

/// The work of a call, steered by its chain file and its picks file; or why it is not. Both files are read before one of them is refused.
pub(crate) fn steer<'a, S: Shelf>(
    alloc: Global,
    call: Asked<'a>,
    work: Workspace,
    shelf: &mut S,
) -> Result<Steered, Ending<'a>>
    ensures same { IfOk result (λ kept. kept.work ≡ work) }
    ensures steers { IfOk result (λ kept.
        Steers (shelf_use S.told S.faults S.overruns shelf.old shelf.new) (call_of call.entry) (work_of work).tree (graph_of kept) kept.picks.items) }
    ensures lacks { IfErr result (λ ending.
        IfSome (answer_of ending) (Unsteered (shelf_use S.told S.faults S.overruns shelf.old shelf.new) (call_of call.entry) (work_of work).tree)) }
    ensures told_stays { (other : List ℕ) → S.told shelf.new other ≡ S.told shelf.old other }
    ensures faults_never_fall { (other : List ℕ) → S.faults shelf.old other ≤ S.faults shelf.new other }
    ensures overruns_never_fall { (other : List ℕ) → S.overruns shelf.old other ≤ S.overruns shelf.new other }
{
    let chain = named(alloc, shelf, call.chain, CHAIN_LIMIT)?;
    let picks = named(alloc, shelf, picks_name(call.command), PICKS_LIMIT)?;
    steered_by(alloc, work, chain.as_slice(), picks.as_slice())
}

/// The same again where the race check accepts the graph that the call goes by, else its race. Then all else is let go.
pub(crate) fn accepted<'a>(alloc: Global, kept: Steered) -> Result<Steered, Ending<'a>>
    ensures same { IfOk result (λ after. after ≡ kept) }
    ensures accepted { IfOk result (λ after. IsGraphAccepted (graph_of after)) }
    ensures refused { IfErr result (λ ending. IfSome (answer_of ending) (TellsRace (graph_of kept))) }
{
    match check(alloc, kept.graph()) {
        Ok(()) => Ok(kept),
        Err(RaceError::At(race)) => Err(Ending::Race(kept.into_graph(), race)),
        Err(RaceError::Memory) => Err(Ending::Memory),
    }
}

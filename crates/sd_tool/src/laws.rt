ghost use Rattle.std.specs.Prelude.{◌≡◌, ℕ, List, Some, Ok};
ghost use Rattle.serde_json.specs.Data.{Members};
ghost use Rattle.sd_graph.specs.PlainTree.{GraphTree};
ghost use Rattle.sd_race.specs.race.Pairs.{IsGraphAccepted};
ghost use Rattle.sd_json.specs.ArraysReading.{entries_of};
ghost use Rattle.sd_tool.specs.Accepted.{IsRaceFree};
ghost use Rattle.sd_tool.specs.Work.{Work, prepared, work_of};

/// The race check accepts a graph exactly where each of its scopes is free of races, but sequential ones. The
/// numbers of nodes make no difference.
pub fn a_graph_is_accepted_exactly_where_it_is_free_of_races()
    ensures free { (tree : GraphTree) → IsGraphAccepted tree → IsRaceFree tree }
    ensures accepted { (tree : GraphTree) → IsRaceFree tree → IsGraphAccepted tree }
{}

/// A graph and an arrays file that fits it come to the graph with the sizes of the file's entries and to the memory
/// with its arrays.
pub fn what_fits_is_the_work_of_its_entries()
    ensures { (tree : GraphTree) (arrays : List ℕ) (entries : Members) (work : Work)
        → entries_of arrays ≡ Some entries → prepared tree arrays ≡ Ok work → work_of tree entries ≡ work }
{}

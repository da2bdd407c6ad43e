//! What the definitions mean, in words of their own: each law is a function that does nothing.

ghost use Rattle.std.specs.Prelude.{ℕ, ℤ, List};
ghost use Rattle.std.specs.List.{AllByRecursion};
ghost use Rattle.sd_work.specs.Touch.{Touch, Touches};
ghost use Rattle.sd_subset.specs.boxes.Box.{Parameter};
ghost use Rattle.sd_subset.specs.boxes.InForce.{AreInForce, IsNormalBox};
ghost use Rattle.sd_graph.specs.PlainTree.{KindTree};
ghost use Rattle.sd_graph.specs.ContainerParts.{Containers};
ghost use Rattle.sd_graph.specs.Context.{Reach, Context};
ghost use Rattle.sd_graph.specs.Unfold.{unfold_kind};
ghost use Rattle.sd_prop.specs.propagation.Accesses.{Access, kind_accesses};
ghost use Rattle.sd_prop.specs.propagation.Joined.{joined_accesses};
ghost use Rattle.sd_race.specs.cover.Fit.{IsFit};
ghost use Rattle.sd_race.specs.cover.Touched.{IsCovered};
ghost use Rattle.sd_race.specs.cover.Inside.{FindInside, AreTakesOfStreams};

/// What an item, unfolded, touches outside of its own containers is an element at an index of the box
/// of one of its accesses, in a mode that allows it, or the stream of one, whatever its nodes are.
pub fn what_is_touched_lies_in_the_boxes()
    ensures { (kind : KindTree) (around : List Parameter) (line : ℕ) (nodes : List ℕ) (context : Context) (touch : Touch)
        → IsFit kind around → AreInForce context.values around
        → Touches (unfold_kind kind line context) touch
        → IsCovered context.values context.reach (kind_accesses kind context.containers nodes) touch }
{}

/// What accesses in normal form cover is covered by one access for each container and mode, its box
/// the hull of theirs, where what is found of a container is inside its extents and what is taken
/// from has none.
pub fn joined_accesses_cover_what_their_accesses_do()
    ensures { (containers : Containers) (values : List ℤ) (reach : ℕ → Reach) (accesses : List Access) (touch : Touch)
        → FindInside containers reach → AreTakesOfStreams containers accesses
        → AllByRecursion (λ access. IsNormalBox access.box) accesses
        → IsCovered values reach accesses touch → IsCovered values reach (joined_accesses containers accesses) touch }
{}

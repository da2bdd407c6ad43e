ghost use Rattle.std.specs.Prelude.{◌≡◌, ◌↔◌, ℕ, ℤ, List, [], ◌∷◌, map, length, Option, Some, None, true, slice_index_or};
ghost use Rattle.std.specs.List.{All, Contains};
ghost use Rattle.sd_range.specs.Subset.{inside, elements};
ghost use Rattle.sd_work.specs.Memory.{Memories};
ghost use Rattle.sd_work.specs.Exit.{Values};
ghost use Rattle.sd_work.specs.Residual.{Term};
ghost use Rattle.sd_work.specs.BigStep.{big_step, reached};
ghost use Rattle.sd_pieces.specs.cut.Merged.{AreElementsOfWidth};
ghost use Rattle.sd_graph.specs.PlainTree.{GraphTree, KindTree};
ghost use Rattle.sd_graph.specs.ContainerParts.{Containers, container_at, extents_of};
ghost use Rattle.sd_graph.specs.Upwards.{KindLeadsUpwards};
ghost use Rattle.sd_graph.specs.Unfold.{opening_memory};
ghost use Rattle.sd_graph.specs.declared.place.Place.{Place};
ghost use Rattle.sd_subset.specs.boxes.Box.{Box, IsInBox};
ghost use Rattle.sd_windows.specs.MapPieces.{kind_piece};
ghost use Rattle.sd_prop.specs.propagation.Accesses.{Access, kind_accesses};
ghost use Rattle.sd_race.specs.cover.Fit.{IsFit};
ghost use Rattle.sd_cut.specs.declared.window.Window.{Window};
ghost use Rattle.sd_cut.specs.Windowed.{numbers_in, HaveDimensions, window_at};
ghost use Rattle.sd_cut.specs.Cells.{subset_within};
ghost use Rattle.sd_cut.specs.Elements.{AreOfWindows, IsEven, IsUntouched};
ghost use Rattle.sd_cut.specs.Fits.{marking_in, AreValuesOfWidth};
ghost use Rattle.sd_cut.specs.Overlaid.{Overlaid};
ghost use Rattle.sd_cut.specs.Marked.{AreAccessesMarked};
ghost use Rattle.sd_part.specs.declared.outline.Outline.{Outline};
ghost use Rattle.sd_part.specs.Outline.{IsOutline, piece_accesses};
ghost use Rattle.sd_part.specs.Boxes.{NumberBox, number_box, intervals_at, IsInIntervals};
ghost use Rattle.sd_part.specs.Hulls.{AreEven, AreWindowsFor};
ghost use Rattle.sd_part.specs.Cut.{AreArraysOf, AreOfStreams, HasShapeOf, IsCutFor, IsJustCut, IsMadeFor};
ghost use Rattle.sd_part.specs.Marks.{marking_by};
ghost use Rattle.sd_part.specs.Marking.{with_boxes, AreStreamsCut, IsFresh};
ghost use Rattle.sd_mem.specs.mem.Shaped.{Shaped, alone};

/// A run of a graph opens with elements of its containers' widths, whatever is given, and what work leaves behind are such elements again.
pub fn elements_are_of_their_widths()
    ensures opens { (tree : GraphTree) (given : List (List ℤ)) → AreElementsOfWidth (opening_memory tree given ∷ []) }
    ensures work { (term : Term Place) (most turns : ℕ) (memories after : Memories) (left : ℕ)
        → big_step term most memories turns ≡ reached after left → AreElementsOfWidth memories → AreElementsOfWidth after }
{}

/// The values that wait in streams are of their widths: so a run of a graph opens, and so work leaves them.
pub fn values_of_streams_are_of_their_widths()
    ensures opens { (tree : GraphTree) (given : List (List ℤ)) → AreValuesOfWidth (opening_memory tree given ∷ []) }
    ensures work { (term : Term Place) (most turns : ℕ) (memories after : Memories) (left : ℕ)
        → big_step term most memories turns ≡ reached after left → AreValuesOfWidth memories → AreValuesOfWidth after }
{}

/// A piece of an item fits where the item does, and its transitions lead upwards where the item's do.
pub fn a_piece_fits_where_its_item_does()
    ensures fits { (kind : KindTree) (values : Values) (first count : ℕ) → IsFit kind [] → IsFit (kind_piece values first count kind) [] }
    ensures leads { (kind : KindTree) (values : Values) (first count : ℕ) → KindLeadsUpwards kind → KindLeadsUpwards (kind_piece values first count kind) }
{}

/// The outline of an item has the accesses of each piece of it, by some numbers of nodes.
pub fn an_outline_has_the_accesses_of_each_piece()
    ensures { (containers : Containers) (kind : KindTree) (outline : Outline) (values : Values) (first count : ℕ) → IsOutline containers kind outline
        → (nodes : List ℕ) × (piece_accesses values first count outline ≡ kind_accesses (kind_piece values first count kind) containers nodes) }
{}

/// A box in numbers has the indices of its box that are inside the container, and no others, where it has the container's dimensions.
pub fn a_box_in_numbers_has_the_indices_of_its_box()
    ensures { (values : Values) (extents : List ℕ) (box : Box) (index : List ℤ) → length box ≡ length extents
        → IsInIntervals (intervals_at values extents box) index ↔ ((inside extents index ≡ true) × IsInBox values box index) }
{}

/// Boxes in numbers mark all that their accesses may touch, and the windows over them have it. The windows have as many shifts as extents,
/// have the dimensions of their containers, and lie inside them.
pub fn boxes_mark_what_accesses_may_touch()
    ensures marked { (containers : Containers) (values : Values) (accesses : List Access) (windows : List (Option Window))
        → AreWindowsFor (map (number_box containers values) accesses) windows
        → AreAccessesMarked containers values (numbers_in containers windows) (marking_by (numbers_in containers windows) (map (number_box containers values) accesses)) accesses }
    ensures even { (boxes : List NumberBox) (windows : List (Option Window)) → AreWindowsFor boxes windows → (container : ℕ) → IsEven (window_at windows container) }
    ensures shaped { (containers : Containers) (values : Values) (accesses : List Access) (windows : List (Option Window))
        → AreWindowsFor (map (number_box containers values) accesses) windows → HaveDimensions containers windows }
    ensures inside { (containers : Containers) (values : Values) (accesses : List Access) (windows : List (Option Window)) (container : ℕ) (window : Window) (index : List ℤ)
        → AreWindowsFor (map (number_box containers values) accesses) windows → slice_index_or windows container None ≡ Some window
        → Contains (elements (subset_within window.shift window.extents) []) index → inside (extents_of (container_at containers container)) index ≡ true }
{}

/// A cut of a memory that boxes mark is marked as their accesses ask, where nothing has touched it before and the streams of the boxes were cut;
/// and what was cut is such a cut.
pub fn a_marked_cut_is_marked_as_accesses_ask()
    ensures marked { (containers : Containers) (values : Values) (accesses : List Access) (windows : List (Option Window)) (cut : Overlaid)
        → AreWindowsFor (map (number_box containers values) accesses) windows → IsFresh windows cut
        → AreStreamsCut (map (number_box containers values) accesses) cut
        → AreAccessesMarked containers values (numbers_in containers windows) (marking_in (numbers_in containers windows) (with_boxes (map (number_box containers values) accesses) cut)) accesses }
    ensures fresh { (memory : Shaped) (windows : List (Option Window)) (cut : Overlaid)
        → ((container : ℕ) → IsEven (window_at windows container)) → ((container : ℕ) → All IsUntouched (slice_index_or cut.arrays container []))
        → AreOfWindows memory (window_at windows) cut.arrays → IsFresh windows cut }
{}

/// What was just cut of a memory, as `Overlay::cut` tells it, may be lent for the boxes of its windows and streams. It was made for each memory
/// of the same shape.
pub fn what_is_just_cut_may_be_lent()
    ensures holds { (boxes : List NumberBox) (memory : Shaped) (cut : Overlaid)
        → IsJustCut boxes memory cut → AreEven boxes → AreOfStreams boxes memory cut → AreValuesOfWidth (alone memory) → IsCutFor boxes cut }
    ensures fits { (boxes : List NumberBox) (containers : Containers) (memory over : Shaped) (cut : Overlaid)
        → IsJustCut boxes memory cut → HaveDimensions containers cut.windows → AreArraysOf containers memory cut → HasShapeOf over memory
        → AreElementsOfWidth (alone over) → AreValuesOfWidth (alone over) → IsMadeFor cut containers over }
{}

ghost use Rattle.std.specs.Prelude.{◌≡◌, ◌≤◌, ℕ, ℤ, List, [], map, length, Option, Some, option_map, slice_index_or, ◌<◌, None};
ghost use Rattle.std.specs.List.{All};
ghost use Rattle.sd_cut.specs.Cutting.{all_begun, begun_contents, is_wanted, IsCutOf};
ghost use Rattle.sd_range.specs.Subset.{elements};
ghost use Rattle.sd_work.specs.Memory.{Memories, array, elements_of};
ghost use Rattle.sd_work.specs.Change.{changed_at};
ghost use Rattle.sd_work.specs.Exit.{Values};
ghost use Rattle.sd_work.specs.BigStep.{big_step};
ghost use Rattle.sd_pieces.specs.course.Reading.{reads_element, AgreeAt};
ghost use Rattle.sd_pieces.specs.cut.Naming.{Naming, IsOneToOne, AreContentsNamed, AreMemoriesNamed};
ghost use Rattle.sd_pieces.specs.cut.Merged.{Marking, outermost, IsPrepared, IsMerged, AreElementsOfWidth, MergesTo};
ghost use Rattle.sd_graph.specs.PlainTree.{GraphTree, KindTree};
ghost use Rattle.sd_graph.specs.TreeParts.{containers_of};
ghost use Rattle.sd_graph.specs.ContainerParts.{Containers, container_at, extents_of};
ghost use Rattle.sd_graph.specs.Context.{own_reach};
ghost use Rattle.sd_graph.specs.Unfold.{unfold_kind};
ghost use Rattle.sd_windows.specs.Windows as windows;
ghost use Rattle.sd_prop.specs.propagation.Accesses.{kind_accesses};
ghost use Rattle.sd_race.specs.cover.Fit.{IsFit};
ghost use Rattle.sd_mem.specs.mem.Shaped.{Shaped, alone, shape_at, contents_at, width_at, IsHere};
ghost use Rattle.sd_mem.specs.machine.Coming.{state_context};
ghost use Rattle.sd_cut.specs.declared.window.Window.{Window};
ghost use Rattle.sd_cut.specs.declared.elements.CutElement.{CutElement};
ghost use Rattle.sd_cut.specs.declared.elements.ElementMark.{ElementMark};
ghost use Rattle.sd_cut.specs.declared.elements.ElementMark.TheVariants.{Kept};
ghost use Rattle.sd_cut.specs.Cells.{subset_within, value_at};
ghost use Rattle.sd_cut.specs.Elements.{IsEven, IsUntouched, AreOfWindows, marked, cut_at, AreAllAsCut, AreNumbered, AreFound, marking_of, all_effects, all_changed};
ghost use Rattle.sd_cut.specs.Overlaid.{Overlaid};
ghost use Rattle.sd_cut.specs.Streams.{stream_becomes};
ghost use Rattle.sd_cut.specs.Using.{appended_at, committed, drained_at, gathered_at, kept_at, pushed_in, pushed_to, stream_at, taken_in, written_in, Agrees};
ghost use Rattle.sd_num.specs.declared.resolution.Resolution.{Resolution};
ghost use Rattle.sd_cut.specs.Fits.{marking_in, with_left, AreValuesOfWidth, Fits, IsReady, IsWhole};
ghost use Rattle.sd_pieces.specs.course.Reading.{stream_found};
ghost use Rattle.sd_cut.specs.Windowed.{window_at, reach_in, numbers_in, HaveDimensions};
ghost use Rattle.sd_cut.specs.Marked.{AreAccessesMarked};

/// The values of a window's elements, in row order and at the container's width, are the elements of the container by their numbers in the window.
pub fn a_window_has_its_elements()
    ensures { (memory : Shaped) (container : ℕ) (shift : List ℤ) (extents : List ℕ)
        → length shift ≡ length extents → length extents ≡ length (shape_at memory container) → IsHere memory container
        → AreContentsNamed (windows.numbers_in_window (shape_at memory container) (Some (record { shift = shift; extents = extents })))
        (contents_at memory container) (array (width_at memory container) (map (value_at memory container) (elements (subset_within shift extents) []))) }
{}

/// Over a cut, an item whose containers are reached through windows comes to what it comes to from another memory: where its accesses, in
/// their boxes, mark what they may touch, where the windows have that, and where the other memory has what the item may read.
pub fn an_item_over_windows_is_the_item()
    ensures { (tree : GraphTree) (state : ℕ) (values : Values) (kind : KindTree) (line : ℕ) (nodes : List ℕ)
        (windows : List (Option Window)) (marking : Marking) (memories cut others : Memories) (most turns : ℕ)
        → IsFit kind [] → HaveDimensions (containers_of tree) windows
        → AreAccessesMarked (containers_of tree) values (numbers_in (containers_of tree) windows) marking (kind_accesses kind (containers_of tree) nodes)
        → IsPrepared marking memories others → AreMemoriesNamed (numbers_in (containers_of tree) windows) 0 memories cut
        → MergesTo (numbers_in (containers_of tree) windows) marking others
        (big_step (unfold_kind kind line (state_context tree (reach_in (containers_of tree) windows) [] state values)) most cut turns)
        (big_step (unfold_kind kind line (state_context tree (own_reach (containers_of tree)) [] state values)) most others turns) }
{}

/// The elements of windows that were cut of a graph's memory have the windows' numbers; marks leave them these elements.
pub fn windows_number_what_is_cut()
    ensures numbers { (containers : Containers) (list : List (Option Window)) (memory : Shaped) (arrays : List (List CutElement))
        → ((container : ℕ) → IsEven (window_at list container))
        → ((container : ℕ) (window : windows.Window) → window_at list container ≡ Some window → shape_at memory container ≡ extents_of (container_at containers container))
        → AreOfWindows memory (window_at list) arrays → AreNumbered (numbers_in containers list) arrays }
    ensures marks { (memory : Shaped) (list : List (Option Window)) (arrays : List (List CutElement)) (container number : ℕ) (mark : ElementMark)
        → AreOfWindows memory (window_at list) arrays → AreOfWindows memory (window_at list) (changed_at container (changed_at number (marked mark)) arrays) }
{}

/// The elements that were cut stand in each memory of these shapes whose arrays are here, and what is left of them stands where there are as many.
pub fn what_is_cut_is_found()
    ensures { (list : List (Option Window)) (memory later left : Shaped) (arrays : List (List CutElement))
        → AreOfWindows memory (window_at list) arrays
        → ((container : ℕ) (window : windows.Window) → window_at list container ≡ Some window
        → (shape_at memory container ≡ shape_at later container) × IsHere later container × (width_at left container ≡ width_at later container))
        → ((container : ℕ) → length (slice_index_or arrays container []) ≤ length (elements_of (contents_at left container)))
        → AreFound arrays left later }
{}

/// Two memories in which the kept elements are as they were agree on each of these, where their containers have the same widths.
pub fn kept_elements_are_as_they_were()
    ensures { (arrays : List (List CutElement)) (memory other : Shaped) → AreAllAsCut memory 0 arrays → AreAllAsCut other 0 arrays
        → ((container : ℕ) → width_at memory container ≡ width_at other container)
        → (container number : ℕ) (cut : CutElement) → cut_at arrays container number ≡ Some cut → cut.mark ≡ Kept
        → AgreeAt (reads_element (outermost container cut.place)) (alone memory) (alone other) }
{}

/// A memory in which what was done on a cut is committed has in each stream that was cut what was there, without as many oldest values as were
/// taken of what was cut, and with what was pushed.
pub fn streams_are_committed()
    ensures { (cut : Overlaid) (memory : Shaped) (container : ℕ)
        → stream_found 0 container (alone (committed cut memory))
        ≡ option_map (stream_becomes (width_at memory container) (stream_at cut container) (pushed_to cut container)) (stream_found 0 container (alone memory)) }
{}

/// A cut agrees with each memory with which it agrees after a use: each use asks no less of the memory than was asked before.
pub fn a_use_asks_no_less()
    ensures kept { (cut : Overlaid) (memory : Shaped) (container number : ℕ) → Agrees (kept_at container number cut) memory → Agrees cut memory }
    ensures gathered { (cut : Overlaid) (memory : Shaped) (container number : ℕ) (by : Resolution)
        → Agrees (gathered_at container number by cut) memory → Agrees cut memory }
    ensures written { (cut : Overlaid) (memory : Shaped) (container number : ℕ) (by : Option Resolution) (value : ℤ)
        → Agrees (written_in container number by value cut) memory → Agrees cut memory }
    ensures pushed { (cut : Overlaid) (memory : Shaped) (container : ℕ) (value : ℤ) → Agrees (pushed_in container value cut) memory → Agrees cut memory }
    ensures taken { (cut : Overlaid) (memory : Shaped) (container : ℕ) → Agrees (taken_in container cut) memory → Agrees cut memory }
    ensures drained { (cut : Overlaid) (memory : Shaped) (container : ℕ) → Agrees (drained_at container cut) memory → Agrees cut memory }
    ensures appended { (cut : Overlaid) (memory : Shaped) (container : ℕ) → Agrees (appended_at container cut) memory → Agrees cut memory }
{}

/// What is just cut, as `Overlay::cut` tells it, is ready for work, and each container holds what it was cut with.
pub fn what_is_just_cut_is_ready()
    ensures ready { (memory : Shaped) (list : List (Option Window)) (numbers : List ℕ) (cut : Overlaid)
        → ((container : ℕ) → All IsUntouched (slice_index_or cut.arrays container [])) → length cut.streams ≡ length list
        → ((container : ℕ) → container < length list → IsCutOf memory container (is_wanted (slice_index_or list container None) numbers container) (slice_index_or cut.streams container None))
        → IsReady cut }
    ensures left { (memory : Shaped) (list : List (Option Window)) (cut : Overlaid) (container : ℕ)
        → cut.windows ≡ list → cut.left ≡ all_begun memory 0 cut.windows cut.arrays cut.streams (record { shapes = []; contents = [] }) → container < length list
        → contents_at cut.left container ≡ begun_contents memory container (window_at list container) (slice_index_or cut.arrays container []) (slice_index_or cut.streams container None) }
{}

/// What is left of a cut that is ready and agrees with a memory is what the windows have of a memory that is prepared for the one in which the cut
/// is committed: so the item may run on it.
pub fn a_ready_cut_is_prepared()
    ensures { (naming : Naming) (cut : Overlaid) (memory : Shaped)
        → Fits naming cut memory → IsWhole naming cut memory → IsReady cut → Agrees cut memory
        → AreElementsOfWidth (alone cut.left) → AreElementsOfWidth (alone memory) → AreValuesOfWidth (alone cut.left)
        → (memories : Memories) × IsPrepared (marking_in naming cut) memories (alone (committed cut memory)) × AreMemoriesNamed naming 0 memories (alone cut.left) }
{}

/// Where work ran on what was left of a cut that agrees with a memory, what it left, when that is committed, is merged into the memory in which
/// the cut before it is committed.
pub fn what_work_leaves_is_merged()
    ensures { (naming : Naming) (cut : Overlaid) (left memory : Shaped)
        → Fits naming cut memory → Fits naming (with_left left cut) memory → IsReady cut → Agrees cut memory
        → ((container : ℕ) → width_at left container ≡ width_at cut.left container)
        → AreElementsOfWidth (alone cut.left) → AreElementsOfWidth (alone left) → AreElementsOfWidth (alone memory) → AreValuesOfWidth (alone left)
        → IsMerged naming (marking_in naming cut) (alone left) (alone (committed cut memory)) (alone (committed (with_left left cut) memory)) }
{}

/// What is left of the elements that were cut, when it is performed, is merged into the memory.
pub fn what_is_left_is_merged()
    ensures { (naming : Naming) (arrays : List (List CutElement)) (left memory : Shaped)
        → AreNumbered naming arrays → IsOneToOne naming → AreFound arrays left memory → AreElementsOfWidth (alone left)
        → IsMerged naming (marking_of naming arrays) (alone left) (alone memory) (alone (all_changed (all_effects 0 left arrays) memory)) }
{}

//! Each law is a function that does nothing.
ghost use Rattle.std.specs.Prelude.{◌≡◌, ℕ, ℤ, Option, Some};
ghost use Rattle.sd_num.specs.declared.resolution.Resolution.{Resolution};
ghost use Rattle.sd_work.specs.Change.{push, take, write};
ghost use Rattle.sd_work.specs.Memory.{look, waiting};
ghost use Rattle.sd_pieces.specs.cut.Merged.{AreElementsOfWidth};
ghost use Rattle.sd_pieces.specs.cut.Naming.{Naming};
ghost use Rattle.sd_mem.specs.mem.Shaped.{Shaped, alone, changed, element};
ghost use Rattle.sd_cut.specs.declared.elements.CutElement.{CutElement};
ghost use Rattle.sd_cut.specs.declared.streams.CutStream.{CutStream};
ghost use Rattle.sd_cut.specs.Elements.{cut_at};
ghost use Rattle.sd_cut.specs.Fits.{Fits, AreValuesOfWidth};
ghost use Rattle.sd_cut.specs.Overlaid.{Overlaid};
ghost use Rattle.sd_cut.specs.Using.{committed, gathered_at, kept_at, pushed_in, pushed_to, seen_at, stream_at, taken_in, values_seen, written_in, Agrees};
ghost use Rattle.sd_overlay.specs.Used.{IsUsedSo};

/// An element that is read on a cut has the value that it has in the memory for which the cut stands, and reading it, or marking it, leaves that
/// memory as it is. A value that is written to it on the cut is written to it there.
pub fn elements_of_a_cut_are_those_of_its_memory()
    ensures seen { (naming : Naming) (cut : Overlaid) (memory : Shaped) (container number : ℕ) (one : CutElement)
        → Fits naming cut memory → AreElementsOfWidth (alone memory) → AreElementsOfWidth (alone cut.left) → cut_at cut.arrays container number ≡ Some one
        → Agrees (kept_at container number cut) memory → seen_at container number cut ≡ look (element container one.place) (alone (committed cut memory)) }
    ensures kept { (naming : Naming) (cut : Overlaid) (memory : Shaped) (container number : ℕ) (one : CutElement)
        → Fits naming cut memory → AreElementsOfWidth (alone memory) → cut_at cut.arrays container number ≡ Some one
        → Agrees (kept_at container number cut) memory → committed (kept_at container number cut) memory ≡ committed cut memory }
    ensures gathered { (naming : Naming) (cut : Overlaid) (memory : Shaped) (container number : ℕ) (one : CutElement) (by : Resolution)
        → Fits naming cut memory → AreElementsOfWidth (alone memory) → cut_at cut.arrays container number ≡ Some one
        → Agrees (gathered_at container number by cut) memory → committed (gathered_at container number by cut) memory ≡ committed cut memory }
    ensures written { (naming : Naming) (cut : Overlaid) (memory : Shaped) (container number : ℕ) (one : CutElement) (by : Option Resolution) (value : ℤ)
        → Fits naming cut memory → AreElementsOfWidth (alone memory) → cut_at cut.arrays container number ≡ Some one
        → Agrees (written_in container number by value cut) memory
        → committed (written_in container number by value cut) memory ≡ changed (write (element container one.place) by value) (committed cut memory) }
{}

/// What work sees of a stream is what waits there in the memory for which the cut stands. A value that is pushed to it, or the oldest that is
/// taken from it, on the cut is pushed and taken there.
pub fn streams_of_a_cut_are_those_of_its_memory()
    ensures seen { (naming : Naming) (cut : Overlaid) (memory : Shaped) (container : ℕ) (stream : CutStream)
        → Fits naming cut memory → AreValuesOfWidth (alone cut.left) → stream_at cut container ≡ Some stream
        → IsUsedSo stream.usage stream.taken stream.opening (pushed_to cut container) → Agrees (taken_in container cut) memory
        → values_seen container cut ≡ waiting 0 container (alone (committed cut memory)) }
    ensures pushed { (naming : Naming) (cut : Overlaid) (memory : Shaped) (container : ℕ) (stream : CutStream) (value : ℤ)
        → Fits naming cut memory → AreElementsOfWidth (alone memory) → stream_at cut container ≡ Some stream
        → IsUsedSo stream.usage stream.taken stream.opening (pushed_to cut container) → Agrees (pushed_in container value cut) memory
        → committed (pushed_in container value cut) memory ≡ changed (push 0 container value) (committed cut memory) }
    ensures taken { (naming : Naming) (cut : Overlaid) (memory : Shaped) (container : ℕ) (stream : CutStream)
        → Fits naming cut memory → AreElementsOfWidth (alone memory) → AreValuesOfWidth (alone cut.left) → stream_at cut container ≡ Some stream
        → IsUsedSo stream.usage stream.taken stream.opening (pushed_to cut container) → Agrees (taken_in container cut) memory
        → committed (taken_in container cut) memory ≡ changed (take 0 container 0) (committed cut memory) }
{}

/// A stream that is used so as the laws on streams ask stays so when a value is pushed to it or its oldest one is taken.
pub fn uses_of_a_stream_keep_how_it_is_used()
    ensures pushed { (cut : Overlaid) (container : ℕ) (stream next : CutStream) (value : ℤ) → stream_at cut container ≡ Some stream
        → IsUsedSo stream.usage stream.taken stream.opening (pushed_to cut container) → stream_at (pushed_in container value cut) container ≡ Some next
        → IsUsedSo next.usage next.taken next.opening (pushed_to (pushed_in container value cut) container) }
    ensures taken { (cut : Overlaid) (container : ℕ) (stream next : CutStream) → stream_at cut container ≡ Some stream
        → IsUsedSo stream.usage stream.taken stream.opening (pushed_to cut container) → stream_at (taken_in container cut) container ≡ Some next
        → IsUsedSo next.usage next.taken next.opening (pushed_to (taken_in container cut) container) }
{}

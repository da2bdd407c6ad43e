ghost use Rattle.std.specs.Prelude.{◌≡◌, ◌+◌, ◌≤◌, ℕ, Some};
ghost use Rattle.sd_work.specs.Memory.{Memories};
ghost use Rattle.sd_work.specs.Residual.{Term};
ghost use Rattle.sd_work.specs.Step.{Outcome, Done};
ghost use Rattle.sd_work.specs.BigStep.{Reached, reached, big_step};
ghost use Rattle.sd_work.specs.Touch.{Touches};
ghost use Rattle.sd_pieces.specs.course.Touched.{IsCourseBy};
ghost use Rattle.sd_pieces.specs.course.Reading.{AgreeOn};
ghost use Rattle.sd_pieces.specs.course.Shape.{stack_shape};
ghost use Rattle.sd_pieces.specs.course.Course.{course, told, spare, with_left, HasTurns};

/// What work comes to from left to right is told by its course: the memories after its changes, made in order, and
/// its end. From memories that agree on what it reads, and on its width, its course is the same: the same readings, changes and end.
/// With more turns it is the same too, and leaves more, where the turns were enough; and it wants just so many, whatever is left.
pub fn work_that_reads_the_same_is_the_same<P>()
    ensures course { (term : Term P) (most : ℕ) (memories : Memories) (turns : ℕ)
        → big_step term most memories turns ≡ told (course term most memories turns) memories }
    ensures same { (term : Term P) (most : ℕ) (memories others : Memories) (turns : ℕ)
        → AgreeOn (course term most memories turns).readings memories others
        → course term most others turns ≡ course term most memories turns }
    ensures more { (term : Term P) (most : ℕ) (memories : Memories) (turns more : ℕ)
        → HasTurns (course term most memories turns).end
        → course term most memories (turns + more) ≡ spare more (course term most memories turns) }
    ensures exact { (term : Term P) (most : ℕ) (memories : Memories) (turns left : ℕ)
        → (course term most memories turns).end ≡ Some (Done left)
        → (spent : ℕ) × (turns ≡ spent + left) × ((other : ℕ) → course term most memories (spent + other) ≡ with_left (course term most memories turns) other) }
{}

/// Work that comes to an end comes to the same where more transitions and takes are allowed.
pub fn work_that_is_allowed_more_is_the_same<P>()
    ensures { (term : Term P) (most more : ℕ) (memories : Memories) (turns : ℕ) (outcome : Outcome P Reached)
        → most ≤ more → big_step term most memories turns ≡ Some outcome → big_step term more memories turns ≡ Some outcome }
{}

/// What a course reads and changes is of the touches of its work.
pub fn a_course_is_of_what_its_work_touches<P>()
    ensures { (term : Term P) (most : ℕ) (memories : Memories) (turns : ℕ)
        → IsCourseBy (Touches term) (course term most memories turns) }
{}

/// Work keeps the shape of its stack of memories: there are as many, each with as many containers of the same widths, of which the same
/// ones are streams, and the others are arrays with as many elements.
pub fn work_keeps_the_shape_of_its_memories<P>()
    ensures { (term : Term P) (most : ℕ) (memories : Memories) (turns : ℕ) (after : Memories) (left : ℕ)
        → big_step term most memories turns ≡ reached after left → stack_shape after ≡ stack_shape memories }
{}

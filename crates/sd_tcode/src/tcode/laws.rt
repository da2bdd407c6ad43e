ghost use Rattle.std.specs.Prelude.{◌≡◌, ◌<◌, ◌≤◌, ℕ, ℤ, length, slice_index_or};
ghost use Rattle.sd_range.specs.Points.{product};
ghost use Rattle.sd_graph.specs.TaskletMeaning.{Inputs, extents_of_connector};
ghost use Rattle.sd_tasklet.specs.tasklet.Given.{IsWhole};
ghost use Rattle.sd_tcode.specs.tcode.Held.{IsReady, given, room_for, with_element};

use crate::tcode::code::Code;
use crate::tcode::frame::Frame;

/// What is given stays whole with another element, and each input connector keeps its room.
pub fn what_is_given_stays_whole()
    ensures whole { (inputs : Inputs) (connector at : ℕ) (value : ℤ) → IsWhole inputs
        → IsWhole (with_element inputs connector at value) }
    ensures lengths { (inputs : Inputs) (connector at : ℕ) (value : ℤ) (other : ℕ)
        → room_for (with_element inputs connector at value) other ≡ room_for inputs other }
{}

/// What a frame has that is ready: the connectors of the code with their dimensions, its variables, and
/// for each input room for as many elements as its extents multiply to, so one for a scalar.
pub fn what_a_frame_has(code: &Code, frame: &Frame)
    requires { IsReady code.now frame.now }
    ensures dimensions { (connector : ℕ) → length (extents_of_connector (given frame.now) connector) ≡ slice_index_or code.now.dims connector 0 }
    ensures connectors { length (given frame.now).extents ≡ code.now.layout.connectors }
    ensures variables { length (given frame.now).variables ≡ code.now.layout.variables }
    ensures room { (connector : ℕ) → connector < code.now.layout.inputs → product (extents_of_connector (given frame.now) connector) ≤ room_for (given frame.now) connector }
{
    let _ = code.input_count();
}

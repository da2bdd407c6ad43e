ghost use Rattle.std.specs.Prelude.{◌≡◌, ◌++◌, string_bytes, codes, IfOk, OnOk};
ghost use Rattle.sd_print.specs.places.FaultText as definition;

use sd_graph::{FaultKind, Frame, Place};
use sd_list::{NoMemory, Text};
use std::alloc::Global;

/// Adds a name and its value.
fn push_value(text: &mut String, name: &Text, value: i128) -> Result<(), NoMemory>
    ensures { OnOk result (string_bytes text.new ≡ string_bytes text.old ++ definition.value_text name.now value) }
{
    text.push_str(name.as_str())?;
    write!(text, "={value}")?;
    Ok(())
}

/// Adds names with their values, where there are some.
fn push_values(text: &mut String, values: &[(Text, i128)]) -> Result<(), NoMemory>
    ensures { OnOk result (string_bytes text.new ≡ string_bytes text.old ++ definition.values_text values.now) }
{
    let Some(((name, value), others)) = values.split_first() else {
        return Ok(());
    };
    text.push_str(": ")?;
    push_value(text, name, *value)?;
    for (name, value) in others {
        text.push_str(", ")?;
        push_value(text, name, *value)?;
    }
    Ok(())
}

/// Adds a frame.
fn push_frame(text: &mut String, frame: &Frame) -> Result<(), NoMemory>
    ensures { OnOk result (string_bytes text.new ≡ string_bytes text.old ++ definition.frame_text frame.now) }
{
    write!(text, "line {}", frame.line)?;
    push_values(text, frame.values.as_slice())
}

/// Adds frames, the outermost first.
fn push_frames(text: &mut String, frames: &[Frame]) -> Result<(), NoMemory>
    ensures { OnOk result (string_bytes text.new ≡ string_bytes text.old ++ definition.frames_text frames.now) }
{
    let Some((frame, others)) = frames.split_first() else {
        return Ok(());
    };
    push_frame(text, frame)?;
    for other in others {
        text.push_str(" > ")?;
        push_frame(text, other)?;
    }
    Ok(())
}

/// The text of a place: its frames from the outermost, each a line with the variables in force
/// there, as `line 9: k=2 > line 4: i=0, j=1`.
pub fn place_text(alloc: Global, place: &Place) -> Result<String, NoMemory>
    ensures { IfOk result (λ text. string_bytes text ≡ definition.place_text place.now) }
{
    let mut text = String::new(alloc);
    push_frames(&mut text, place.frames.as_slice())?;
    Ok(text)
}

/// The word for a kind of fault.
fn kind_word(kind: FaultKind) -> &'static str
    ensures { result.now ≡ definition.kind_word kind }
{
    match kind {
        FaultKind::Division => "division",
        FaultKind::Subscript => "subscript",
    }
}

/// The text of a fault, without a newline, as `fault subscript at line 7: i=1`.
pub fn fault_text(alloc: Global, place: &Place, kind: FaultKind) -> Result<String, NoMemory>
    ensures { IfOk result (λ text. string_bytes text ≡ definition.fault_text place.now kind) }
{
    let mut text = String::new(alloc);
    write!(text, "fault {} at ", kind_word(kind))?;
    push_frames(&mut text, place.frames.as_slice())?;
    Ok(text)
}

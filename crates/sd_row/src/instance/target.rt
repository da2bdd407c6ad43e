use crate::row::Track;
use sd_mem::Station;
use sd_num::Resolution;

/// Where the effects on an output go.
#[derive(Clone, Copy)]
pub enum Target {
    /// Each value is pushed into a stream.
    Stream(Station),
    /// Each value is written to an element.
    Element(Option<Resolution>, Track),
    /// Each value is written to an element among so many, by its place in the one range of a subset; the element at another place
    /// is looked up when the effect is performed.
    Among(Option<Resolution>, Track, u32),
    /// Each value is written to the element at the effect's place, which is looked up then.
    Computed,
}

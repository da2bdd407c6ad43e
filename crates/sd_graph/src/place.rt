ghost use Rattle.std.specs.Prelude.{◌≡◌, IfOk};

use sd_list::{NoMemory, Sequence, Text};
use sd_work::FaultKind;
use std::alloc::Global;

/// Where a fault comes: one frame for each graph round it, the outermost first.
#[derive(Drop)]
pub struct Place {
    pub frames: Sequence<Frame>,
}

impl Place {
    /// The same place once more.
    pub fn copy_of(&self, alloc: Global) -> Result<Place, NoMemory>
        ensures { IfOk result (λ copy. copy ≡ self.now) }
    {
        let mut frames = Vec::with_capacity(alloc, self.frames.len())?;
        for frame in self.frames.as_slice() {
            frames.push(frame.copy_of(alloc)?)?;
        }
        Ok(Place {
            frames: Sequence::from(frames),
        })
    }
}

/// A line of a source, with the values of the variables in force there: loop variables first, then
/// the parameters of scopes from the outermost.
#[derive(Drop)]
pub struct Frame {
    pub line: u32,
    pub values: Sequence<(Text, i128)>,
}

impl Frame {
    /// The same frame once more.
    pub fn copy_of(&self, alloc: Global) -> Result<Frame, NoMemory>
        ensures { IfOk result (λ copy. copy ≡ self.now) }
    {
        let mut values = Vec::with_capacity(alloc, self.values.len())?;
        for (name, value) in self.values.as_slice() {
            values.push((name.copy_of(alloc)?, *value))?;
        }
        Ok(Frame {
            line: self.line,
            values: Sequence::from(values),
        })
    }
}

/// Why a piece of work was stopped.
#[derive(Drop)]
pub enum Kept {
    Fault(Place, FaultKind),
    /// How many turns it would spend, which are more than there are.
    Turns(u64),
}

impl Kept {
    /// The same once more.
    pub fn copy_of(&self, alloc: Global) -> Result<Kept, NoMemory>
        ensures { IfOk result (λ copy. copy ≡ self.now) }
    {
        match self {
            Kept::Fault(place, kind) => Ok(Kept::Fault(place.copy_of(alloc)?, *kind)),
            Kept::Turns(turns) => Ok(Kept::Turns(*turns)),
        }
    }
}

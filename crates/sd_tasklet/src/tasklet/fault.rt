use sd_graph::FaultKind;
use std::alloc::{AllocError, AllocFailed};
use thiserror::Error;

/// Why an evaluation gives no effects.
#[derive(Clone, Copy, Debug, PartialEq, Eq, Error)]
pub enum TaskFault {
    #[error("division")]
    Division,
    #[error("subscript")]
    Subscript,
    #[error("out of memory")]
    Memory,
}

impl From<FaultKind> for TaskFault {
    ghost use Rattle.std.specs.Prelude.{◌≡◌};
    ghost use Rattle.sd_tasklet.specs.tasklet.Answer.{fault_of};

    ghost from_gives = { λ kind fault. fault ≡ fault_of kind };

    fn from(kind: FaultKind) -> TaskFault {
        match kind {
            FaultKind::Division => TaskFault::Division,
            FaultKind::Subscript => TaskFault::Subscript,
        }
    }
}

impl From<AllocError> for TaskFault {
    ghost use Rattle.std.specs.Prelude.{◌≡◌};
    ghost use Rattle.sd_tasklet.specs.declared.tasklet.fault.TaskFault.TheVariants.{Memory};

    ghost from_gives = { λ _error fault. fault ≡ Memory };

    fn from(_error: AllocError) -> TaskFault {
        TaskFault::Memory
    }
}

impl<T: Drop> From<AllocFailed<T>> for TaskFault {
    ghost use Rattle.std.specs.Prelude.{◌≡◌};
    ghost use Rattle.sd_tasklet.specs.declared.tasklet.fault.TaskFault.TheVariants.{Memory};

    ghost from_gives = { λ _error fault. fault ≡ Memory };

    fn from(_error: AllocFailed<T>) -> TaskFault {
        TaskFault::Memory
    }
}

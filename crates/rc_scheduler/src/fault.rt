//! Why the scheduler stops.

use rc_embed::{CallFault, CloseBack, OpenFault, SessionFault};
use rc_tuple::Memory;
use std::io;

/// Why the scheduler stops.
#[derive(Debug, Drop)]
pub enum Fault {
    /// Memory was wanted.
    Memory,
    /// The output failed.
    Output(io::Error),
    /// A call, or the store, is refused.
    Refused,
}

impl From<Memory> for Fault {
    fn from(_: Memory) -> Fault {
        Fault::Memory
    }
}

impl From<io::Error> for Fault {
    fn from(error: io::Error) -> Fault {
        Fault::Output(error)
    }
}

impl From<OpenFault> for Fault {
    fn from(fault: OpenFault) -> Fault {
        match fault {
            OpenFault::Memory => Fault::Memory,
            _ => Fault::Refused,
        }
    }
}

impl From<SessionFault> for Fault {
    fn from(fault: SessionFault) -> Fault {
        match fault {
            SessionFault::Memory => Fault::Memory,
            SessionFault::NoneLeft => Fault::Refused,
        }
    }
}

impl From<CallFault> for Fault {
    fn from(fault: CallFault) -> Fault {
        match fault {
            CallFault::Memory => Fault::Memory,
            _ => Fault::Refused,
        }
    }
}

impl From<CloseBack> for Fault {
    fn from(back: CloseBack) -> Fault {
        match back {
            CloseBack::Memory(_) => Fault::Memory,
            CloseBack::Outside(_) | CloseBack::Shared(_) => Fault::Refused,
        }
    }
}

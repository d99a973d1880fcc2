//! How an open store has what it shares with its sessions.

ghost use Rattle.std.specs.Prelude.{◌≡◌, IfErr, IfOk};
ghost use Rattle.std.specs.Arc.{arc_value};
ghost use Rattle.rc_embed.specs.Holding.{IsHeld, held};

use crate::session::put;
use crate::shared::Shared;
use rc_tuple::Memory;
use std::alloc::{AllocFailed, Global};
use std::mem;
use std::sync::Arc;

/// How an open store has what it shares with its sessions. It has it alone until the first one begins: so what a store was
/// made of comes together, and comes apart, with no memory for what is shared.
#[derive(Drop)]
pub(crate) enum Hold {
    /// No session has begun.
    Alone(Shared),
    /// Sessions have begun, and may have it too.
    Together(Arc<Shared, Global>),
    /// It is on its way from one to the other. No store has it so between calls.
    Moving,
}

impl Hold {
    /// What is held.
    pub(crate) fn shared(&self) -> &Shared
        requires { IsHeld self.now }
        ensures { result.now ≡ held self.now }
    {
        match self {
            Hold::Alone(shared) => shared,
            Hold::Together(shared) => &**shared,
            Hold::Moving => unreachable!(),
        }
    }

    /// What is held, where sessions may have it too. Where memory is wanted it comes back alone.
    fn into_together(self, alloc: Global) -> Result<Arc<Shared, Global>, Shared>
        requires { IsHeld self }
        ensures ok { IfOk result (λ shared. arc_value shared ≡ held self) }
        ensures err { IfErr result (λ shared. shared ≡ held self) }
    {
        match self {
            Hold::Alone(shared) => match Arc::new(alloc, shared) {
                Ok(shared) => Ok(shared),
                Err(AllocFailed { value }) => Err(value),
            },
            Hold::Together(shared) => Ok(shared),
            Hold::Moving => unreachable!(),
        }
    }

    /// What is held, for a session to have too. Where memory is wanted, it is held as it was.
    pub(crate) fn share(&mut self, alloc: Global) -> Result<Arc<Shared, Global>, Memory>
        requires { IsHeld self.old }
        ensures held { IsHeld self.new × (held self.new ≡ held self.old) }
        ensures shared { IfOk result (λ shared. arc_value shared ≡ held self.old) }
    {
        match mem::replace(self, Hold::Moving).into_together(alloc) {
            Ok(shared) => {
                let again = Arc::try_clone(&shared);
                put(self, Hold::Together(shared));
                match again {
                    Ok(shared) => Ok(shared),
                    Err(_) => Err(Memory),
                }
            }
            Err(shared) => {
                put(self, Hold::Alone(shared));
                Err(Memory)
            }
        }
    }

    /// What is held, where no session has it too; else the hold again.
    pub(crate) fn into_alone(self) -> Result<Shared, Hold>
        requires { IsHeld self }
        ensures ok { IfOk result (λ shared. shared ≡ held self) }
        ensures err { IfErr result (λ hold. hold ≡ self) }
    {
        match self {
            Hold::Alone(shared) => Ok(shared),
            Hold::Together(shared) => match Arc::try_unwrap(shared) {
                Ok(shared) => Ok(shared),
                Err(shared) => Err(Hold::Together(shared)),
            },
            Hold::Moving => unreachable!(),
        }
    }
}

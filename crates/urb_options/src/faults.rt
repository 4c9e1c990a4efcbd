//! The faults that end the program before its work is done, and their texts.

ghost use Rattle.std.specs.Prelude.{◌≡◌};

use std::alloc::AllocError;
use thiserror::Error;
use urb_names::{NoMemory, Refusal};
use urb_script::RunFault;

/// Why the program ended before its work was done. Its status is then 1.
#[derive(Clone, Copy, Debug, PartialEq, Eq, Error)]
pub enum Fault {
    /// Standard input, the command line, or what a node sent could not be read.
    #[error("read failed")]
    Read,
    /// Standard output or a request to a node could not be written: nothing, a part or all of it
    /// may have been written.
    #[error("write failed")]
    Write,
    /// Memory or a thread was refused.
    #[error("no memory")]
    NoMemory,
    /// A port wasn't available, or nothing listens there.
    #[error("network failed")]
    Network,
    /// What a node sent is no response to the request.
    #[error("bad reply")]
    BadReply,
    /// A journal could not be opened, or what the journals hold was refused: the number of the
    /// refusal, and its detail. 15 also means that a folder is missing, or that another program
    /// uses a journal.
    #[error("refused {0} {1}")]
    Refused(u8, u32),
}

impl From<RunFault> for Fault {
    ghost use Rattle.std.specs.Prelude.{◌≡◌};
    ghost use Rattle.urb_options.specs.ProgramFaults.{fault_of_run};

    ghost from_gives = { λ fault e. e ≡ fault_of_run fault };

    fn from(fault: RunFault) -> Fault {
        match fault {
            RunFault::Read => Fault::Read,
            RunFault::Write => Fault::Write,
            RunFault::NoMemory => Fault::NoMemory,
        }
    }
}

impl From<NoMemory> for Fault {
    ghost use Rattle.std.specs.Prelude.{◌≡◌};
    ghost use Rattle.urb_options.specs.declared.faults.Fault.TheVariants.{NoMemory as no_memory};

    ghost from_gives = { λ _ e. e ≡ no_memory };

    fn from(_: NoMemory) -> Fault {
        Fault::NoMemory
    }
}

impl From<AllocError> for Fault {
    ghost use Rattle.std.specs.Prelude.{◌≡◌};
    ghost use Rattle.urb_options.specs.declared.faults.Fault.TheVariants.{NoMemory as no_memory};

    ghost from_gives = { λ _ e. e ≡ no_memory };

    fn from(_: AllocError) -> Fault {
        Fault::NoMemory
    }
}

impl From<Refusal> for Fault {
    ghost use Rattle.std.specs.Prelude.{◌≡◌};
    ghost use Rattle.urb_options.specs.ProgramFaults.{fault_of_refusal};

    ghost from_gives = { λ refusal e. e ≡ fault_of_refusal refusal };

    fn from(refusal: Refusal) -> Fault {
        match refusal {
            Refusal::NoMemory => Fault::NoMemory,
            _ => Fault::Refused(refusal.number(), refusal.detail()),
        }
    }
}

/// The program's status after a fault.
pub const FAULT: u8 = 1;

/// Reports a fault on standard error, and returns its status.
pub fn report_fault<R: Eprint>(rt: &R, fault: Fault) -> u8
    ensures { result ≡ 1 }
{
    let _ = eprintln!(rt; "urbd: {fault}");
    FAULT
}

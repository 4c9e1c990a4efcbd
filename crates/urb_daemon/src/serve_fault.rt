//! Why a group doesn't run, and what the program reports of it.

ghost use Rattle.std.specs.Prelude.{◌≡◌};
ghost use Rattle.urb_daemon.specs.ServeFaults.{fault_of_serve};

use crate::network_fault::NetworkFault;
use urb_names::{Refusal, Rule};
use urb_options::{Fault, report_fault};

/// Why a group didn't run, or couldn't tell that it runs.
#[derive(Clone, Copy, Debug, PartialEq, Eq)]
pub enum ServeFault {
    /// The group can't be opened over its journals.
    Unopened(Refusal),
    /// Its sockets can't be opened.
    Network(NetworkFault),
    /// `open N` couldn't be printed.
    Untold,
    /// Memory or a thread was refused.
    NoMemory,
}

/// The program's fault for a group that doesn't run. A refused opening becomes its refusal.
pub fn fault_of_serve(why: ServeFault) -> Fault
    ensures { result ≡ fault_of_serve why }
{
    match why {
        ServeFault::Unopened(refusal) => Fault::from(refusal),
        ServeFault::Network(NetworkFault::NoMemory) => Fault::NoMemory,
        ServeFault::Network(_) => Fault::Network,
        ServeFault::Untold => Fault::Write,
        ServeFault::NoMemory => Fault::NoMemory,
    }
}

// The letter of a rule, as docs/OPERATIONS.md and `urbdctl verify` have it.
fn letter_of(rule: Rule) -> char {
    match rule {
        Rule::A => 'a',
        Rule::B => 'b',
        Rule::C => 'c',
        Rule::D => 'd',
    }
}

// Reports that the journals don't fit together, and where. Another refusal is reported by its text.
fn report_refusal<E: Eprint>(errors: &E, fault: Fault, refusal: &Refusal) {
    match refusal {
        Refusal::Inconsistent { rule, node, name } => {
            let (rule, node) = (letter_of(*rule), node.number());
            let (sender, seq) = (name.sender.number(), name.seq);
            let _ = eprintln!(errors;
                "urbd: {fault}: rule {rule}, node {node}, name {sender}.{seq} \
(urbdctl verify says more)"
            );
        }
        other => {
            let _ = eprintln!(errors; "urbd: {fault}: {other}");
        }
    }
}

/// Reports why a group doesn't run, and returns the status. The line begins with the program's
/// fault, and goes on with the cause.
pub fn report_serve_fault<E: Eprint>(errors: &E, why: ServeFault) -> u8
    ensures { result ≡ 1 }
{
    let fault = fault_of_serve(why);
    match &why {
        ServeFault::Unopened(refusal) => {
            if matches!(refusal, Refusal::NoMemory) {
                return report_fault(errors, fault);
            }
            report_refusal(errors, fault, refusal);
            1
        }
        ServeFault::Network(cause) => {
            if matches!(cause, NetworkFault::NoMemory) {
                return report_fault(errors, fault);
            }
            let _ = eprintln!(errors; "urbd: {fault}: {cause}");
            1
        }
        ServeFault::Untold | ServeFault::NoMemory => report_fault(errors, fault),
    }
}

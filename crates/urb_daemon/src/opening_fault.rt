//! What the program reports if a group's folder can't be opened.

ghost use Rattle.std.specs.Prelude.{◌≡◌, ◌≤◌};
ghost use Rattle.urb_names.specs.declared.limits.TheConstants.{MAX_NODES};
ghost use Rattle.urb_daemon.specs.OpeningFaults.{fault_of_folder};

use crate::network_fault::count_descriptors;
use crate::sockets::open_spare_descriptors;
use std::alloc::Global;
use std::net::{Net, TcpListener, TcpStream};
use std::rt::HostRuntime;
use urb_folder::{FolderFault, find_obstacle};
use urb_options::{Fault, ServeOptions, report_fault};
use urb_stable::StoreFault;

/// What is reported of a folder with records of a node that the group doesn't have: the refusal
/// `Inconsistent`, without a detail.
const MISFIT: Fault = Fault::Refused(14, 0);

/// What to report if a group's folder can't be opened. It is the refusal 14 if the folder has
/// records of a node that this group doesn't have. Otherwise it is the fault of a journal.
pub fn fault_of_folder(why: FolderFault) -> Fault
    ensures { result ≡ fault_of_folder why }
{
    match why {
        FolderFault::NoMemory => Fault::NoMemory,
        FolderFault::Journal(_, fault) => Fault::from(fault.refusal()),
        FolderFault::ForeignRecords(_) => MISFIT,
    }
}

// Whether the program can't open this number of descriptors and one more.
fn lacks_descriptors<R: Net<Listener = TcpListener, Stream = TcpStream>>(
    net: &R,
    alloc: Global,
    needed: u16,
    spare: usize,
) -> bool {
    match open_spare_descriptors(net, alloc, needed, spare) {
        Ok(opened) => opened.len() < spare,
        Err(_) => true,
    }
}

// Reports that the system refused the journal of the node with this number, and what was in the way.
fn report_device<R, E: Eprint>(
    net: &R,
    rt: &HostRuntime,
    errors: &E,
    serving: ServeOptions<'_>,
    number: usize,
)
where
    R: Net<Listener = TcpListener, Stream = TcpStream>,
{
    let (fault, dir) = (Fault::Refused(15, 0), serving.dir);
    let needed = count_descriptors(serving.nodes);
    // Three of them are the standard streams, and one makes the others.
    let spare = usize::from(needed) - 4;
    let _ = match find_obstacle(rt, dir, number) {
        Some(obstacle) => eprintln!(errors; "urbd: {fault}: {dir}/node-{number}.db: {obstacle}"),
        None if lacks_descriptors(net, rt.alloc(), needed, spare) => {
            eprintln!(errors;
                "urbd: {fault}: {dir}/node-{number}.db: the group needs {needed} descriptors \
(ulimit -n)"
            )
        }
        None => eprintln!(errors;
            "urbd: {fault}: {dir}/node-{number}.db: it is no journal, or its device failed"
        ),
    };
}

/// Reports why a group's folder can't be opened, and returns the status. The line begins with the
/// program's fault, and goes on with the journal and the cause. `net` and `rt` are the same runtime.
/// If the system refused a journal, this looks for the reason again: it makes and changes no file.
pub fn report_folder_fault<R, E: Eprint>(
    net: &R,
    rt: &HostRuntime,
    errors: &E,
    serving: ServeOptions<'_>,
    why: FolderFault,
) -> u8
where
    R: Net<Listener = TcpListener, Stream = TcpStream>,
    ensures { result ≡ 1 }
{
    let (fault, dir) = (fault_of_folder(why), serving.dir);
    match why {
        FolderFault::Journal(number, StoreFault::Device) => {
            report_device(net, rt, errors, serving, number);
            1
        }
        FolderFault::Journal(number, refused) if refused != StoreFault::NoMemory => {
            let refusal = refused.refusal();
            let _ = eprintln!(errors; "urbd: {fault}: {dir}/node-{number}.db: {refusal}");
            1
        }
        FolderFault::ForeignRecords(number) => {
            let nodes = serving.nodes;
            let _ = eprintln!(errors;
                "urbd: {fault}: {dir}/node-{number}.db: it has records, and the group has \
{nodes} nodes"
            );
            1
        }
        _ => report_fault(errors, fault),
    }
}

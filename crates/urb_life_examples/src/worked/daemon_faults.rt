//! Which fault an error of the system becomes, when a group opens its sockets or doesn't run.
ghost use Rattle.std.specs.Prelude.{◌≡◌, None, Some};
ghost use Rattle.std_io.specs.declared.io.kind.ErrorKind.TheVariants as kind;
ghost use Rattle.urb_daemon.specs.NetworkFaults.{fault_at};
ghost use Rattle.urb_daemon.specs.ServeFaults.{fault_of_serve};
ghost use Rattle.urb_daemon.specs.SocketFaults.{cause_of, probe_says};
ghost use Rattle.urb_daemon.specs.declared.network_fault.NetworkFault.TheVariants as network;
ghost use Rattle.urb_daemon.specs.declared.network_fault.Port.{Port};
ghost use Rattle.urb_daemon.specs.declared.serve_fault.ServeFault.TheVariants as serve;
ghost use Rattle.urb_daemon.specs.declared.socket_fault.SocketCause.TheVariants as cause;
ghost use Rattle.urb_options.specs.declared.faults.Fault.TheVariants as fault;

/// The faults of ports.
pub fn faults_of_ports()
    ensures without_memory { (port : Port) → fault_at port 24 kind.OutOfMemory ≡ network.NoMemory }
    ensures in_use { (port : Port) → fault_at port 24 kind.AddrInUse ≡ network.InUse port }
    ensures not_allowed { (port : Port)
        → fault_at port 24 kind.PermissionDenied ≡ network.NotAllowed port }
    ensures another_error { (port : Port) → fault_at port 24 kind.NotFound ≡ network.NoSocket 24 }
{}

/// What the program reports of a group that doesn't run.
pub fn faults_of_groups()
    ensures sockets_without_memory { fault_of_serve (serve.Network network.NoMemory)
        ≡ fault.NoMemory }
    ensures no_socket { fault_of_serve (serve.Network (network.NoSocket 24)) ≡ fault.Network }
    ensures untold { fault_of_serve serve.Untold ≡ fault.Write }
    ensures without_memory { fault_of_serve serve.NoMemory ≡ fault.NoMemory }
{}

/// Why a Unix socket can't be made.
pub fn causes_of_sockets()
    ensures without_memory { cause_of kind.OutOfMemory ≡ cause.NoMemory }
    ensures not_found { cause_of kind.NotFound ≡ cause.NoFolder }
    ensures no_folder { cause_of kind.NotADirectory ≡ cause.NoFolder }
    ensures not_allowed { cause_of kind.PermissionDenied ≡ cause.NotAllowed }
    ensures read_only { cause_of kind.ReadOnlyFilesystem ≡ cause.NotAllowed }
    ensures in_use { cause_of kind.AddrInUse ≡ cause.InUse }
    ensures there_already { cause_of kind.AlreadyExists ≡ cause.InUse }
    ensures another_error { cause_of kind.ConnectionRefused ≡ cause.NotMade }
{}

/// What a connection to a socket says that is there.
pub fn what_a_probe_says()
    ensures in_use { probe_says None ≡ Some cause.InUse }
    ensures left_behind { probe_says (Some kind.ConnectionRefused) ≡ None }
    ensures without_memory { probe_says (Some kind.OutOfMemory) ≡ Some cause.NoMemory }
    ensures another_error { probe_says (Some kind.NotFound) ≡ Some cause.Unclear }
{}

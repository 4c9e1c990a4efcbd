//! The statuses of commands, and the faults that they end with.
ghost use Rattle.std.specs.Prelude.{[], ◌∷◌, ◌≡◌, Err, None, Ok, Some};
ghost use Rattle.urb_client.specs.declared.frame_write.WriteFailed.{WriteFailed};
ghost use Rattle.urb_client.specs.declared.full_read.ReadFailed.{ReadFailed};
ghost use Rattle.urb_names.specs.declared.refusal.NoMemory.{NoMemory};
ghost use Rattle.urb_options.specs.declared.faults.Fault.TheVariants as fault;
ghost use Rattle.urb_options.specs.declared.task.Errand.TheVariants.{Replay};
ghost use Rattle.urb_script.specs.declared.runs.RunEnd.TheVariants.{BadLine, Whole};
ghost use Rattle.urb_script.specs.declared.runs.RunFault.TheVariants.{Read};
ghost use Rattle.urb_cli.specs.CallFaults.{IsNoMemory, IsUnconnected};
ghost use Rattle.urb_cli.specs.Statuses.{IsErrandsEnd, fault_of_call, status_of};
ghost use Rattle.urb_cli.specs.Streams.{IsUnwritten, fault_of_stream, status_of_stream};
ghost use Rattle.urb_cli.specs.declared.client.call_fault.CallFault.TheVariants as call;
ghost use Rattle.urb_cli.specs.declared.client.node_stream.NoConnection.{NoConnection};
ghost use Rattle.urb_cli.specs.declared.client.stream_fault.StreamEnd.TheVariants.{Done, Refused};
ghost use Rattle.urb_cli.specs.declared.client.stream_fault.StreamFault.TheVariants as stream;

/// The statuses of runs of scripts, and of commands that make many calls.
pub fn statuses_of_commands()
    ensures of_a_whole_script { status_of (Ok Whole) ≡ 0 }
    ensures of_a_bad_line { status_of (Ok (BadLine 3)) ≡ 2 }
    ensures of_a_failed_read { status_of (Err Read) ≡ 1 }
    ensures of_a_stream_that_is_done { status_of_stream (Ok Done) ≡ 0 }
    ensures of_a_refusal { status_of_stream (Ok Refused) ≡ 4 }
    ensures of_a_stream_at_its_end { status_of_stream (Err stream.AtEnd) ≡ 1 }
    ensures of_a_replay { IsErrandsEnd Replay 2 }
    ensures of_a_replay_that_nobody_refuses { IsErrandsEnd Replay 4 → ⊥ }
{}

/// The program's faults for calls without an answer, and for streams that break off.
pub fn faults_of_commands()
    ensures not_connected { (why : NoConnection) → fault_of_call (call.NotConnected why)
        ≡ fault.Network }
    ensures without_memory { (why : NoMemory) → fault_of_call (call.NoMemory why)
        ≡ fault.NoMemory }
    ensures not_sent { (why : WriteFailed) → fault_of_call (call.NotSent why) ≡ fault.Write }
    ensures not_read { (why : ReadFailed) → fault_of_call (call.NotRead why) ≡ fault.Read }
    ensures a_bad_reply { fault_of_call call.BadReply ≡ fault.BadReply }
    ensures a_stream_without_input { (why : ReadFailed) → fault_of_stream (stream.Input why)
        ≡ fault.Read }
    ensures a_stream_without_output { (why : WriteFailed) → fault_of_stream (stream.Output why)
        ≡ fault.Write }
    ensures a_stream_without_memory { (why : NoMemory) → fault_of_stream (stream.NoMemory why)
        ≡ fault.NoMemory }
    ensures a_stream_at_its_end { fault_of_stream stream.AtEnd ≡ fault.BadReply }
{}

/// Which faults say that memory, a connection or the output is missing.
pub fn kinds_of_faults()
    ensures no_memory { (why : NoMemory) → IsNoMemory (call.NoMemory why) }
    ensures memory { IsNoMemory call.BadReply → ⊥ }
    ensures no_connection { (why : NoConnection) → IsUnconnected (call.NotConnected why) }
    ensures a_connection { IsUnconnected call.BadReply → ⊥ }
    ensures no_output { (why : WriteFailed) → IsUnwritten (stream.Output why) (Some [])
        (Some (1 ∷ [])) }
    ensures no_memory_for_output { (why : NoMemory) → IsUnwritten (stream.NoMemory why) (Some [])
        (Some (1 ∷ [])) → ⊥ }
    ensures as_before_without_memory { (why : NoMemory) → IsUnwritten (stream.NoMemory why)
        (Some []) (Some []) }
    ensures an_end { IsUnwritten stream.AtEnd (Some []) (Some []) → ⊥ }
{}

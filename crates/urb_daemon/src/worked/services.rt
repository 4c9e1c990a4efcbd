//! Worked examples of services: which doors stations have, and which limits clients have.
//!
//! Each of the rows that end in ⊥ breaks one rule alone.
ghost use Rattle.std.specs.Prelude.{[], ◌∷◌, ◌≡◌, None, false, is_some, true};
ghost use Rattle.urb_link.specs.declared.stations.Station.{Station};
ghost use Rattle.urb_options.specs.declared.door_options.DoorOptions.{DoorOptions};
ghost use Rattle.urb_options.specs.declared.service_options.ServiceOptions.{ServiceOptions};
ghost use Rattle.urb_daemon.specs.ClientService.{FitService};
ghost use Rattle.urb_daemon.specs.Doors.{HasDoors, HaveDoors};
ghost use Rattle.urb_daemon.specs.internal.DaemonExamples.{client_limits, ending};

/// A station has a door for TCP, and a Unix socket, exactly if the options ask for it.
pub fn stations_with_their_doors()
    ensures tcp_alone { (doors : DoorOptions) (it : Station) → doors.takes_tcp ≡ true
        → doors.sockets ≡ None → is_some it.tcp ≡ true → is_some it.socket ≡ false
        → HasDoors doors it }
    ensures a_socket_alone { (doors : DoorOptions) (it : Station) → doors.takes_tcp ≡ false
        → is_some doors.sockets ≡ true → is_some it.tcp ≡ false → is_some it.socket ≡ true
        → HasDoors doors it }
    ensures both { (doors : DoorOptions) (it : Station) → doors.takes_tcp ≡ true
        → is_some doors.sockets ≡ true → is_some it.tcp ≡ true → is_some it.socket ≡ true
        → HasDoors doors it }
{}

/// A station lacks no door that is asked for, and has no other one.
pub fn stations_with_other_doors()
    ensures without_tcp { (doors : DoorOptions) (it : Station) → doors.takes_tcp ≡ true
        → is_some it.tcp ≡ false → HasDoors doors it → ⊥ }
    ensures with_tcp_unasked { (doors : DoorOptions) (it : Station) → doors.takes_tcp ≡ false
        → is_some it.tcp ≡ true → HasDoors doors it → ⊥ }
    ensures without_a_socket { (doors : DoorOptions) (it : Station) → is_some doors.sockets ≡ true
        → is_some it.socket ≡ false → HasDoors doors it → ⊥ }
    ensures with_a_socket_unasked { (doors : DoorOptions) (it : Station) → doors.sockets ≡ None
        → is_some it.socket ≡ true → HasDoors doors it → ⊥ }
{}

/// A group has the doors of its options if each of its stations has them.
pub fn groups_with_their_doors()
    ensures of_none { (doors : DoorOptions) → HaveDoors doors [] }
    ensures of_one { (doors : DoorOptions) (it : Station) → HasDoors doors it
        → HaveDoors doors (it ∷ []) }
    ensures of_three { (doors : DoorOptions) (it last : Station) → HasDoors doors it
        → HasDoors doors last → HaveDoors doors (ending 2 it last) }
    ensures of_four { (doors : DoorOptions) (it last : Station) → HasDoors doors it
        → HasDoors doors last → HaveDoors doors (ending 3 it last) }
    ensures of_six { (doors : DoorOptions) (it last : Station) → HasDoors doors it
        → HasDoors doors last → HaveDoors doors (ending 5 it last) }
    ensures of_seven { (doors : DoorOptions) (it last : Station) → HasDoors doors it
        → HasDoors doors last → HaveDoors doors (ending 6 it last) }
{}

/// No station of a group may have other doors.
pub fn groups_with_other_doors()
    ensures at_a_single_one { (doors : DoorOptions) (it : Station) → (HasDoors doors it → ⊥)
        → HaveDoors doors (it ∷ []) → ⊥ }
    ensures at_the_first_of_four { (doors : DoorOptions) (it last : Station)
        → (HasDoors doors it → ⊥) → HaveDoors doors (it ∷ ending 2 last last) → ⊥ }
    ensures at_the_last_of_three { (doors : DoorOptions) (it last : Station)
        → (HasDoors doors last → ⊥) → HaveDoors doors (ending 2 it last) → ⊥ }
    ensures at_the_last_of_four { (doors : DoorOptions) (it last : Station)
        → (HasDoors doors last → ⊥) → HaveDoors doors (ending 3 it last) → ⊥ }
    ensures at_the_last_of_six { (doors : DoorOptions) (it last : Station)
        → (HasDoors doors last → ⊥) → HaveDoors doors (ending 5 it last) → ⊥ }
    ensures at_the_last_of_seven { (doors : DoorOptions) (it last : Station)
        → (HasDoors doors last → ⊥) → HaveDoors doors (ending 6 it last) → ⊥ }
{}

/// A node serves as many connections as the options ask for, or fewer, but at least four.
pub fn limits_that_fit()
    ensures as_asked { (service : ServiceOptions) → service.connections ≡ 1000
        → service.idle_minutes ≡ 10 → service.may_crash ≡ true
        → FitService service (client_limits 1000 10 true) }
    ensures fewer { (service : ServiceOptions) → service.connections ≡ 1000
        → service.idle_minutes ≡ 10 → service.may_crash ≡ false
        → FitService service (client_limits 4 10 false) }
    ensures the_fewest { (service : ServiceOptions) → service.connections ≡ 4
        → service.idle_minutes ≡ 1440 → service.may_crash ≡ true
        → FitService service (client_limits 4 1440 true) }
{}

/// A node serves no other number of connections, and its limits are no others than those asked for.
pub fn limits_that_do_not_fit()
    ensures more_than_asked { (service : ServiceOptions) → service.connections ≡ 100
        → FitService service (client_limits 101 10 true) → ⊥ }
    ensures fewer_than_four { (service : ServiceOptions)
        → FitService service (client_limits 3 10 true) → ⊥ }
    ensures a_longer_time { (service : ServiceOptions) → service.idle_minutes ≡ 10
        → FitService service (client_limits 100 11 true) → ⊥ }
    ensures a_shorter_time { (service : ServiceOptions) → service.idle_minutes ≡ 10
        → FitService service (client_limits 100 1 true) → ⊥ }
    ensures crashes_unasked { (service : ServiceOptions) → service.may_crash ≡ false
        → FitService service (client_limits 100 10 true) → ⊥ }
    ensures no_crash { (service : ServiceOptions) → service.may_crash ≡ true
        → FitService service (client_limits 100 10 false) → ⊥ }
    ensures another_time_for_a_frame { (service : ServiceOptions)
        → FitService service (record (client_limits 100 10 true) { frame_millis = 1000 }) → ⊥ }
    ensures another_minute { (service : ServiceOptions)
        → FitService service (record (client_limits 100 10 true) { idle_millis = 1000 }) → ⊥ }
{}

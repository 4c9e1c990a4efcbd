//! The numbers of refusals.
ghost use Rattle.std.specs.Prelude.{◌≡◌};
ghost use Rattle.urb_names.specs.Names.{name};
ghost use Rattle.urb_names.specs.RefusalReports.{number_of};
ghost use Rattle.urb_names.specs.declared.refusal.PacketFault.TheVariants.{Short};
ghost use Rattle.urb_names.specs.declared.refusal.Refusal.TheVariants as is;
ghost use Rattle.urb_names.specs.declared.refusal.Rule.TheVariants.{A};

/// Each refusal has its own number, from 1 to 19.
pub fn numbers_of_refusals()
    ensures no_memory { number_of is.NoMemory ≡ 1 }
    ensures bad_node { number_of is.BadNode ≡ 2 }
    ensures down { number_of is.Down ≡ 3 }
    ensures busy { number_of is.Busy ≡ 4 }
    ensures too_long { number_of is.TooLong ≡ 5 }
    ensures conflict { number_of is.Conflict ≡ 6 }
    ensures gap { number_of (is.Gap 5) ≡ 7 }
    ensures full { number_of is.Full ≡ 8 }
    ensures forged { number_of is.Forged ≡ 9 }
    ensures packet { number_of (is.Packet Short) ≡ 10 }
    ensures stale { number_of is.Stale ≡ 11 }
    ensures not_down { number_of is.NotDown ≡ 12 }
    ensures bad_image { number_of is.BadImage ≡ 13 }
    ensures inconsistent { number_of (is.Inconsistent A 1 (name 1 1)) ≡ 14 }
    ensures device { number_of is.Device ≡ 15 }
    ensures place { number_of (is.Place 5) ≡ 16 }
    ensures bad_row { number_of (is.BadRow 5) ≡ 17 }
    ensures bad_line { number_of (is.BadLine 5) ≡ 18 }
    ensures frame { number_of (is.Frame 5) ≡ 19 }
{}

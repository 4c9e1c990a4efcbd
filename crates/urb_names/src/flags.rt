//! What a packet's source says about certificates.
ghost use Rattle.std.specs.Prelude.{◌≡◌, ◌<◌, IfSome};
ghost use Rattle.std.specs.Option.{SomeIff};
ghost use Rattle.urb_names.specs.PacketGrammar.{flags_number, flags_said};

/// What a packet of version two says about certificates, beside its message.
#[derive(Clone, Copy, Debug, PartialEq, Eq)]
pub struct Flags {
    /// The source has stored a certificate of the packet's name.
    pub certified: bool,
    /// The source has heard that the target has stored one, so the target need not answer.
    pub heard: bool,
}

impl Flags {
    /// The flags with this number, 0 to 3, as a packet encodes them; `None` if the number is over
    /// 3.
    pub fn of_number(number: u8) -> Option<Flags>
        ensures value { SomeIff result (number < 4) (flags_said number) }
        ensures again { IfSome result (λ flags. flags_number flags ≡ number) }
    {
        if 3 < number {
            return None;
        }
        Some(Flags {
            certified: number % 2 == 1,
            heard: number / 2 == 1,
        })
    }

    /// The number of the flags, 0 to 3: `certified` counts 1 and `heard` counts 2.
    pub fn number(self) -> u8
        ensures value { result ≡ flags_number self }
        ensures range { result < 4 }
    {
        u8::from(self.certified) + 2 * u8::from(self.heard)
    }
}

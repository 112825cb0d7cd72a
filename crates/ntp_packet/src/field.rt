ghost use Rattle.std.specs.Prelude.{◌≡◌};
ghost use Rattle.ntp_packet.specs.Fields.{name_of, offset_of, size_of};

/// A field of a packet (RFC 5905, section 7.3). Each is one number whose highest octet is first.
#[derive(Clone, Copy, Debug, PartialEq, Eq)]
pub enum PacketField {
    /// The leap indicator in the high 2 bits, the version in the next 3, the mode in the low 3.
    First,
    /// The stratum.
    Stratum,
    /// The poll exponent.
    Poll,
    /// The precision.
    Precision,
    /// The root delay, in seconds of 16 whole and 16 fractional bits.
    RootDelay,
    /// The root dispersion, in seconds of 16 whole and 16 fractional bits.
    RootDispersion,
    /// The reference identifier.
    ReferenceId,
    /// The reference timestamp, in seconds of 32 whole and 32 fractional bits, as those that follow.
    Reference,
    /// The origin timestamp.
    Origin,
    /// The receive timestamp.
    Receive,
    /// The transmit timestamp.
    Transmit,
}

/// All fields of a packet, in their order.
pub const FIELDS: [PacketField; 11] = [
    PacketField::First,
    PacketField::Stratum,
    PacketField::Poll,
    PacketField::Precision,
    PacketField::RootDelay,
    PacketField::RootDispersion,
    PacketField::ReferenceId,
    PacketField::Reference,
    PacketField::Origin,
    PacketField::Receive,
    PacketField::Transmit,
];

impl PacketField {
    /// The printed name.
    pub fn name(self) -> &'static str
        ensures { result.now ≡ name_of self }
    {
        match self {
            PacketField::First => "first",
            PacketField::Stratum => "stratum",
            PacketField::Poll => "poll",
            PacketField::Precision => "precision",
            PacketField::RootDelay => "root_delay",
            PacketField::RootDispersion => "root_dispersion",
            PacketField::ReferenceId => "reference_id",
            PacketField::Reference => "reference",
            PacketField::Origin => "origin",
            PacketField::Receive => "receive",
            PacketField::Transmit => "transmit",
        }
    }

    /// The offset of its first octet in a packet.
    pub fn offset(self) -> usize
        ensures { result ≡ offset_of self }
    {
        match self {
            PacketField::First => 0,
            PacketField::Stratum => 1,
            PacketField::Poll => 2,
            PacketField::Precision => 3,
            PacketField::RootDelay => 4,
            PacketField::RootDispersion => 8,
            PacketField::ReferenceId => 12,
            PacketField::Reference => 16,
            PacketField::Origin => 24,
            PacketField::Receive => 32,
            PacketField::Transmit => 40,
        }
    }

    /// How many octets it has.
    pub fn size(self) -> usize
        ensures { result ≡ size_of self }
    {
        match self {
            PacketField::First
            | PacketField::Stratum
            | PacketField::Poll
            | PacketField::Precision => 1,
            PacketField::RootDelay | PacketField::RootDispersion | PacketField::ReferenceId => 4,
            PacketField::Reference
            | PacketField::Origin
            | PacketField::Receive
            | PacketField::Transmit => 8,
        }
    }
}

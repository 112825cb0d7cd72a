ghost use Rattle.std.specs.Prelude.{◌≡◌};
ghost use Rattle.pdu_fields.specs.Headers.{number_of, ptype_at};

/// The kinds of PDUs of this profile, each with its number.
#[derive(Clone, Copy, Debug, PartialEq, Eq)]
pub enum Ptype {
    /// A call.
    Request = 0,
    /// Its answer.
    Response = 2,
    /// The answer of a call that failed.
    Fault = 3,
    /// Contexts are proposed.
    Bind = 11,
    /// The answer to a bind.
    BindAck = 12,
    /// A bind is refused.
    BindNak = 13,
    /// Further contexts are proposed.
    AlterContext = 14,
    /// The answer to further contexts.
    AlterContextResp = 15,
    /// The server asks for the end of the association.
    Shutdown = 17,
    /// A call is cancelled.
    CoCancel = 18,
    /// A call is given up.
    Orphaned = 19,
}

impl Ptype {
    /// The kind of a number.
    pub fn from_number(n: u8) -> Option<Ptype>
        ensures { result ≡ ptype_at n }
    {
        match n {
            0 => Some(Ptype::Request),
            2 => Some(Ptype::Response),
            3 => Some(Ptype::Fault),
            11 => Some(Ptype::Bind),
            12 => Some(Ptype::BindAck),
            13 => Some(Ptype::BindNak),
            14 => Some(Ptype::AlterContext),
            15 => Some(Ptype::AlterContextResp),
            17 => Some(Ptype::Shutdown),
            18 => Some(Ptype::CoCancel),
            19 => Some(Ptype::Orphaned),
            _ => None,
        }
    }
    /// Its number.
    pub fn number(self) -> u8
        ensures { result ≡ number_of self }
    {
        self as u8
    }
}

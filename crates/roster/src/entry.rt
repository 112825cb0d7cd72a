use dts_base::{Address, Text};

/// How a server is asked.
#[derive(Clone, Copy, Debug, PartialEq, Eq)]
pub enum ServerKind {
    /// A server of this network, in each round.
    Local,
    /// A server of another network, where the locals do not suffice or a courier is to ask it.
    Global,
    /// An NTP server. Where there is one, the NTP servers alone are asked.
    Ntp,
}

/// A server of the roster.
#[derive(Debug, Drop, PartialEq, Eq)]
pub struct Entry {
    /// Its name: 1 to 32 of `a` to `z`, `0` to `9` and `-`.
    pub name: Text,
    /// How it is asked.
    pub kind: ServerKind,
    /// Where it is asked.
    pub address: Address,
}

use dts_base::Text;
use utc_value::Utc;

/// What get_time is asked with.
#[derive(Clone, Copy, Debug, PartialEq, Eq)]
pub struct GetTime {
    /// The epoch of the node that asks.
    pub epoch: u8,
}

/// What get_time is answered with.
#[derive(Clone, Copy, Debug, PartialEq, Eq)]
pub struct TimeReply {
    /// The version of the stub: 1.
    pub version: u8,
    /// The epoch of the node that answers.
    pub epoch: u8,
    /// The time of that node, in units of 100 ns.
    pub utc: Utc,
    /// 0 where the reading may be used.
    pub status: u32,
}

/// What get_info is answered with.
#[derive(Debug, Drop, PartialEq, Eq)]
pub struct InfoReply {
    /// The role of the node: 0 for a clerk, 1 for a server.
    pub role: u8,
    /// 1 where the node is a courier, else 0.
    pub courier: u8,
    /// The epoch of the node.
    pub epoch: u8,
    /// The number of its current clock record.
    pub number: u64,
    /// The number of its last step.
    pub step: u64,
    /// Its name: at most 1,023 octets of 0x20 to 0x7E.
    pub name: Text,
}

/// What command is answered with.
#[derive(Debug, Drop, PartialEq, Eq)]
pub struct CommandReply {
    /// The text of the answer: at most 1,023 octets of 0x20 to 0x7E.
    pub text: Text,
    /// 0 where the command is known.
    pub status: u32,
}

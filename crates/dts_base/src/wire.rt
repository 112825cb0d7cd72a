ghost use Rattle.std.specs.Prelude.{◌≡◌};

use std::fmt;
use thiserror::Error;

/// A field of what goes over the wire: of a PDU (C706), of a stub in NDR, of a packet of NTP (RFC 5905), or
/// the input of a command.
#[derive(Clone, Copy, Debug, PartialEq, Eq)]
pub enum Field {
    /// The version of the protocol: 5 (C706).
    RpcVers,
    /// The minor version of the protocol.
    RpcVersMinor,
    /// The kind of a PDU.
    Ptype,
    /// The flags of a PDU.
    PfcFlags,
    /// The octet of the byte order and the character set.
    DrepOrder,
    /// The other three octets of the data representation.
    DrepRest,
    /// The length of a fragment.
    FragLength,
    /// The length of the authentication, which is 0 here.
    AuthLength,
    /// The number of a call.
    CallId,
    /// The greatest fragment that a peer sends.
    MaxXmit,
    /// The greatest fragment that a peer takes.
    MaxRecv,
    /// The number of an association group.
    AssocGroup,
    /// How many contexts are proposed.
    NContext,
    /// Octets that nobody looks at.
    Reserved,
    /// The number of a context.
    ContextId,
    /// How many transfer syntaxes a context has.
    NTransferSyn,
    /// The identifier of an interface.
    AbstractUuid,
    /// The version of an interface or of a transfer syntax.
    Version,
    /// The identifier of a transfer syntax.
    TransferUuid,
    /// The length of the secondary address.
    SecLength,
    /// The secondary address.
    SecAddress,
    /// Octets up to the next multiple of 4.
    Padding,
    /// How many contexts are answered.
    NResults,
    /// The result of a context.
    Result,
    /// The reason of a result.
    Reason,
    /// How many versions of the protocol are offered.
    NProtocols,
    /// The major number of an offered version.
    Major,
    /// The minor number of an offered version.
    Minor,
    /// The hint on the length of the whole stub.
    AllocHint,
    /// The number of an operation.
    Opnum,
    /// The identifier of an object.
    ObjectUuid,
    /// The arguments or the results of a call.
    Stub,
    /// How many cancels came.
    CancelCount,
    /// The status of an answer.
    Status,
    /// The epoch that clerks and servers must share.
    Epoch,
    /// The version of the stubs.
    WireVersion,
    /// A timestamp in octets.
    UtcOctets,
    /// The role of a node.
    Role,
    /// Whether a node is a courier.
    Courier,
    /// The number of the current clock record.
    Number,
    /// The number of the last step.
    StepNumber,
    /// The greatest count of a string's octets.
    MaxCount,
    /// The offset of a string, which is 0.
    StringOffset,
    /// The count of a string's octets, the last 0 included.
    ActualCount,
    /// The octets of a string.
    StringOctets,
    /// What follows the last field.
    Tail,
    /// The length of an NTP packet.
    NtpLength,
    /// The version of an NTP packet.
    NtpVersion,
    /// The input of a command.
    Input,
}

/// Why a field is refused.
#[derive(Clone, Copy, Debug, PartialEq, Eq)]
pub enum WireCause {
    /// The field is not whole.
    Short,
    /// The field has another value than those that are right.
    Value,
    /// Octets stand behind the last field.
    Extra,
    /// The whole is too long.
    Long,
}

/// The state of a session, of either end.
#[derive(Clone, Copy, Debug, PartialEq, Eq)]
pub enum State {
    /// Nothing came yet.
    New,
    /// The bind was sent and not answered.
    Binding,
    /// The bind was accepted, and no call is open.
    Bound,
    /// A call was sent and not answered.
    Waiting,
    /// A part of a call came.
    Gathering,
    /// Nothing is taken any more.
    Dead,
}

/// What is refused: the first field that is short or not right, with its first octet's offset from 0 and
/// the cause.
#[derive(Clone, Copy, Debug, PartialEq, Eq, Error)]
#[error("{field} at octet {offset}: {cause}")]
pub struct Refused {
    /// The field.
    pub field: Field,
    /// The offset of its first octet.
    pub offset: u32,
    /// Why.
    pub cause: WireCause,
}

impl Field {
    ghost use Rattle.dts_base.specs.Names.{field_name};

    /// The printed name.
    pub fn name(self) -> &'static str
        ensures name { result.now ≡ field_name self }
    {
        match self {
            Field::RpcVers => "rpc_vers",
            Field::RpcVersMinor => "rpc_vers_minor",
            Field::Ptype => "ptype",
            Field::PfcFlags => "pfc_flags",
            Field::DrepOrder => "drep_order",
            Field::DrepRest => "drep_rest",
            Field::FragLength => "frag_length",
            Field::AuthLength => "auth_length",
            Field::CallId => "call_id",
            Field::MaxXmit => "max_xmit_frag",
            Field::MaxRecv => "max_recv_frag",
            Field::AssocGroup => "assoc_group_id",
            Field::NContext => "n_context_elem",
            Field::Reserved => "reserved",
            Field::ContextId => "p_cont_id",
            Field::NTransferSyn => "n_transfer_syn",
            Field::AbstractUuid => "abstract_uuid",
            Field::Version => "version",
            Field::TransferUuid => "transfer_uuid",
            Field::SecLength => "sec_length",
            Field::SecAddress => "sec_address",
            Field::Padding => "padding",
            Field::NResults => "n_results",
            Field::Result => "result",
            Field::Reason => "reason",
            Field::NProtocols => "n_protocols",
            Field::Major => "major",
            Field::Minor => "minor",
            Field::AllocHint => "alloc_hint",
            Field::Opnum => "opnum",
            Field::ObjectUuid => "object_uuid",
            Field::Stub => "stub",
            Field::CancelCount => "cancel_count",
            Field::Status => "status",
            Field::Epoch => "epoch",
            Field::WireVersion => "wire_version",
            Field::UtcOctets => "utc_octets",
            Field::Role => "role",
            Field::Courier => "courier",
            Field::Number => "number",
            Field::StepNumber => "step_number",
            Field::MaxCount => "max_count",
            Field::StringOffset => "string_offset",
            Field::ActualCount => "actual_count",
            Field::StringOctets => "string_octets",
            Field::Tail => "tail",
            Field::NtpLength => "ntp_length",
            Field::NtpVersion => "ntp_version",
            Field::Input => "input",
        }
    }
}

impl WireCause {
    ghost use Rattle.dts_base.specs.Names.{cause_name};

    /// The printed name.
    pub fn name(self) -> &'static str
        ensures name { result.now ≡ cause_name self }
    {
        match self {
            WireCause::Short => "short",
            WireCause::Value => "value",
            WireCause::Extra => "extra",
            WireCause::Long => "long",
        }
    }
}

impl State {
    ghost use Rattle.dts_base.specs.Names.{state_name};

    /// The printed name.
    pub fn name(self) -> &'static str
        ensures name { result.now ≡ state_name self }
    {
        match self {
            State::New => "new",
            State::Binding => "binding",
            State::Bound => "bound",
            State::Waiting => "waiting",
            State::Gathering => "gathering",
            State::Dead => "dead",
        }
    }
}

impl fmt::Display for Field {
    fn fmt<W: fmt::Write>(&self, f: &mut fmt::Formatter<W>) -> fmt::Result {
        f.write_str(self.name())
    }
}

impl fmt::Display for WireCause {
    fn fmt<W: fmt::Write>(&self, f: &mut fmt::Formatter<W>) -> fmt::Result {
        f.write_str(self.name())
    }
}

impl fmt::Display for State {
    fn fmt<W: fmt::Write>(&self, f: &mut fmt::Formatter<W>) -> fmt::Result {
        f.write_str(self.name())
    }
}

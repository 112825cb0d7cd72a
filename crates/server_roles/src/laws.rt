//! Laws over the definitions: each is the contract of a call that does nothing.

ghost use Rattle.server_roles.specs.Laws.{AreServers, AreDistinct, NtpAlone, AsksLocals, AsksGlobals, AllOrNone, InTurn};
ghost use Rattle.server_roles.specs.Laws.{ClerkBringsNone, ServerBringsItsRecord, NoneWithoutOne};
ghost use Rattle.server_roles.specs.Laws.{RefusedAsItsStub, TimeIsTold, TextIsTold, ReadIsNamed, AloneIsNamed};

/// A source is a server of the roster, an NTP server or one of another name than the node, and none is asked twice: so there
/// are no more sources than servers.
pub fn sources_are_servers()
    ensures servers { AreServers }
    ensures distinct { AreDistinct }
{}

/// Where there is an NTP server, the sources are the NTP servers.
pub fn ntp_servers_are_asked_alone()
    ensures { NtpAlone }
{}

/// Without an NTP server each local server of another name is asked, and each global one where the locals are fewer than
/// the round needs or the round before used fewer answers than it needed. But for couriers, all global servers are asked or
/// none, and the round after so many takes the courier's global server at that place.
pub fn globals_are_asked_where_needed()
    ensures locals { AsksLocals }
    ensures globals { AsksGlobals }
    ensures all_or_none { AllOrNone }
    ensures in_turn { InTurn }
{}

/// A clerk brings no interval of its own, and a server that of its record, where there is one whose high end is not above
/// the greatest one of an anchor.
pub fn own_intervals_are_those_of_servers()
    ensures clerk { ClerkBringsNone }
    ensures server { ServerBringsItsRecord }
    ensures none { NoneWithoutOne }
{}

/// A call is refused exactly where its stub is, at the same field.
pub fn calls_are_refused_as_their_stubs()
    ensures { RefusedAsItsStub }
{}

/// What get_time is answered with reads back as the reading and the node's epoch, and it may be used exactly where the
/// epochs are equal. A command is answered with its text, and any but the three with one text.
pub fn answers_tell_the_reading()
    ensures time { TimeIsTold }
    ensures text { TextIsTold }
{}

/// A roster that was read, and that of a node alone, give the node a right name, as [`crate::answer`] requires.
pub fn rosters_name_their_node()
    ensures read { ReadIsNamed }
    ensures alone { AloneIsNamed }
{}

ghost use Rattle.std.specs.Prelude.{◌≡◌, None, Some, MatchResult};
ghost use Rattle.ntp_packet.specs.Judging.{first_failed, held_of};

use crate::Packet;
use thiserror::Error;

/// The mode of a server's reply.
pub const SERVER_MODE: u8 = 4;

/// The greatest stratum of a reply that is used.
pub const MAX_STRATUM: u8 = 15;

/// The leap indicator of a clock that is not synchronised.
pub const UNSYNCHRONISED: u8 = 3;

/// The greatest root delay plus twice the root dispersion of a reply that is used, in 2^-16 s: half the delay plus
/// the dispersion is then at most one second.
pub const MAX_DISTANCE: u64 = 131_072;

/// The first test of a reply that fails.
#[derive(Clone, Copy, Debug, PartialEq, Eq, Error)]
pub enum Judged {
    /// The mode is not that of a server.
    #[error("mode {found} is not that of a server")]
    Mode {
        /// The mode that was found.
        found: u8,
    },
    /// The stratum is 0: the server asks for fewer queries or none (a kiss-o'-death packet).
    #[error("a kiss of code {code:08x}")]
    Kiss {
        /// The reference identifier, four letters that say why.
        code: u32,
    },
    /// The stratum is above 15.
    #[error("stratum {found} is above {MAX_STRATUM}")]
    Stratum {
        /// The stratum that was found.
        found: u8,
    },
    /// The server's clock is not synchronised.
    #[error("the server is not synchronised")]
    Unsynchronised,
    /// The origin is not the transmit timestamp of the query.
    #[error("the origin is not that of the query")]
    Origin,
    /// The receive or the transmit timestamp is 0.
    #[error("a timestamp is 0")]
    ZeroStamp,
    /// The reply was sent before the query came.
    #[error("it was sent before the query came")]
    Order,
    /// Half the root delay plus the root dispersion is above one second.
    #[error("half the root delay plus the root dispersion is above one second")]
    Distance,
}

/// How long the server held the query, in 2^-32 s: the transmit timestamp minus the receive timestamp, wrapped, as a
/// signed number.
pub fn held(p: &Packet) -> i64
    ensures { result ≡ held_of p.now }
{
    p.transmit.wrapping_sub(p.receive).cast_signed()
}

/// Whether a reply to the query with this transmit timestamp can be used; else the first of the tests, in the order
/// of `Judged`, that fails.
#[tactic(auto, unfolding(crate::specs::Judging::first_failed))]
pub fn judge(p: &Packet, origin: u64) -> Result<(), Judged>
    ensures { MatchResult result (λ _. first_failed p.now origin ≡ None) (λ failed. first_failed p.now origin ≡ Some failed) }
{
    if p.mode != SERVER_MODE {
        return Err(Judged::Mode { found: p.mode });
    }
    if p.stratum == 0 {
        return Err(Judged::Kiss { code: p.refid });
    }
    if p.stratum > MAX_STRATUM {
        return Err(Judged::Stratum { found: p.stratum });
    }
    if p.li == UNSYNCHRONISED {
        return Err(Judged::Unsynchronised);
    }
    if p.origin != origin {
        return Err(Judged::Origin);
    }
    if p.receive == 0 || p.transmit == 0 {
        return Err(Judged::ZeroStamp);
    }
    if held(p) < 0 {
        return Err(Judged::Order);
    }
    if u64::from(p.delay) + 2 * u64::from(p.dispersion) > MAX_DISTANCE {
        return Err(Judged::Distance);
    }
    Ok(())
}

use dts_base::Refused;
use ntp_packet::Judged;
use thiserror::Error;

/// Why a packet gives no time.
#[derive(Clone, Copy, Debug, PartialEq, Eq, Error)]
pub enum ProviderFault {
    /// No query to this peer is open.
    #[error("no query is open")]
    NoQuery,
    /// It is no packet of NTP: the first wrong field.
    #[error("{0}")]
    Wrong(Refused),
    /// It can't be used as a reply to the query: the first test that fails.
    #[error("{0}")]
    Judged(Judged),
    /// An end of its interval is below 0 or above `GREATEST_TIME`.
    #[error("an end of the interval from {lo} to {hi} is out of range")]
    Range {
        /// The low end.
        lo: i128,
        /// The high end.
        hi: i128,
    },
}

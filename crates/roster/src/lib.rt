//! The roster file: who a node is, how it keeps its clock, and whom it asks for the time. It is a TOML document, as the
//! crate `toml` reads one, with the keys of one table of definitions; the first key that is wrong is named with its path
//! and the reason. The keys, their ranges and their defaults are our own choice. Times are in units of 100 ns.
#![tactic(auto)]

mod addresses;
mod cause;
mod document;
mod entry;
mod first_wrong;
mod keys;
mod laws;
mod limits;
mod path;
mod reading;
mod roster;
mod settings;
mod values;

pub use cause::{RosterCause, RosterFault};
pub use entry::{Entry, ServerKind};
pub use laws::{
    a_name_is_all_that_a_file_needs, files_are_not_refused_for_the_role,
    octets_are_one_roster_or_refused_once, rosters_keep_the_limits, whole_file_is_tested_first,
};
pub use limits::{
    DEFAULT_DRIFT_PPM, DEFAULT_EPOCH, DEFAULT_HOLD, DEFAULT_LEASE, DEFAULT_LISTEN_IP,
    DEFAULT_LISTEN_PORT, DEFAULT_MAX_INACCURACY, DEFAULT_PERIOD, DEFAULT_REQUIRED,
    DEFAULT_RESOLUTION, DEFAULT_SLEW_PPM, DEFAULT_TIMEOUT, DEFAULT_TOLERANCE, GREATEST_EPOCH,
    GREATEST_HOLD, GREATEST_LISTEN_PORT, GREATEST_MAX_INACCURACY, GREATEST_PERIOD, GREATEST_PORT,
    GREATEST_REQUIRED, GREATEST_TIMEOUT, LEAST_HOLD, LEAST_MAX_INACCURACY, LEAST_PERIOD,
    LEAST_REQUIRED, LEAST_TIMEOUT, MAX_NAME, MAX_NTP, MAX_OCTETS, MAX_SERVERS,
};
pub use roster::Roster;
pub use settings::{Role, Settings};

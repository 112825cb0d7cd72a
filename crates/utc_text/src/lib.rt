//! Times as people write them, and civil dates. The forms of the texts, their fields and what is refused are
//! our own choice, after C310.
//!
//! An absolute time is written `1970-01-01-00:00:00.0000000+00:00I0.0000000`: a civil time of the
//! Gregorian calendar, carried back to 1582-01-01, with its time differential factor and its
//! inaccuracy. A relative time is written `-00-00:00:01.0000000I-----`: days and a time of day. A
//! reader names the first field that is not right and the octet at which it begins. Times are
//! counted in units of 100 ns from 1582-10-15 00:00:00 UTC.
#![tactic(auto)]

mod calendar;
mod dates;
mod fault;
mod fields;
mod laws;
mod printing;
mod reading;
mod units;

pub use calendar::Civil;
pub use dates::{civil, from_civil};
pub use fault::{CivilFault, PrintFault, TextFault, TextField};
pub use laws::{
    a_length_or_one_fault, a_moment_or_one_fault, every_length_has_a_text,
    every_printable_moment_has_a_text, one_text_of_a_time, one_time_of_a_text,
};
pub use printing::{print_any, print_gmt, print_rel};
pub use reading::{parse_abs, parse_rel};

//! The outside of the time service: sources, sinks, oscillators, random words and links as traits
//! whose clauses say what each call gives, leaves and may fail for, and the types that every crate shares.
#![tactic(auto)]

mod address;
mod bytes;
mod interval;
mod laws;
mod link;
mod memory_calls;
mod memory_link;
mod memory_numbers;
mod memory_sink;
mod memory_source;
mod numbers;
mod outcome;
mod sink;
mod source;
mod wire;

pub use address::Address;
pub use bytes::{Bytes, Text};
pub use interval::Interval;
pub use laws::{fields_differ_by_name, one_address};
pub use link::{Arrival, Link, PeerKind, Place, Scripted, Sent, Served};
pub use memory_link::MemoryLink;
pub use memory_numbers::{MemoryOscillator, MemoryWords};
pub use memory_sink::MemorySink;
pub use memory_source::MemorySource;
pub use numbers::{MAX_OSC, Oscillator, Words};
pub use outcome::{Failed, NoMemory};
pub use sink::{Sink, write_all};
pub use source::Source;
pub use wire::{Field, Refused, State, WireCause};

//! The real outside as sources and sinks. Each adapter counts its failures and tells nothing of its
//! content: what a stream or a file really held or took is trusted, and no clause says it. A read or a write
//! that the system interrupted before it did anything is made again and is no failure. Of the last call that failed
//! each keeps what the system said. Our own choice.
#![tactic(auto)]

mod faults;
mod file_source;
mod interrupted;
mod reader_source;
mod writer_sink;

pub use file_source::FileSource;
pub use reader_source::ReaderSource;
pub use writer_sink::WriterSink;

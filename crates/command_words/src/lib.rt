//! The words of the program's command line: what each means, as `clap` reads them. The commands and their options are
//! our own choice.
#![tactic(auto)]

mod command_line;
mod laws;
mod syntax;

pub use command_line::{CommandLine, HalfOptions, NoCommand, NumberName, ShowKind, read_words};
pub use laws::words_have_their_meaning;

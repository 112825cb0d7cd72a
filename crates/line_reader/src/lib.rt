//! The lines of a source, one after the other, in bounded memory, and the fields of a line and the numbers in them.
//! Our own choice.
#![tactic(auto)]

mod buffer;
mod field_laws;
mod fields;
mod limits;
mod line_laws;
mod number;
mod reader;

pub use field_laws::{
    fields_have_columns, fields_join, number_faults_exclude, numbers_have_one_text,
};
pub use fields::Fields;
pub use limits::{MAX_LINE, MAX_LINES};
pub use line_laws::{lines_are_lines, lines_are_taken_in_order, lines_join, lines_of_joined};
pub use number::{NumberFault, number_in};
pub use reader::LineReader;

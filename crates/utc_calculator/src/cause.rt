use thiserror::Error;
use utc_routines::UtcFault;
use utc_text::{PrintFault, TextFault, TextField};
use utc_value::BytesFault;

/// Why a line of the calculator is refused: the first cause that is met in reading the line, then in
/// computing, then in printing. Its text says what is wrong and what would be right.
#[derive(Clone, Copy, Debug, PartialEq, Eq, Error)]
pub enum UtcCause {
    /// The line has more than 16,384 octets.
    #[error("a line has at most 16384 octets")]
    Long,
    /// The line is the 4,294,967,296th.
    #[error("an input has at most 4294967295 lines")]
    Lines,
    /// The first word is no operation.
    #[error("no operation stands here; a line begins with add, sub, abs, mul, span, bound, tdf, interval, mid, point, bytes or text, and none is blank or a comment")]
    Word,
    /// An operand is missing, or empty.
    #[error("an operand is missing here; operands are joined by single spaces")]
    Missing,
    /// An operand is left over.
    #[error("the line should end before this operand")]
    Extra,
    /// A number is not written as one, or out of its range.
    #[error("no such number; one in decimal without leading zeros should stand here, behind mul from -2147483648 to 2147483647, behind tdf minutes from -1439 to 1439")]
    Number,
    /// The digits are not 32 hex digits.
    #[error("these are no octets of a time; 32 hex digits should stand here")]
    Hex,
    /// A time is not written as one.
    #[error("no time is written so; {} should stand here. A moment is one word, as 1970-01-01-00:00:00, and so is a length of time, as 00-00:00:01", right_field(.0))]
    Text(TextFault),
    /// The octets are no timestamp.
    #[error("no time has these octets: {}; {}", .0, right_octets(.0))]
    Bytes(BytesFault),
    /// The operation has no result.
    #[error("no result: {}; {}", .0, right_operands(.0))]
    Routine(UtcFault),
    /// The result has no text.
    #[error("the result can't be written: {0}")]
    Print(PrintFault),
}

/// Why a line is refused, and where.
#[derive(Clone, Copy, Debug, PartialEq, Eq, Error)]
#[error("column {column}: {cause}")]
pub struct UtcRefusal {
    /// The column of what is wrong, in octets of the line from 1: an operand's first octet, in a time the first octet of
    /// the wrong field, and one past the line's end where an operand is missing there. It is 1 for what is wrong with
    /// the whole line, as a result that does not exist. A column above 4,294,967,295 is given as that.
    pub column: u32,
    /// What is wrong.
    pub cause: UtcCause,
}

impl UtcRefusal {
    ghost use Rattle.std.specs.Prelude.{◌≡◌};
    ghost use Rattle.utc_calculator.specs.Places.{refused_at, refused_whole};

    // A refusal of the operand at this column; a time is refused at its wrong field.
    pub(crate) fn at(column: usize, cause: UtcCause) -> UtcRefusal
        ensures { result ≡ refused_at column cause }
    {
        let offset = match cause {
            UtcCause::Text(fault) => fault.offset as usize,
            _ => 0,
        };
        let column = column.saturating_add(offset).min(u32::MAX as usize);
        UtcRefusal {
            column: column as u32,
            cause,
        }
    }

    // A refusal of a whole line.
    pub(crate) fn whole(cause: UtcCause) -> UtcRefusal
        ensures { result ≡ refused_whole cause }
    {
        UtcRefusal { column: 1, cause }
    }
}

// What should stand where a field of a time is wrong.
fn right_field(fault: &TextFault) -> &'static str {
    match fault.field {
        TextField::Sign => "`-` or days",
        TextField::Days => "days of 1 to 8 digits, 10675199 at most,",
        TextField::Year => "a year from 1582 to 9999",
        TextField::Month => "`-` and a month from 01 to 12",
        TextField::Day => "`-` and a day of the month, as 01,",
        TextField::Hour => "`-` and an hour from 00 to 23",
        TextField::Minute => "`:` and a minute from 00 to 59",
        TextField::Second => "`:` and a second from 00 to 59",
        TextField::Fraction => "`.` and at most 7 digits",
        TextField::TdfHour => "`+` or `-` and hours from 00 to 23",
        TextField::TdfMinute => "`:` and minutes from 00 to 59",
        TextField::Inaccuracy => "`I` and `-----`, `inf` or at most 28147497.6710654 seconds",
        TextField::Tail => "the end of the time",
    }
}

// Which octets would be right.
fn right_octets(fault: &BytesFault) -> &'static str {
    match fault {
        BytesFault::Version { .. } => "that of a moment is 1, and that of a length of time 2",
        BytesFault::Tdf { .. } => "a moment has -1439 to 1439, and a length of time 0",
    }
}

// Which operands would be right.
fn right_operands(fault: &UtcFault) -> &'static str {
    match fault {
        UtcFault::Kinds => {
            "add takes one moment at most, sub no moment from a length of time, abs and mul a length, tdf a moment, and the others two of one kind"
        }
        UtcFault::Overflow => "a time is a number of 64 bits, in units of 100 ns",
        UtcFault::OutOfOrder => "bound takes the earlier one first",
        UtcFault::Unspecified => "point takes a time with `I` and seconds",
        UtcFault::TdfRange => "it is from -1439 to 1439 minutes",
    }
}

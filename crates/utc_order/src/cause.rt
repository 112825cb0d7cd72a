use dts_base::NoMemory;
use thiserror::Error;
use utc_text::TextFault;

/// Why a line is refused: the first cause in the order of the variants.
#[derive(Clone, Copy, Debug, PartialEq, Eq, Error)]
pub enum OrderCause {
    /// The line is the 100,001st.
    #[error("an input has at most 100000 lines")]
    Lines,
    /// The line has more than 1,024 octets.
    #[error("a line has at most 1024 octets")]
    Long,
    /// The line does not begin with the number of a host, 0 to 63 in decimal, and a space or the line's end.
    #[error("no host stands here; a line begins with a number from 0 to 63")]
    Host,
    /// No moment stands behind the host and a space.
    #[error("no moment stands behind the host: {0}")]
    Time(TextFault),
    /// No space stands behind the moment.
    #[error("no space stands behind the moment, where a text should begin")]
    Text,
    /// The line is certainly earlier than one of its host that was read before it.
    #[error("the line is certainly earlier than line {earlier}, which is of the same host")]
    Backward {
        /// The number of the first such line, from 1.
        earlier: u32,
    },
}

/// What comes of ordering an input.
#[derive(Clone, Copy, Debug, PartialEq, Eq, Error)]
pub enum OrderStatus {
    /// The whole input is read and its lines are written in their order.
    #[error("done")]
    Done,
    /// A line is refused. Nothing was written.
    #[error("line {line}: {cause}")]
    Refused {
        /// Its number, from 1.
        line: u32,
        /// What is wrong with it.
        cause: OrderCause,
    },
    /// The input failed. Nothing was written.
    #[error("the input can't be read")]
    ReadFault,
    /// The output failed. What was written is the beginning of the text.
    #[error("the output can't be written")]
    WriteFault,
    /// No memory was found. What was written is nothing, or the beginning of the text.
    #[error("out of memory")]
    NoMemory,
}

impl From<NoMemory> for OrderStatus {
    ghost use Rattle.std.specs.Prelude.{◌≡◌};
    ghost use Rattle.utc_order.specs.declared.cause.OrderStatus.TheVariants.{NoMemory};

    ghost from_gives = { λ _ e. e ≡ NoMemory };

    fn from(_: NoMemory) -> Self {
        OrderStatus::NoMemory
    }
}

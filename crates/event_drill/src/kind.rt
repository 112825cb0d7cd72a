/// What a drill means to make of an event. A read stands in the place of what cannot be.
#[derive(Clone, Copy, Debug, PartialEq, Eq)]
pub enum Kind {
    /// A tick.
    Tick,
    /// A read of the clock.
    Read,
    /// The asking of a tag.
    Query,
    /// The answer to the oldest tag that is open.
    Source,
    /// The end of a round.
    Adopt,
}

/// The kinds, of which a draw takes one.
pub const KINDS: [Kind; 8] = [
    Kind::Tick,
    Kind::Tick,
    Kind::Read,
    Kind::Read,
    Kind::Query,
    Kind::Query,
    Kind::Source,
    Kind::Adopt,
];

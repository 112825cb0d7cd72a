/// What a lane tells of itself. A sum that would pass the last value of its type stays at it.
#[derive(Clone, Copy, Debug, PartialEq, Eq)]
pub struct Counts {
    /// The number of the lane.
    pub lane: u32,
    /// The asks that came, the one that is being answered included.
    pub asks: u64,
    /// The PDUs, stubs and sessions that were refused.
    pub refused: u64,
    /// The connections that are open.
    pub connections: u32,
}

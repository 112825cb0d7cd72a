/// Where a line stands in the order: by key, then by host, then by index.
#[derive(Clone, Copy, Debug, PartialEq, Eq, PartialOrd, Ord)]
pub struct Place {
    /// The greatest earliest point of its host up to and with it, in units of 100 ns; `None` where there is none.
    pub key: Option<i128>,
    /// Its host.
    pub host: u8,
    /// How many lines were read before it.
    pub index: u32,
}

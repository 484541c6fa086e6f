//! The four changes of a packet's lengths, as a value that a script names and a packet carries out.

/// A change of a packet's lengths, by this many bytes.
#[derive(Clone, Copy, PartialEq, Eq, Debug)]
pub enum Change {
    /// More at the end of the last segment's data.
    Append(u16),
    /// More in front of the first segment's data.
    Prepend(u16),
    /// Fewer at the front of the first segment's data.
    Adj(u16),
    /// Fewer at the end of the last segment's data.
    Trim(u16),
}

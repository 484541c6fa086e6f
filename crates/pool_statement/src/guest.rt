//! What packets of another pool hold of a pool.

/// A worker's hold of an element for a packet of another pool: the element is the base of one of
/// that packet's segments.
#[derive(Clone, Copy, PartialEq, Eq, Debug)]
pub struct Guest {
    /// The worker, from 1.
    pub worker: u32,
    /// The element.
    pub elem: u32,
}

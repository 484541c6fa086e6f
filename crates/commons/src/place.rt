//! Where an element of the lists is: in exactly one of three places.

/// Where an element is.
#[derive(Clone, Copy, PartialEq, Eq, Debug)]
pub enum Place {
    /// In the common list.
    Common,
    /// In the hand of the worker of this number.
    Hand(u32),
    /// Held, with this reference count.
    Held(u32),
}

//! What is called around the lines of workers in threads.

/// What is called around each line of a worker, outside any lock. `nth` counts that worker's lines
/// from 1.
pub trait Gate: Sync {
    /// Ahead of the line's first try.
    fn before(&self, worker: u32, nth: u32);

    /// When its last reply is there.
    fn after(&self, worker: u32, nth: u32);
}

/// A gate that does nothing.
#[derive(Clone, Copy)]
pub struct OpenGate;

impl Gate for OpenGate {
    fn before(&self, _worker: u32, _nth: u32) {}

    fn after(&self, _worker: u32, _nth: u32) {}
}

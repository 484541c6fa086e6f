//! What kind of file a task is done with.
ghost use Rattle.std.specs.Prelude.{◌≡◌};
ghost use Rattle.tasks.specs.Forms.{kind_of, most_read};

use crate::task::Task;
use script_io::BYTES_READ;
use snapshot_json::MAX_BYTES;

/// What a file is.
#[derive(Clone, Copy)]
pub enum Kind {
    /// A script, of which no more bytes are read than show that they are too many.
    Script,
    /// A snapshot of a pool, of which as many are read too.
    Snapshot,
}

impl Kind {
    /// The most bytes of such a file that are read: one more than it may have.
    pub fn most_read(self) -> usize
        ensures { result ≡ most_read self }
    {
        match self {
            Kind::Script => BYTES_READ,
            Kind::Snapshot => MAX_BYTES + 1,
        }
    }
}

impl Task {
    /// What it is done with.
    pub fn kind(self) -> Kind
        ensures { result ≡ kind_of self }
    {
        match self {
            Task::Audit(_) | Task::Picture => Kind::Snapshot,
            _ => Kind::Script,
        }
    }
}

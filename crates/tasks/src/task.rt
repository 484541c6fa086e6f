//! What is to be done with a script or a snapshot, and in which form it is printed.

ghost use Rattle.std.specs.Prelude.{◌≡◌, ◌≤◌, MatchOption};

use script::Grounds;

/// In which form it is printed where each element is at the end.
#[derive(Clone, Copy, PartialEq, Eq, Debug)]
pub enum Form {
    /// Line by line; after the replies, if it is a replay.
    Text,
    /// As one line of JSON.
    Json,
}

/// How often a line is tried in all, at least once.
#[derive(Clone, Copy, PartialEq, Eq, Debug)]
pub struct Turns {
    count: u32,
    ghost at_least_one: { 1 ≤ count },
}

impl Turns {
    /// This many turns, if they are any.
    pub fn new(count: u32) -> Option<Turns>
        ensures { MatchOption result (count ≡ 0) (λ turns. turns.count ≡ count) }
    {
        if count == 0 {
            None
        } else {
            Some(Turns { count })
        }
    }

    /// How many they are.
    pub fn count(self) -> u32
        ensures count { result ≡ self.count }
        ensures some { 1 ≤ result }
    {
        self.count
    }
}

/// What is to be done with a script or a snapshot.
#[derive(Clone, Copy, PartialEq, Eq, Debug)]
pub enum Task {
    /// Its replay in one thread.
    Replay(Form),
    /// What its pools leave at the end of such a replay, as snapshots.
    ReplaySnapshot,
    /// Its run with a thread for each worker, on a pool that rests on this.
    Run(Grounds, Turns, Form),
    /// What its pools leave at the end of such a run, as snapshots.
    RunSnapshot(Grounds, Turns),
    /// Such a run at whose end this worker is lost: what is lost with it.
    RunLost(Grounds, Turns, u32, Form),
    /// Its steps, each on one word or slot.
    Steps,
    /// Of a snapshot, its audit.
    Audit(Form),
    /// Of a snapshot, a picture of the pool.
    Picture,
}

/// What is asked for: what is to be done with a file.
#[derive(Clone, Copy, PartialEq, Eq, Debug)]
pub struct Request<'a> {
    pub file: &'a str,
    pub task: Task,
}

/// Two snapshots of one pool: asked for is the audit of the newer one, and which packets stay since the
/// older one.
#[derive(Clone, Copy, PartialEq, Eq, Debug)]
pub struct Pair<'a> {
    pub newer: &'a str,
    pub older: &'a str,
    pub form: Form,
}

/// A file with a snapshot, or with two: asked for are all their faults.
#[derive(Clone, Copy, PartialEq, Eq, Debug)]
pub struct Listing<'a> {
    pub file: &'a str,
    pub form: Form,
}

/// What is asked for: something of one file, explained or not, or of two snapshots, or all faults.
#[derive(Clone, Copy, PartialEq, Eq, Debug)]
pub enum Asked<'a> {
    One(Request<'a>),
    /// The same, and of a script that isn't one why.
    Explained(Request<'a>),
    Two(Pair<'a>),
    All(Listing<'a>),
}

//! How long a run is, and what came of it.

use crate::failures::Failure;
use crate::figures::since;
use std::hint::spin_loop;
use std::time::{Clock, Instant};

/// How many nanoseconds the threads of a run have to get ready, before all of them begin.
const READY: u64 = 20_000_000;

/// Rounds that a thread does again and again.
pub trait Rounds {
    /// Does this many rounds, and answers how many elements were refused.
    fn rounds(&mut self, count: u64) -> u64;
}

/// How long a run is.
#[derive(Clone, Copy)]
pub enum Length {
    /// So many milliseconds, and to the end of the batch that goes on then.
    Millis(u64),
    /// One batch of so many rounds.
    Rounds(u64),
}

impl Length {
    /// For how many nanoseconds a run goes on, and how many rounds a batch has, which are these
    /// where the length is a time.
    pub fn nanos_and_batch(self, usual: u64) -> (u64, u64) {
        match self {
            Length::Millis(millis) => (millis.saturating_mul(1_000_000), usual),
            Length::Rounds(rounds) => (0, rounds),
        }
    }
}

/// When the threads of a run begin, and how long each goes on.
#[derive(Clone, Copy)]
pub struct Span {
    /// When the pool was made. All threads begin so long after that.
    pub made: Instant,
    /// For how many nanoseconds each goes on, and ends with the batch that it is in then.
    pub nanos: u64,
    /// How many rounds are done between two looks at the clock.
    pub batch: u64,
}

/// What a thread has done.
#[derive(Clone, Copy)]
pub struct Tally {
    /// The nanoseconds that it took.
    pub nanos: u64,
    /// How many rounds.
    pub rounds: u64,
    /// How many elements were refused.
    pub refused: u64,
}

/// Does a quarter of a batch first, so that all memory has been touched; waits until the run
/// begins; and does batch after batch until its time has passed, one at least.
pub fn timed<R: Clock, W: Rounds>(rt: &R, work: &mut W, span: &Span) -> Result<Tally, Failure> {
    let _warm = work.rounds(span.batch / 4 + 1);
    wait(rt, span.made)?;
    let start = Instant::now(rt)?;
    let mut tally = Tally {
        nanos: 0,
        rounds: 0,
        refused: 0,
    };
    for _batch in 0..u64::MAX {
        let refused = work.rounds(span.batch);
        tally.refused = tally.refused.saturating_add(refused);
        tally.rounds = tally.rounds.saturating_add(span.batch);
        tally.nanos = since(rt, start)?;
        if tally.nanos >= span.nanos {
            break;
        }
    }
    Ok(tally)
}

/// Waits until all threads are to begin.
fn wait<R: Clock>(rt: &R, made: Instant) -> Result<(), Failure> {
    for _look in 0..u64::MAX {
        if since(rt, made)? >= READY {
            break;
        }
        spin_loop();
    }
    Ok(())
}

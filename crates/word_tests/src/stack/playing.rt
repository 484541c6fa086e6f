//! Workers who get lists and put them back.

ghost use Rattle.std.specs.Prelude.{◌≡◌, ◌<◌, ◌≤◌, length};
ghost use Rattle.word_tests.specs.Idle.{IsIdle, Stays};

use commons::refusal::Refusal;
use commons::shared::Commons;
use ground::pool::Ground;
use ground::seat::GroundSeat;
use stack_lf::words::WordCommons;
use std::alloc::Global;

/// The most elements that a worker gets at once.
pub(super) const MOST: usize = 32;

/// A worker of a pool, who can be sent to a thread: where none takes it, its seat is lost.
pub(super) struct Worker {
    pub seat: GroundSeat,
}

impl Drop for Worker {
    fn drop(self) {
        let Worker { seat } = self;
        seat.lose();
    }
}

impl Worker {
    /// The worker's seat.
    pub(super) fn into_seat(self) -> GroundSeat
        ensures { result ≡ self.seat }
    {
        let Worker { seat } = self;
        seat
    }
}

/// What a worker has done.
pub(super) struct Played {
    pub seat: GroundSeat,
    /// The elements of the worker's hand.
    pub kept: Vec<u32>,
    /// How many lists went there and back.
    pub met: u64,
    /// How many gets or puts were refused.
    pub refused: u64,
    /// False where a refusal was neither `NoEntries` nor `Contended`, or memory was refused.
    pub sound: bool,
}

/// Gets as many elements as `out` has places for, and puts the same back: the answer of the put,
/// where the get succeeded.
pub(super) fn there_and_back(
    c: &mut WordCommons,
    out: &mut [u32],
) -> Result<Result<(), Refusal>, Refusal>
    requires { 0 < length out.old }
    ensures { Stays c.old.seat c.new.seat }
{
    c.get_list(out)?;
    Ok(c.put_list(out))
}

/// What a worker's lists were answered so far.
#[derive(Drop)]
struct Tally {
    kept: Vec<u32>,
    met: u64,
    refused: u64,
    sound: bool,
}

impl Tally {
    /// One more refusal, which is one that the worker has to reckon with, or isn't.
    fn refuse(&mut self, sound: bool) {
        self.refused = self.refused.saturating_add(1);
        self.sound &= sound;
    }

    /// One more list, and the answer of its get and of its put. What isn't put back is kept.
    fn note(&mut self, answer: Result<Result<(), Refusal>, Refusal>, out: &[u32]) {
        match answer {
            Ok(Ok(())) => self.met = self.met.saturating_add(1),
            Ok(Err(refusal)) => {
                let is_kept = self.kept.extend_from_slice(out).is_ok();
                self.refuse(is_kept && refusal == Refusal::Contended);
            }
            Err(Refusal::Contended | Refusal::NoEntries) => self.refuse(true),
            Err(_) => self.refuse(false),
        }
    }
}

/// A worker who gets a list of `n` elements and puts it back, again and again. A list whose put is
/// refused stays in the hand.
pub(super) fn rounds(alloc: Global, ground: &Ground, worker: Worker, n: usize, times: u32) -> Played
    requires idle { IsIdle ground.now worker.seat }
    requires some { 0 < n }
    requires most { n ≤ 32 }
    ensures { IsIdle ground.now result.seat }
{
    let mut c = WordCommons::new(ground, worker.into_seat());
    let mut tally = Tally {
        kept: Vec::new(alloc),
        met: 0,
        refused: 0,
        sound: true,
    };
    for _ in 0..times {
        let mut places = [0; MOST];
        let out = &mut places[..n];
        let answer = there_and_back(&mut c, out);
        tally.note(answer, out);
    }
    let Tally {
        kept,
        met,
        refused,
        sound,
    } = tally;
    Played {
        seat: c.into_seat(),
        kept,
        met,
        refused,
        sound,
    }
}

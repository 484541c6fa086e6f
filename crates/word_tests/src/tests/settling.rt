//! The end of a pool over words.

ghost use Rattle.std.specs.Prelude.{◌≡◌, IfOk};
ghost use Rattle.word_tests.specs.Idle.{IsIdle};

use super::players::Retired;
use book::book::Book;
use book::settling::{Unsettled, settle};
use book::share::hand_in;
use commons::closed::Closed;
use commons::limits::Limits;
use commons::refusal::Refusal;
use ground::pool::Ground;
use ground::seat::GroundSeat;
use mbuf::packets::Packets;
use pool_statement::statement::Statement;
use std::alloc::Global;

/// The one seat that is left, and the book with the shares so far.
pub(super) struct Ending {
    pub(super) seat: GroundSeat,
    pub(super) book: Book,
}

impl Drop for Ending {
    fn drop(self) {
        let Ending { seat, book } = self;
        seat.lose();
        book.lose();
    }
}

/// Puts a worker's share in a book. One whose place is taken is lost.
fn deposit(book: &mut Book, packets: Packets) {
    if let Err((_, share)) = book.deposit(hand_in(packets)) {
        share.lose();
    }
}

impl Ending {
    /// Begins the end of a pool with one of its workers.
    pub(super) fn begin(alloc: Global, limits: &Limits, first: Retired) -> Result<Ending, Refusal>
        ensures { IfOk result (λ ending. ending.seat ≡ first.seat) }
    {
        let mut book = Book::make(alloc, limits)?;
        let (seat, packets) = first.into_parts();
        deposit(&mut book, packets);
        Ok(Ending { seat, book })
    }

    /// Ends one more worker.
    pub(super) fn add(&mut self, ground: &Ground, other: Retired)
        requires first { IsIdle ground.now self.old.seat }
        requires other { IsIdle ground.now other.seat }
        ensures { IsIdle ground.now self.new.seat }
    {
        let (seat, packets) = other.into_parts();
        ground.join(&mut self.seat, seat);
        deposit(&mut self.book, packets);
    }

    /// Ends one more worker, whose share isn't handed in.
    pub(super) fn add_without_share(&mut self, ground: &Ground, other: Retired)
        requires first { IsIdle ground.now self.old.seat }
        requires other { IsIdle ground.now other.seat }
        ensures { IsIdle ground.now self.new.seat }
    {
        let (seat, packets) = other.into_parts();
        ground.join(&mut self.seat, seat);
        packets.lose();
    }

    /// Closes the pool. The book has the shares so far.
    pub(super) fn close(self, ground: Ground) -> Result<(Closed, Book), Refusal>
        requires { IsIdle ground self.seat }
    {
        let Ending { seat, book } = self;
        match ground.close(seat) {
            Ok(closed) => Ok((closed, book)),
            Err((refusal, _, seat)) => {
                seat.lose();
                book.lose();
                Err(refusal)
            }
        }
    }

    /// Closes the pool, and settles it.
    pub(super) fn settle(
        self,
        alloc: Global,
        ground: Ground,
    ) -> Result<Result<Statement, Unsettled>, Refusal>
        requires { IsIdle ground self.seat }
    {
        let (closed, book) = self.close(ground)?;
        match settle(alloc, closed, book) {
            Ok(statement) => Ok(Ok(statement)),
            Err((cause, _, book)) => {
                book.lose();
                Ok(Err(cause))
            }
        }
    }
}

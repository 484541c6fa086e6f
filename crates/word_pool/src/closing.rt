//! How a ground is closed by the one seat that is left of it.

ghost use Rattle.std.specs.Prelude.{◌≡◌, IfErr, IfOk};
ghost use Rattle.ground.specs.Seats.{IsOf};
ghost use Rattle.word_pool.specs.inside.Closing.{IsClosedBy};

use commons::closed::Closed;
use commons::limits::Limits;
use commons::refusal::Refusal;
use ground::pool::Ground;
use ground::seat::GroundSeat;

/// Closes a ground by this seat: its limits, and what it leaves.
///
/// Refused `OutOfMemory` where memory was refused. The ground is ended and the seat is lost then
/// too.
pub(crate) fn closed_by(ground: Ground, seat: GroundSeat) -> Result<(Limits, Closed), Refusal>
    requires { IsOf ground seat }
    ensures closed { IfOk result (λ left. IsClosedBy ground seat.known left.0 left.1) }
    ensures memory { IfErr result (λ e. e ≡ Refusal.OutOfMemory) }
{
    let limits = ground.limits();
    match ground.close(seat) {
        Ok(closed) => Ok((limits, closed)),
        Err((cause, _, seat)) => {
            seat.lose();
            Err(cause)
        }
    }
}

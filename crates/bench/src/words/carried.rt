//! A seat on its way into a thread.

ghost use Rattle.std.specs.Prelude.{◌≡◌};

use ground::seat::GroundSeat;

/// A seat that is carried into a thread: where none takes it, it is lost.
pub struct Carried {
    pub seat: GroundSeat,
}

impl Drop for Carried {
    fn drop(self) {
        let Carried { seat } = self;
        seat.lose();
    }
}

impl Carried {
    /// The seat.
    pub fn into_seat(self) -> GroundSeat
        ensures { result ≡ self.seat }
    {
        let Carried { seat } = self;
        seat
    }
}

//! Parcels whose type says of which pool they are, so that whatever they lie in keeps that.

ghost use Rattle.std.specs.Prelude.{◌≡◌};
ghost use Rattle.ground.specs.Seats.{IsOf};

use crate::parcel::Parcel;
use std::marker::{Brand, Model, PhantomData};

/// The ground that the parcels of a type are of.
///
/// A ground is known at run time alone. So what is done with its parcels is generic in such a type,
/// with the precondition that the ground is `H.ground`; and who has the ground calls it at `Brand`,
/// and picks the ground in the proof of that call.
pub trait Home {
    ghost use Rattle.ground.specs.Seats.{Grounded};

    ghost ground: { Grounded };
}

impl Home for Brand {
    ghost use Rattle.word_pool.specs.Mails.{nowhere};

    ghost ground = { nowhere };
}

/// A parcel of the ground that its type names: in a channel, a lock or a map it stays one, and whoever
/// takes it out may receive it. One that is dropped is lost, as `Parcel::lose` says.
pub struct Mail<H: Home> {
    parcel: Parcel,
    of: PhantomData<H>,
}

impl<H: Home> Model for Mail<H> {
    ghost use Rattle.word_pool.specs.Parcels.{Parcelled};
    ghost use Rattle.ground.specs.Seats.{IsOf};

    ghost Value = { Parcelled };

    ghost view = { λ m. m.parcel };

    ghost invariant = { λ m. IsOf H.ground m.parcel.seat };
}

impl<H: Home> Mail<H> {
    /// This parcel, which is of that ground.
    pub fn new(parcel: Parcel) -> Mail<H>
        requires { IsOf H.ground parcel.seat }
        ensures { result ≡ parcel }
    {
        Mail {
            parcel,
            of: PhantomData,
        }
    }

    /// The parcel, which may be received by any worker of the ground.
    pub fn open(self) -> Parcel
        ensures parcel { result ≡ self }
        ensures of { IsOf H.ground self.seat }
    {
        let Mail { parcel, of: _ } = self;
        parcel
    }
}

impl<H: Home> Drop for Mail<H> {
    fn drop(self) {
        self.open().lose();
    }
}

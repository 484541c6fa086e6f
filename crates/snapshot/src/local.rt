//! Segments as their own pool sees them.

ghost use Rattle.std.specs.Prelude.{◌≡◌};
ghost use Rattle.pool_model.specs.Guests.{local_seg};

use commons::packet::Seg;

/// The segment, without its base where that is an element of another pool.
pub(crate) fn local(seg: Seg, foreign: bool) -> Seg
    ensures { result ≡ local_seg foreign seg }
{
    if foreign {
        Seg { base: None, ..seg }
    } else {
        seg
    }
}

//! What the lists of a pool without desks leave, while they stay: so two pools can be closed
//! together, or neither.

ghost use Rattle.std.specs.Prelude.{◌≡◌, IfOk};
ghost use Rattle.commons.specs.Closing.{closed_of};

use commons::closed::{Closed, words};
use commons::seq::Seq;
use commons::site::PlainSite;
use std::alloc::{AllocError, Global};

/// What a site without desks leaves as plain data: what `PlainSite::close` would.
pub(crate) fn left_without_desks(alloc: Global, site: &PlainSite) -> Result<Closed, AllocError>
    requires { site.now.limits.desks ≡ 0 }
    ensures { IfOk result (λ c. c ≡ closed_of site.now) }
{
    let _limits = site.limits();
    let (top, links, counts) = words(alloc, site.common(), site.places())?;
    Ok(Closed {
        top,
        length: site.common_count() as u64,
        links: Seq::new(links),
        counts: Seq::new(counts),
        desks: Seq::new(Vec::new(alloc)),
    })
}

//! What each step answers its seat, and how seats part and join.

use crate::magazine::Magazine;
use crate::view::View;
use atomic_table::{Join, Play, Split};

pub(crate) struct LoadsHead;

impl Play<Magazine, View> for LoadsHead {
    ghost use Rattle.depot.specs.Answers.{loads_head};

    ghost then = { loads_head };
}

pub(crate) struct LoadsLink;

impl Play<Magazine, View> for LoadsLink {
    ghost use Rattle.depot.specs.Answers.{loads_link};

    ghost then = { loads_link };
}

pub(crate) struct TakesTop;

impl Play<Magazine, View> for TakesTop {
    ghost use Rattle.depot.specs.Answers.{takes_top};

    ghost then = { takes_top };
}

pub(crate) struct StoresLink;

impl Play<Magazine, View> for StoresLink {
    ghost use Rattle.depot.specs.Answers.{stores_link};

    ghost then = { stores_link };
}

pub(crate) struct GivesTop;

impl Play<Magazine, View> for GivesTop {
    ghost use Rattle.depot.specs.Answers.{gives_top};

    ghost then = { gives_top };
}

pub(crate) struct Notes;

impl Play<Magazine, View> for Notes {
    ghost use Rattle.depot.specs.Answers.{notes};

    ghost then = { notes };
}

pub(crate) struct RestsOut;

impl Play<Magazine, View> for RestsOut {
    ghost use Rattle.depot.specs.Placing.{rests_out};

    ghost then = { rests_out };
}

pub(crate) struct RestsIn;

impl Play<Magazine, View> for RestsIn {
    ghost use Rattle.depot.specs.Placing.{rests_in};

    ghost then = { rests_in };
}

pub(crate) struct LooksToGet;

impl Play<Magazine, View> for LooksToGet {
    ghost use Rattle.depot.specs.Placing.{looks_get};

    ghost then = { looks_get };
}

pub(crate) struct LooksToPut;

impl Play<Magazine, View> for LooksToPut {
    ghost use Rattle.depot.specs.Placing.{looks_put};

    ghost then = { looks_put };
}

pub(crate) struct Claims;

impl Play<Magazine, View> for Claims {
    ghost use Rattle.depot.specs.Placing.{claims_it};

    ghost then = { claims_it };
}

pub(crate) struct TakesBack;

impl Play<Magazine, View> for TakesBack {
    ghost use Rattle.depot.specs.Placing.{takes_back};

    ghost then = { takes_back };
}

pub(crate) struct Parts;

impl Split<View> for Parts {
    ghost use Rattle.depot.specs.Answers.{kept_part, other_part};

    ghost left = { kept_part };

    ghost right = { other_part };
}

impl Join<View> for Parts {
    ghost use Rattle.depot.specs.Answers.{both_views, spent_view};

    ghost both = { both_views };

    ghost spent = { spent_view };
}

pub(crate) struct Deals;

impl Split<View> for Deals {
    ghost use Rattle.depot.specs.Dealing.{with_first, with_others};

    ghost left = { with_first };

    ghost right = { with_others };
}

//! What each step answers its seat, and how seats part and join.

use crate::known::Known;
use atomic_table::{Join, Play, Split};
use commons::packet::Packet;

pub(crate) struct LoadsLength;

impl Play<Option<Packet>, Known> for LoadsLength {
    ghost use Rattle.ground.specs.StepAnswers.{loaded_length};

    ghost then = { loaded_length };
}

pub(crate) struct Reserves;

impl Play<Option<Packet>, Known> for Reserves {
    ghost use Rattle.ground.specs.StepAnswers.{reserved};

    ghost then = { reserved };
}

pub(crate) struct Adds;

impl Play<Option<Packet>, Known> for Adds {
    ghost use Rattle.ground.specs.StepAnswers.{added};

    ghost then = { added };
}

pub(crate) struct LoadsHead;

impl Play<Option<Packet>, Known> for LoadsHead {
    ghost use Rattle.ground.specs.StepAnswers.{loaded_head};

    ghost then = { loaded_head };
}

pub(crate) struct LoadsLink;

impl Play<Option<Packet>, Known> for LoadsLink {
    ghost use Rattle.ground.specs.StepAnswers.{loaded_link};

    ghost then = { loaded_link };
}

pub(crate) struct Cuts;

impl Play<Option<Packet>, Known> for Cuts {
    ghost use Rattle.ground.specs.StepAnswers.{cut_answers};

    ghost then = { cut_answers };
}

pub(crate) struct StoresLink;

impl Play<Option<Packet>, Known> for StoresLink {
    ghost use Rattle.ground.specs.StepAnswers.{stored_link};

    ghost then = { stored_link };
}

pub(crate) struct Pushes;

impl Play<Option<Packet>, Known> for Pushes {
    ghost use Rattle.ground.specs.StepAnswers.{push_answers};

    ghost then = { push_answers };
}

pub(crate) struct Parts;

impl Split<Known> for Parts {
    ghost use Rattle.ground.specs.Parting.{less_part, newcomer};

    ghost left = { less_part };

    ghost right = { newcomer };
}

pub(crate) struct Chooses;

impl Play<Option<Packet>, Known> for Chooses {
    ghost use Rattle.ground.specs.StepAnswers.{chosen};

    ghost then = { chosen };
}

pub(crate) struct Lends;

impl Split<Known> for Lends {
    ghost use Rattle.ground.specs.Parting.{left_by_loan, lent_loan};

    ghost left = { left_by_loan };

    ghost right = { lent_loan };
}

pub(crate) struct LendsLast;

impl Split<Known> for LendsLast {
    ghost use Rattle.ground.specs.Parting.{left_by_last, lent_last};

    ghost left = { left_by_last };

    ghost right = { lent_last };
}

pub(crate) struct Begins;

impl Play<Option<Packet>, Known> for Begins {
    ghost use Rattle.ground.specs.StepAnswers.{begun};

    ghost then = { begun };
}

pub(crate) struct NotesBase;

impl Play<Option<Packet>, Known> for NotesBase {
    ghost use Rattle.ground.specs.StepAnswers.{base_noted};

    ghost then = { base_noted };
}

pub(crate) struct NotesOwn;

impl Play<Option<Packet>, Known> for NotesOwn {
    ghost use Rattle.ground.specs.StepAnswers.{own_noted};

    ghost then = { own_noted };
}

pub(crate) struct LendsPacket;

impl Split<Known> for LendsPacket {
    ghost use Rattle.ground.specs.Parting.{left_by_noted, lent_noted};

    ghost left = { left_by_noted };

    ghost right = { lent_noted };
}

impl Join<Known> for Parts {
    ghost use Rattle.ground.specs.Parting.{both, spent_seat};

    ghost both = { both };

    ghost spent = { spent_seat };
}

pub(crate) struct Looks;

impl Play<Option<Packet>, Known> for Looks {
    ghost use Rattle.ground.specs.StepAnswers.{looked};

    ghost then = { looked };
}

pub(crate) struct Claims;

impl Play<Option<Packet>, Known> for Claims {
    ghost use Rattle.ground.specs.StepAnswers.{claim_answers};

    ghost then = { claim_answers };
}

pub(crate) struct ReadsCount;

impl Play<Option<Packet>, Known> for ReadsCount {
    ghost use Rattle.std.specs.Prelude.{false};
    ghost use Rattle.ground.specs.StepAnswers.{sole_answers};

    ghost then = { sole_answers false };
}

pub(crate) struct Frees;

impl Play<Option<Packet>, Known> for Frees {
    ghost use Rattle.std.specs.Prelude.{true};
    ghost use Rattle.ground.specs.StepAnswers.{sole_answers};

    ghost then = { sole_answers true };
}

pub(crate) struct Raises;

impl Play<Option<Packet>, Known> for Raises {
    ghost use Rattle.ground.specs.StepAnswers.{raise_answers};

    ghost then = { raise_answers };
}

pub(crate) struct Lowers;

impl Play<Option<Packet>, Known> for Lowers {
    ghost use Rattle.ground.specs.StepAnswers.{lower_answers};

    ghost then = { lower_answers };
}

pub(crate) struct Resets;

impl Play<Option<Packet>, Known> for Resets {
    ghost use Rattle.ground.specs.StepAnswers.{reset_answers};

    ghost then = { reset_answers };
}

pub(crate) struct HoldsDesk;

impl Play<Option<Packet>, Known> for HoldsDesk {
    ghost use Rattle.ground.specs.DeskAnswers.{hold_answers};

    ghost then = { hold_answers };
}

pub(crate) struct OpensDesk;

impl Play<Option<Packet>, Known> for OpensDesk {
    ghost use Rattle.ground.specs.DeskAnswers.{open_answers};

    ghost then = { open_answers };
}

pub(crate) struct SeizesDesk;

impl Play<Option<Packet>, Known> for SeizesDesk {
    ghost use Rattle.ground.specs.DeskAnswers.{seize_answers};

    ghost then = { seize_answers };
}

pub(crate) struct ClearsDesk;

impl Play<Option<Packet>, Known> for ClearsDesk {
    ghost use Rattle.ground.specs.DeskAnswers.{clear_answers};

    ghost then = { clear_answers };
}

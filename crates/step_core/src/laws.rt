//! Laws of the machine. Each is a function that does nothing, and its contract is the law.

ghost use Rattle.step_core.specs.Handing.{GivesWhatWasPutIn};
ghost use Rattle.step_core.specs.Headers.{OpensWithHeaders, KeepsHeaders, SchedulesKeepHeaders};
ghost use Rattle.step_core.specs.Headline.{AllAreThere, LengthIsBounded, FrontThenRest, LostIsLater, ChainIsOfHand, CutGetsAll, SchedulesAreRuns, HeldIsLeft, NotGivenAgain, StoppedKeepsItsView};
ghost use Rattle.step_core.specs.Runs.{EveryScheduleWalks};
ghost use Rattle.step_core.specs.Schedules.{OpensLawful, KeepsLaw, MakesItsEvent, ChangesLittle, MakesItsView, LawfulShows};

/// The opening world is lawful.
pub fn the_opening_is_lawful()
    ensures { OpensLawful }
{}

/// A step keeps every law, whichever worker with a part takes it.
pub fn a_step_keeps_the_law()
    ensures { KeepsLaw }
{}

/// A step is its one event of the table, by the worker that steps, or none.
pub fn a_step_is_its_event()
    ensures { MakesItsEvent }
{}

/// A step changes at most one word or slot, and no other worker's view.
pub fn a_step_changes_little()
    ensures { ChangesLittle }
{}

/// A step that is played makes of its worker's view what `view_after` tells of the step and its
/// outcome, by the slot that stood at its desk before; every other worker's view stays as it is.
pub fn a_step_makes_the_view_that_is_told()
    ensures { MakesItsView }
{}

/// A lawful world shows a table: each element has one place.
pub fn a_lawful_world_shows_a_table()
    ensures { LawfulShows }
{}

/// Every schedule that is played from a world of a pool, by any workers and however long: at each
/// step the world is lawful and shows a table, and the next table follows by the step's one event,
/// by the worker that steps, or is the same.
pub fn every_schedule_walks()
    ensures { EveryScheduleWalks }
{}

/// The events of every schedule that is played from a world of a pool are a run of the table.
pub fn schedules_are_runs()
    ensures { SchedulesAreRuns }
{}

/// While an element isn't common, no get lists it, until a put does: from its get on, and as long
/// as it is held.
pub fn nothing_is_given_again()
    ensures { NotGivenAgain }
{}

/// As long as an element is held, no get and no put lists it: over every run of the table in which
/// it is held in each table.
pub fn what_is_held_is_left()
    ensures { HeldIsLeft }
{}

/// A cut that won gives its whole front, distinct elements, by one get.
pub fn a_cut_gets_all()
    ensures { CutGetsAll }
{}

/// The common list, the hands and the held elements together are the population; the length word
/// with all credits is never more.
pub fn all_elements_are_there()
    ensures all { AllAreThere }
    ensures length { LengthIsBounded }
{}

/// What a worker knows of the words: while its look's count stands, the common list begins with
/// the look's front; an exchange that lost found a greater count; a chain's elements are distinct
/// ones of the hand, with count 1.
pub fn a_view_knows()
    ensures front { FrontThenRest }
    ensures lost { LostIsLater }
    ensures chain { ChainIsOfHand }
{}

/// An element is at most once a header of a worker or an own element of a packet on a full desk,
/// and a worker holds its headers. So it is in the opening world, and it stays so over every step
/// and every schedule in which each `Open` gives away a packet whose own elements are distinct
/// headers of its worker.
pub fn headers_are_kept()
    ensures opening { OpensWithHeaders }
    ensures step { KeepsHeaders }
    ensures schedules { SchedulesKeepHeaders }
{}

/// Over every schedule, by any workers and however long, a `TakeOut` gives the packet that the
/// last `PutIn` brought to its desk; where there was none, the one that was in the slot before.
pub fn a_desk_gives_what_was_put_in()
    ensures { GivesWhatWasPutIn }
{}

/// A worker that stops keeps what it has, and what it knows: over every schedule without a step of
/// it, its view stays as it is.
pub fn a_stopped_worker_keeps_its_view()
    ensures { StoppedKeepsItsView }
{}

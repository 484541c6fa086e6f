//! Laws of the words of a pool. Each is a function that does nothing, and its contract is the law.

ghost use Rattle.ground.specs.Held.{HeldIsNotGiven, PassesLawful};
ghost use Rattle.ground.specs.History.{DesksHaveWhatWasPutIn, HistoriesAreEvents};
ghost use Rattle.ground.specs.Lying.{NotesTellOfDesks};
ghost use Rattle.ground.specs.Operations.{OperationsAreSteps};
ghost use Rattle.ground.specs.Ruling.{WordsAreLedTo};

/// Between any two operations the words, the slots and what all seats know are a lawful world of
/// the machine, with its law of headers, to which the machine's own steps led from the world at the
/// start, each by one seat that has noted it, with seats split, elements and packets lent, and seats
/// joined in between.
pub fn the_words_are_led_to()
    ensures { WordsAreLedTo }
{}

/// Each step of such a history is its one event of the table, by its seat's worker, or none: it
/// leads from any table that the world before it shows to any that the world after it shows.
pub fn a_history_is_its_events()
    ensures { HistoriesAreEvents }
{}

/// No element is given again while a hold of it is left: in such a history, from a claim of an
/// element until a step ends its last hold, no step gives it to anybody, and whatever table the
/// worlds on the way show, it is held there.
pub fn a_held_element_is_not_given()
    ensures { HeldIsNotGiven }
{}

/// While a packet is put on a desk or taken off it, two worlds are passed that no word shows: between
/// the `PutIn` and the `Open`, and between the `TakeOut` and the `Clear`. Both are lawful: the packet's
/// holds are its worker's there, and the desk has none.
pub fn a_packet_on_its_way_is_its_workers()
    ensures { PassesLawful }
{}

/// What is in a desk's slot is the packet that was put in last, by whichever seat, with its
/// lengths. So what a seizure notes is the packet with which the desk was opened last.
pub fn a_desk_has_what_was_put_in()
    ensures { DesksHaveWhatWasPutIn }
{}

/// What lies on a desk is what the notes of all seats leave there: of the packets with which it was
/// opened, those that weren't seized from it.
pub fn desks_have_what_the_notes_leave()
    ensures { NotesTellOfDesks }
{}

/// Each operation on a word that a call notes is a step of the machine by the seat's worker,
/// whatever the other seats did before: from whatever ruled state it comes to, the machine plays
/// that step, with the outcome that the seat notes, to the world of the state that it leaves. An
/// `Open` and a `Clear` come with the step that put their packet in, or took it out. That a call
/// makes no operation besides isn't said: it is counted.
pub fn an_operation_is_a_step()
    ensures { OperationsAreSteps }
{}

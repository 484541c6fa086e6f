//! The laws of a guarded pool, as a function that does nothing: its contract is the laws.

ghost use Rattle.depot.specs.Laws.{OnePlace, OneSeat, PutBetweenGets};

/// Between any two steps each element is in one place; what rests does so at one worker, out with it
/// or kept by it; and between two gets of an element, by whichever workers, there is a put of it
/// that found it out.
pub fn an_element_is_out_once()
    ensures one_place { OnePlace }
    ensures one_seat { OneSeat }
    ensures put_between_gets { PutBetweenGets }
{}

//! A fault's line: its number and name, and what it names.

ghost use Rattle.std.specs.Prelude.{◌≡◌, ◌++◌, OnOk, codes, decimal, string_bytes};
ghost use Rattle.audit_text.specs.FaultText.{count_text, element_text, front_text, length_text, stranger_text, twice_text};

use crate::numbers::{name_of, number_of};
use crate::place::Place;
use crate::wording::{write_first, write_two};
use snapshot::fault::Fault;
use std::alloc::AllocError;

/// How a fault's line begins: with its number and name.
#[tactic(auto, unfolding(crate::specs::FaultText::front_text))]
pub(crate) fn write_front(out: &mut String, fault: Fault) -> Result<(), AllocError>
    ensures { OnOk result (string_bytes out.new ≡ string_bytes out.old ++ front_text fault) }
{
    let (number, name) = (number_of(fault), name_of(fault));
    write!(out, "fault {number} {name}")
}

/// An element that it names.
#[tactic(auto, unfolding(crate::specs::FaultText::element_text))]
pub(crate) fn write_element(out: &mut String, elem: u32) -> Result<(), AllocError>
    ensures { OnOk result (string_bytes out.new ≡ string_bytes out.old ++ element_text elem) }
{
    write!(out, " element {elem}")
}

/// What of the shape is wrong.
pub(crate) fn write_shape(out: &mut String, words: &str) -> Result<(), AllocError>
    ensures { OnOk result (string_bytes out.new ≡ string_bytes out.old
        ++ (codes ": " ++ words.now)) }
{
    write!(out, ": {words}")
}

/// A word above the population.
pub(crate) fn write_top(out: &mut String, word: u32) -> Result<(), AllocError>
    ensures { OnOk result (string_bytes out.new ≡ string_bytes out.old
        ++ (codes " " ++ decimal word)) }
{
    write!(out, " {word}")
}

/// The length word, and how long the walk is.
#[tactic(auto, unfolding(crate::specs::FaultText::length_text))]
pub(crate) fn write_length(out: &mut String, word: u64, found: u64) -> Result<(), AllocError>
    ensures { OnOk result (string_bytes out.new ≡ string_bytes out.old ++ length_text word found) }
{
    write!(out, " word {word}, walk {found}")
}

/// An element that the pool doesn't have, and the first place where it is named.
#[tactic(auto, unfolding(crate::specs::FaultText::stranger_text))]
pub(crate) fn write_stranger(
    out: &mut String,
    elem: u32,
    places: &[Place],
) -> Result<(), AllocError>
    ensures { OnOk result (string_bytes out.new ≡ string_bytes out.old
        ++ stranger_text elem places.now) }
{
    write!(out, " {elem}")?;
    write_first(out, places)
}

/// An element, and the first two of these places.
#[tactic(auto, unfolding(crate::specs::FaultText::twice_text))]
pub(crate) fn write_twice(out: &mut String, elem: u32, places: &[Place]) -> Result<(), AllocError>
    ensures { OnOk result (string_bytes out.new ≡ string_bytes out.old
        ++ twice_text elem places.now) }
{
    write_element(out, elem)?;
    write_two(out, places)
}

/// An element, its count, and how often it is held.
#[tactic(auto, unfolding(crate::specs::FaultText::count_text))]
pub(crate) fn write_count(
    out: &mut String,
    elem: u32,
    word: u32,
    holds: u64,
) -> Result<(), AllocError>
    ensures { OnOk result (string_bytes out.new ≡ string_bytes out.old
        ++ count_text elem word holds) }
{
    write_element(out, elem)?;
    write!(out, ": count {word}, held {holds}")
}

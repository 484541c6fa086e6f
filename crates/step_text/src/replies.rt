//! The lines that answer steps.
ghost use Rattle.std.specs.Prelude.{◌≡◌, ◌++◌, OnOk, codes, decimal};
ghost use Rattle.step_text.specs.Playing.{outcome_text, reads_link as reads, refused_text, value_text};

use crate::elements::{write_end, write_head, write_segments};
use commons::refusal::Refusal;
use element_text::write_joined;
use script_text::steps::Step as Asked;
use std::io;
use std::io::Write;
use step_core::step::Outcome;

/// Whether what the step reads is a link.
pub(crate) fn reads_link(asked: &Asked) -> bool
    ensures { result ≡ reads asked.now }
{
    matches!(asked, Asked::LoadLink { .. })
}

/// What a step answers; a number that it read is a link or not.
pub(crate) fn write_outcome(out: &mut Vec<u8>, link: bool, outcome: &Outcome) -> io::Result<()>
    ensures { OnOk result (out.new.items ≡ out.old.items ++ outcome_text link outcome.now) }
{
    match outcome {
        Outcome::Value(value) => write_value(out, link, *value),
        Outcome::HeadIs(head) => write_head(out, *head),
        Outcome::Won => write!(out, "won"),
        Outcome::Got(elements) => {
            write!(out, "won")?;
            Ok(write_joined(out, elements.as_slice())?)
        }
        Outcome::Lost(value) => write!(out, "lost {value}"),
        Outcome::LostTo(head) => {
            write!(out, "lost ")?;
            write_head(out, *head)
        }
        Outcome::Done => write!(out, "done"),
        Outcome::Found(packet) => {
            write!(out, "packet")?;
            write_segments(out, packet.segs())
        }
    }
}

fn write_value(out: &mut Vec<u8>, link: bool, value: u64) -> io::Result<()>
    ensures { OnOk result (out.new.items ≡ out.old.items ++ value_text link value) }
{
    if link {
        write!(out, "link ")?;
        write_end(out, value)
    } else {
        write!(out, "value {value}")
    }
}

/// That the step was refused.
pub(crate) fn write_refused(out: &mut Vec<u8>) -> io::Result<()>
    ensures { OnOk result (out.new.items ≡ out.old.items ++ refused_text) }
{
    let refusal = Refusal::StepRefused;
    write!(out, "refused {} {}", refusal.number(), refusal.name())
}

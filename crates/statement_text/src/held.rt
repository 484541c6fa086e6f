//! The held elements and their holders.
ghost use Rattle.std.specs.Prelude.{◌≡◌, ◌++◌, OnOk, codes};
ghost use Rattle.std.specs.List.{flat_map};
ghost use Rattle.element_text.specs.Elements.{joined};
ghost use Rattle.statement_text.specs.StatementText.{held_text, holder_text};

use element_text::write_number;
use pool_statement::statement::{Held, Holder};
use std::alloc::AllocError;

/// A line for each held element.
pub(crate) fn write_held(out: &mut Vec<u8>, held: &[Held]) -> Result<(), AllocError>
    ensures { OnOk result (out.new.items ≡ out.old.items ++ flat_map held_text held.now) }
{
    for element in held {
        write_element(out, element)?;
    }
    Ok(())
}

#[tactic(auto, unfolding(crate::specs::StatementText::held_text))]
fn write_element(out: &mut Vec<u8>, held: &Held) -> Result<(), AllocError>
    ensures { OnOk result (out.new.items ≡ out.old.items ++ held_text held.now) }
{
    write_number(out, b"held ", held.elem)?;
    write_number(out, b" count ", held.count)?;
    out.extend_from_slice(b":")?;
    write_joined(out, held.holders.as_slice())?;
    out.extend_from_slice(b"\n")
}

/// Each holder after a space.
fn write_joined(out: &mut Vec<u8>, holders: &[Holder]) -> Result<(), AllocError>
    ensures { OnOk result (out.new.items ≡ out.old.items ++ joined holder_text holders.now) }
{
    for holder in holders {
        write_holder(out, *holder)?;
    }
    Ok(())
}

/// A holder after a space.
#[tactic(auto, unfolding(crate::specs::StatementText::holder_text))]
fn write_holder(out: &mut Vec<u8>, holder: Holder) -> Result<(), AllocError>
    ensures { OnOk result (out.new.items ≡ out.old.items ++ codes " " ++ holder_text holder) }
{
    match holder {
        Holder::Worker(number) => write_number(out, b" ", number),
        Holder::Desk(number) => write_number(out, b" d", number),
    }
}

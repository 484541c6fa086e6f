//! Numbers and elements as text: what the text of a statement, that of a machine's world and the
//! replies of a replay write alike.
#![tactic(auto)]

ghost use Rattle.std.specs.Prelude.{◌≡◌, ◌++◌, OnOk, decimal};
ghost use Rattle.element_text.specs.Elements.{base_text, elements_text, joined};

use itoa::{Buffer, Integer};
use std::alloc::AllocError;

/// Appends some text, and then a number in decimal.
///
/// Refused where there is no room for it; the text may then be written.
pub fn write_number<I: Integer>(
    out: &mut Vec<u8>,
    before: &[u8],
    number: I,
) -> Result<(), AllocError>
    ensures { OnOk result (out.new.items ≡ out.old.items ++ before.now ++ I.text number) }
{
    let mut buffer = Buffer::new();
    out.extend_from_slice(before)?;
    out.extend_from_slice(buffer.format(number).as_bytes())
}

/// Appends how many elements these are, and which, to the end of the line.
///
/// Refused where there is no room for it; part of it may then be written.
#[tactic(auto, unfolding(crate::specs::Elements::elements_text))]
pub fn write_elements(out: &mut Vec<u8>, elements: &[u32]) -> Result<(), AllocError>
    ensures { OnOk result (out.new.items ≡ out.old.items ++ elements_text elements.now) }
{
    write_number(out, b" ", elements.len())?;
    out.extend_from_slice(b":")?;
    write_joined(out, elements)?;
    out.extend_from_slice(b"\n")
}

/// Appends each element after a space.
///
/// Refused where there is no room for it; part of it may then be written.
pub fn write_joined(out: &mut Vec<u8>, elements: &[u32]) -> Result<(), AllocError>
    ensures { OnOk result (out.new.items ≡ out.old.items ++ joined decimal elements.now) }
{
    for element in elements {
        write_number(out, b" ", *element)?;
    }
    Ok(())
}

/// Appends the element whose buffer an indirect segment uses, and nothing at a direct one.
///
/// Refused where there is no room for it; part of it may then be written.
pub fn write_base(out: &mut Vec<u8>, base: Option<u32>) -> Result<(), AllocError>
    ensures { OnOk result (out.new.items ≡ out.old.items ++ base_text base) }
{
    match base {
        Some(base) => write_number(out, b">", base),
        None => Ok(()),
    }
}

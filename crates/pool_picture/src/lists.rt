//! What a box says of a list of elements.
ghost use Rattle.std.specs.Prelude.{◌≡◌, ◌++◌, ◌%◌, ◌==◌, OnOk, codes, decimal, if◌then◌else◌};
ghost use Rattle.pool_picture.specs.Picture.{list_text, row_length, rows_text};

use element_text::write_number;
use std::alloc::AllocError;

/// How many elements stand in a row of a box.
const ROW_LENGTH: usize = 16;

/// How many elements these are and, where each is shown, which.
#[tactic(auto, unfolding(crate::specs::Picture::list_text))]
pub(crate) fn write_list(out: &mut Vec<u8>, shown: bool, elements: &[u32]) -> Result<(), AllocError>
    ensures { OnOk result (out.new.items ≡ out.old.items ++ list_text shown elements.now) }
{
    write_number(out, b": ", elements.len())?;
    if shown {
        write_rows(out, elements)
    } else {
        Ok(())
    }
}

/// Each element, in rows.
fn write_rows(out: &mut Vec<u8>, elements: &[u32]) -> Result<(), AllocError>
    ensures { OnOk result (out.new.items ≡ out.old.items ++ rows_text 0 elements.now) }
{
    for (index, element) in elements.iter().enumerate() {
        write_in_row(out, index, *element)?;
    }
    Ok(())
}

/// An element after a space, or in a new row.
fn write_in_row(out: &mut Vec<u8>, index: usize, element: u32) -> Result<(), AllocError>
    ensures { OnOk result (out.new.items ≡ out.old.items
        ++ (if index % row_length == 0 then codes "\\n" else codes " ") ++ decimal element) }
{
    if index % ROW_LENGTH == 0 {
        write_number(out, b"\\n", element)
    } else {
        write_number(out, b" ", element)
    }
}

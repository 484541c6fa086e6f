//! A picture of a pool, as its statement says where each element is: a graph in the language of
//! Graphviz.
#![tactic(auto)]

mod boxes;
mod in_use;
mod lists;
pub mod packets;

ghost use Rattle.std.specs.Prelude.{◌≡◌, ◌++◌, IfErr, IfOk, OnOk, nat_le};
ghost use Rattle.pool_picture.specs.Picture.{dot_of, most_shown, places_text};

use boxes::{write_caches, write_stack};
use commons::refusal::Refusal;
use in_use::{write_each, write_sums};
use pool_statement::statement::Statement;
use std::alloc::{AllocError, Global};

/// The most elements of a pool whose picture shows each of them.
pub const MOST_SHOWN: u64 = 300;

/// The picture of a pool, as `dot` draws it: the common stack and each worker's cache, from top to
/// bottom, and each packet with its elements, their reference counts, and whose buffer each uses.
///
/// Of a pool of more than 300 elements it shows how many are where. Refused `OutOfMemory` where
/// there is no room for it. It takes time linear in the statement.
pub fn pool_dot(alloc: Global, statement: &Statement) -> Result<Vec<u8>, Refusal>
    ensures text { IfOk result (λ v. v.items ≡ dot_of statement.now) }
    ensures memory { IfErr result (λ e. e ≡ Refusal.OutOfMemory) }
{
    let mut out = Vec::new(alloc);
    match write_dot(&mut out, statement) {
        Ok(()) => Ok(out),
        Err(_) => Err(Refusal::OutOfMemory),
    }
}

#[tactic(auto, unfolding(crate::specs::Picture::dot_of))]
fn write_dot(out: &mut Vec<u8>, statement: &Statement) -> Result<(), AllocError>
    ensures { OnOk result (out.new.items ≡ out.old.items ++ dot_of statement.now) }
{
    out.extend_from_slice(
        b"digraph pool {\n  rankdir=LR;\n  node [shape=box, fontname=\"monospace\"];\n",
    )?;
    write_places(out, statement, statement.population <= MOST_SHOWN)?;
    out.extend_from_slice(b"}\n")
}

/// All places, each element shown or not.
#[tactic(auto, unfolding(crate::specs::Picture::places_text))]
fn write_places(out: &mut Vec<u8>, statement: &Statement, shown: bool) -> Result<(), AllocError>
    ensures { OnOk result (out.new.items ≡ out.old.items ++ places_text shown statement.now) }
{
    write_stack(out, shown, statement.common.as_slice())?;
    write_caches(out, shown, statement.caches.as_slice())?;
    if shown {
        write_each(out, statement)
    } else {
        write_sums(out, statement)
    }
}

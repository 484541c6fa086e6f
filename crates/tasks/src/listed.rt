//! The print of all faults of a snapshot, or of two.
ghost use Rattle.std.specs.Prelude.{◌≡◌, ◌+◌, ◌++◌, [], codes, IfErr, IfOk, Some, length};
ghost use Rattle.tasks.specs.Listings.{IsListingAs, IsListingOfBothAs, count_text, lines_in};

use crate::failures::{Which, front};
use crate::task::Form;
use audit_text::json::{faults_json, two_faults_json};
use audit_text::lines::fault_lines;
use commons::refusal::Refusal;
use commons::seq::Seq;
use snapshot::fault::Fault;
use snapshot::snapshot::Snapshot;
use std::alloc::Global;
use std::fmt;
use std::io::Write;

/// A snapshot of a pool, and all faults of it that are told, in their order.
#[derive(Drop)]
pub struct Found {
    /// The snapshot; where its stack is a list with an element twice, without that.
    pub snapshot: Snapshot,
    /// The elements of its stack, from the top down.
    pub stack: Seq<u32>,
    /// The faults.
    pub faults: Vec<Fault>,
}

/// What is printed of faults, and how many they are.
#[derive(Drop)]
pub struct Print {
    /// What is printed.
    pub text: Vec<u8>,
    /// How many faults it tells.
    pub count: u64,
}

/// What is printed of a snapshot's faults in a form: a line each and then their number, or one line of
/// JSON.
pub(crate) fn print_of(alloc: Global, listed: &Found, form: Form) -> Result<Print, Refusal>
    ensures printed { IfOk result (λ print. IsListingAs form listed.now print.text.items) }
    ensures count { IfOk result (λ print. print.count ≡ length listed.now.faults.items) }
    ensures memory { IfErr result (λ refusal. refusal ≡ Refusal.OutOfMemory) }
{
    let count = listed.faults.len() as u64;
    let text = text_of(alloc, listed, form, count)?;
    Ok(Print { text, count })
}

/// What is printed of them, where they are so many.
fn text_of(alloc: Global, listed: &Found, form: Form, count: u64) -> Result<Vec<u8>, Refusal>
    requires counted { count ≡ length listed.now.faults.items }
    ensures printed { IfOk result (λ out. IsListingAs form listed.now out.items) }
    ensures memory { IfErr result (λ refusal. refusal ≡ Refusal.OutOfMemory) }
{
    match form {
        Form::Text => with_count(lines(alloc, listed, b"")?, count),
        Form::Json => faults_json(
            alloc,
            &listed.snapshot,
            listed.stack.as_slice(),
            listed.faults.as_slice(),
        ),
    }
}

/// What is printed of the faults of two snapshots in a form: the lines of both, each of which says of
/// which, and then their number; or one line of JSON with both.
pub(crate) fn print_of_both(
    alloc: Global,
    one: &Found,
    other: &Found,
    form: Form,
) -> Result<Print, Refusal>
    ensures printed { IfOk result (λ print. IsListingOfBothAs form one.now other.now print.text.items) }
    ensures count { IfOk result (λ print.
        print.count ≡ length one.now.faults.items + length other.now.faults.items) }
    ensures memory { IfErr result (λ refusal. refusal ≡ Refusal.OutOfMemory) }
{
    let count = one.faults.len() as u64 + other.faults.len() as u64;
    let text = text_of_both(alloc, one, other, form, count)?;
    Ok(Print { text, count })
}

/// What is printed of them, where both together are so many.
fn text_of_both(
    alloc: Global,
    one: &Found,
    other: &Found,
    form: Form,
    count: u64,
) -> Result<Vec<u8>, Refusal>
    requires counted { count ≡ length one.now.faults.items + length other.now.faults.items }
    ensures printed { IfOk result (λ out. IsListingOfBothAs form one.now other.now out.items) }
    ensures memory { IfErr result (λ refusal. refusal ≡ Refusal.OutOfMemory) }
{
    match form {
        Form::Text => {
            let first = lines(alloc, one, front(Which::First))?;
            let second = lines(alloc, other, front(Which::Second))?;
            with_count(joined(first, second.as_slice())?, count)
        }
        Form::Json => two_faults_json(
            alloc,
            &one.snapshot,
            one.stack.as_slice(),
            one.faults.as_slice(),
            &other.snapshot,
            other.stack.as_slice(),
            other.faults.as_slice(),
        ),
    }
}

/// The lines of a snapshot's faults, with this in front of each.
fn lines(alloc: Global, listed: &Found, front: &[u8]) -> Result<Vec<u8>, Refusal>
    ensures text { IfOk result (λ out. out.items ≡ lines_in front.now listed.now) }
    ensures memory { IfErr result (λ refusal. refusal ≡ Refusal.OutOfMemory) }
{
    fault_lines(
        alloc,
        &listed.snapshot,
        listed.stack.as_slice(),
        listed.faults.as_slice(),
        front,
    )
}

/// Both texts.
fn joined(first: Vec<u8>, second: &[u8]) -> Result<Vec<u8>, Refusal>
    ensures text { IfOk result (λ out. out.items ≡ first.items ++ second.now) }
    ensures memory { IfErr result (λ refusal. refusal ≡ Refusal.OutOfMemory) }
{
    let mut out = first;
    match out.extend_from_slice(second) {
        Ok(()) => Ok(out),
        Err(_) => Err(Refusal::OutOfMemory),
    }
}

/// A text with the line of so many faults behind it.
fn with_count(text: Vec<u8>, count: u64) -> Result<Vec<u8>, Refusal>
    ensures text { IfOk result (λ out. out.items ≡ text.items ++ count_text count) }
    ensures memory { IfErr result (λ refusal. refusal ≡ Refusal.OutOfMemory) }
{
    let mut out = text;
    match write!(out, "{}", Count(count)) {
        Ok(()) => Ok(out),
        Err(_) => Err(Refusal::OutOfMemory),
    }
}

/// The line that says how many faults there are.
#[derive(Clone, Copy)]
struct Count(u64);

impl fmt::Display for Count {
    ghost output = { λ count. Some (count_text count.0) };

    fn fmt<W: fmt::Write>(&self, f: &mut fmt::Formatter<W>) -> fmt::Result {
        if self.0 == 1 {
            f.write_str("1 fault\n")
        } else {
            write!(f, "{} faults\n", self.0)
        }
    }
}

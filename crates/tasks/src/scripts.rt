//! Where scripts and snapshots come from.
ghost use Rattle.std.specs.Prelude.{ℕ, ◌≤◌, List, IfErr, IfOk, length};
ghost use Rattle.script_io.specs.declared.reading.ReadFault.{ReadFault};
ghost use Rattle.tasks.specs.Forms.{most_read};
ghost use Rattle.tasks.specs.declared.kind.Kind.{Kind};

use crate::kind::Kind;
use script_io::{ReadFault, Retrying, Tally, read_bytes};
use std::alloc::Global;
use std::fs::File;
use std::io::{Input, Read};
use std::rt::Files;

/// What finds the script or the snapshot that a name stands for.
pub trait Scripts {
    /// The bytes that a reading of this name may give. By default nothing is said of them.
    ghost gives: { Self → Kind → List ℕ → List ℕ → Type 0 } = { λ _ _ _ _. Unit {0} };

    /// The faults with which a reading of this name may fail.
    ghost fails: { Self → Kind → List ℕ → ReadFault → Type 0 } = { λ _ _ _ _. Unit {0} };

    /// The bytes of the file of this kind with this name; of one that is too long, as many as show
    /// that.
    ///
    /// `Device` where it isn't found or can't be read, and `Memory` where memory was refused.
    fn read(&self, alloc: Global, kind: Kind, name: &str) -> Result<Vec<u8>, ReadFault>
        ensures gives { IfOk result (λ bytes. gives self.now kind name.entry.now bytes.items) }
        ensures fails { IfErr result (λ fault. fails self.now kind name.entry.now fault) };
}

/// The files of a runtime, named by their paths. `-` is the standard input.
#[derive(Clone, Copy)]
pub struct Disk<'a, R>(pub &'a R);

impl<R: Files + Input> Scripts for Disk<'_, R> {
    // A file without an end is read no further than one that is too long.
    ghost gives = { λ _ kind _ bytes. length bytes ≤ most_read kind };

    /// Opening takes no memory of the program's, so that each error of it is the device's.
    fn read(&self, alloc: Global, kind: Kind, name: &str) -> Result<Vec<u8>, ReadFault> {
        if name == "-" {
            return whole(alloc, kind, self.0.reader());
        }
        match File::open(self.0, name) {
            Ok(file) => whole(alloc, kind, file),
            Err(_) => Err(ReadFault::Device),
        }
    }
}

/// The bytes of a file of this kind; of one that is too long, as many as show that.
fn whole<F: Read + Drop>(alloc: Global, kind: Kind, file: F) -> Result<Vec<u8>, ReadFault>
    ensures most { IfOk result (λ bytes. length bytes.items ≤ most_read kind) }
{
    let mut source = Tally::new(Retrying(file));
    read_bytes(alloc, &mut source, kind.most_read())
}

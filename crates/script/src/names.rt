//! What each worker's name stands for.

ghost use Rattle.std.specs.Prelude.{◌≡◌, ℕ, List, None, Some, OnOk};
ghost use Rattle.script.specs.Replay.{named};

use mbuf::packets::Pid;
use std::alloc::{AllocError, Global};
use std::collections::HashMap;

/// What a name stands for.
#[derive(Clone, Copy, PartialEq, Eq, Debug)]
pub enum Stand {
    /// The packet in this slot of the worker's.
    Packet(Pid),
    /// The foreign clone in this slot of the worker's.
    Clone(Pid),
}

/// What each worker's name stands for, where it stands for something.
#[derive(Drop)]
pub struct Names<'a> {
    stands: HashMap<(u32, &'a [u8]), Stand>,
}

impl<'a> Names<'a> {
    ghost use Rattle.script.specs.Stands.{stands_in};

    /// No name stands for anything.
    pub fn new(alloc: Global) -> Names<'a>
        ensures { (worker : ℕ) (name : List ℕ) → stands_in result worker name ≡ None }
    {
        Names {
            stands: HashMap::new(alloc),
        }
    }

    /// What a worker's name stands for.
    pub fn get(&self, worker: u32, name: &'a [u8]) -> Option<Stand>
        ensures { result ≡ stands_in self.now worker name.now }
    {
        self.stands.get(&(worker, name)).copied()
    }

    /// Lets a worker's name stand for this. Refused where memory was refused; nothing is said of
    /// the names then.
    pub fn set(&mut self, worker: u32, name: &'a [u8], stand: Stand) -> Result<(), AllocError>
        ensures { OnOk result ((w : ℕ) (other : List ℕ) → stands_in self.new w other ≡ named worker name.now (Some stand) (stands_in self.old) w other) }
    {
        self.stands.insert((worker, name), stand)?;
        Ok(())
    }

    /// Lets a worker's name stand for nothing.
    pub fn forget(&mut self, worker: u32, name: &'a [u8])
        ensures { (w : ℕ) (other : List ℕ) → stands_in self.new w other ≡ named worker name.now None (stands_in self.old) w other }
    {
        self.stands.remove(&(worker, name));
    }
}

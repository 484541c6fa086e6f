//! A worker, as C has it.

ghost use Rattle.std.specs.Prelude.{Option};
ghost use Rattle.std.specs.Coded.{coded_option};
ghost use Rattle.mbufpool_c.specs.Labelled.{Labelled};
ghost use Rattle.mbufpool_c.specs.contracts.workers.OwnWorker.{the_row};

use crate::loose::Loose;
use crate::workers::OwnWorker;
use std::alloc::Global;
use std::marker::Model;
use std::ptr::null_mut;

/// A worker in the hands of C, or none. In C it is a struct of one pointer, which is null where
/// there is none.
#[repr(C)]
pub struct WorkerHandle {
    at: *mut u8,
    alloc: Global,
    pub ghost value: { Option Labelled } by { coded_option the_row.coded },
}

impl Model for WorkerHandle {
    ghost use Rattle.mbufpool_c.specs.contracts.workers.OwnWorker.{the_row};
    ghost use Rattle.mbufpool_c.specs.Owned.{owns_in};

    ghost also_owns = { λ h. owns_in the_row h.alloc h.at h.value };
}

impl WorkerHandle {
    ghost use Rattle.std.specs.Prelude.{◌≡◌, None, Some};
    ghost use Rattle.std.specs.Option.{MatchOption};

    /// A handle with no worker.
    #[inline(always)]
    fn empty(alloc: Global) -> WorkerHandle
        ensures { result.value ≡ None }
    {
        WorkerHandle {
            at: null_mut(),
            alloc,
        }
    }

    /// A handle with this worker.
    #[inline(always)]
    fn full(worker: Loose<OwnWorker, Global>) -> WorkerHandle
        ensures { result.value ≡ Some worker.value }
    {
        let Loose { at, alloc } = worker;
        WorkerHandle {
            at: at as *mut u8,
            alloc,
        }
    }

    /// The worker, where there is one.
    #[inline(always)]
    fn into_loose(self) -> Option<Loose<OwnWorker, Global>>
        ensures { MatchOption result (self.value ≡ None) (λ l. self.value ≡ Some l.value) }
    {
        let WorkerHandle { at, alloc } = self;
        if at.is_null() {
            None
        } else {
            Some(Loose {
                at: at as *mut OwnWorker,
                alloc,
            })
        }
    }

    /// Takes the worker out of the handle.
    #[inline(always)]
    pub(crate) fn take(&mut self, alloc: Global) -> Option<Box<OwnWorker>>
        ensures none { self.new.value ≡ None }
        ensures worker { MatchOption result (self.old.value ≡ None) (λ b. self.old.value ≡ Some b.value) }
    {
        match std::mem::replace(self, WorkerHandle::empty(alloc)).into_loose() {
            Some(worker) => Some(worker.into_box()),
            None => None,
        }
    }

    /// Puts a worker into the handle. One that was there is lost.
    #[inline(always)]
    pub(crate) fn put(&mut self, worker: Box<OwnWorker>)
        ensures { self.new.value ≡ Some worker.value }
    {
        *self = WorkerHandle::full(Loose::of(worker));
    }

    /// Puts a worker back into the handle that it was taken out of.
    #[inline(always)]
    pub(crate) fn put_back(&mut self, worker: Box<OwnWorker>)
        requires { self.old.value ≡ None }
        ensures { self.new.value ≡ Some worker.value }
    {
        let empty = std::mem::replace(self, WorkerHandle::full(Loose::of(worker)));
        std::mem::forget(empty);
    }
}

impl Drop for WorkerHandle {
    fn drop(self) {
        if let Some(worker) = self.into_loose() {
            drop(worker.into_box());
        }
    }
}

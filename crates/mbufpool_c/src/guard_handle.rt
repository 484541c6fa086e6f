//! A worker of a guarded pool, as C has it.

ghost use Rattle.std.specs.Prelude.{Option};
ghost use Rattle.std.specs.Coded.{coded_option};
ghost use Rattle.mbufpool_c.specs.Guarded.{Guarded};
ghost use Rattle.mbufpool_c.specs.contracts.guard_workers.OwnGuard.{the_row};

use crate::guard_workers::OwnGuard;
use crate::loose::Loose;
use std::alloc::Global;
use std::marker::Model;
use std::ptr::null_mut;

/// A worker of a guarded pool in the hands of C, or none. In C it is a struct of one pointer, which is
/// null where there is none.
#[repr(C)]
pub struct GuardHandle {
    at: *mut u8,
    alloc: Global,
    pub ghost value: { Option Guarded } by { coded_option the_row.coded },
}

impl Model for GuardHandle {
    ghost use Rattle.mbufpool_c.specs.contracts.guard_workers.OwnGuard.{the_row};
    ghost use Rattle.mbufpool_c.specs.Owned.{owns_in};

    ghost also_owns = { λ h. owns_in the_row h.alloc h.at h.value };
}

impl GuardHandle {
    ghost use Rattle.std.specs.Prelude.{◌≡◌, None, Some, IsSome, is_none};
    ghost use Rattle.std.specs.Borrow.{sem};
    ghost use Rattle.std.specs.Option.{MatchOption};
    ghost use Rattle.mbufpool_c.specs.Lends.{LendsGuard};

    /// A handle with no worker.
    #[inline(always)]
    fn empty(alloc: Global) -> GuardHandle
        ensures { result.value ≡ None }
    {
        GuardHandle {
            at: null_mut(),
            alloc,
        }
    }

    /// A handle with this worker.
    #[inline(always)]
    fn full(worker: Loose<OwnGuard, Global>) -> GuardHandle
        ensures { result.value ≡ Some worker.value }
    {
        let Loose { at, alloc } = worker;
        GuardHandle {
            at: at as *mut u8,
            alloc,
        }
    }

    /// The worker, where there is one.
    #[inline(always)]
    fn into_loose(self) -> Option<Loose<OwnGuard, Global>>
        ensures { MatchOption result (self.value ≡ None) (λ l. self.value ≡ Some l.value) }
    {
        let GuardHandle { at, alloc } = self;
        if at.is_null() {
            None
        } else {
            Some(Loose {
                at: at as *mut OwnGuard,
                alloc,
            })
        }
    }

    /// Whether there is no worker.
    #[inline(always)]
    pub(crate) fn is_empty(&mut self) -> bool
        ensures { (result ≡ is_none self.old.value) × (self.new ≡ self.old) }
    {
        self.at.is_null()
    }

    /// Lends the worker, which is there. The handle has it as it is left.
    #[inline(always)]
    pub(crate) fn lend(&mut self) -> &mut OwnGuard
        requires { IsSome self.old.value }
        ensures* writes_back { sem 𝓛 (LendsGuard self.entry result) }
        ensures value { self.old.value ≡ Some result.now }
    {
        unsafe { &mut *(self.at as *mut OwnGuard) }
    }

    /// Takes the worker out of the handle.
    #[inline(always)]
    pub(crate) fn take(&mut self, alloc: Global) -> Option<Box<OwnGuard>>
        ensures none { self.new.value ≡ None }
        ensures worker { MatchOption result (self.old.value ≡ None) (λ b. self.old.value ≡ Some b.value) }
    {
        match std::mem::replace(self, GuardHandle::empty(alloc)).into_loose() {
            Some(worker) => Some(worker.into_box()),
            None => None,
        }
    }

    /// Puts a worker into the handle. One that was there is lost.
    #[inline(always)]
    pub(crate) fn put(&mut self, worker: Box<OwnGuard>)
        ensures { self.new.value ≡ Some worker.value }
    {
        *self = GuardHandle::full(Loose::of(worker));
    }
}

impl Drop for GuardHandle {
    fn drop(self) {
        if let Some(worker) = self.into_loose() {
            drop(worker.into_box());
        }
    }
}

//! What a pool left at its end, as C has it.

ghost use Rattle.std.specs.Prelude.{Option};
ghost use Rattle.std.specs.Coded.{coded_option};
ghost use Rattle.mbufpool_c.specs.declared.ending.Ending.{Ending as Found};
ghost use Rattle.mbufpool_c.specs.contracts.ending.Ending.{the_row};

use crate::ending::Ending;
use crate::loose::Loose;
use std::alloc::Global;
use std::marker::Model;
use std::ptr::null_mut;

/// An ending in the hands of C, or none. In C it is a struct of one pointer, which is null where
/// there is none.
#[repr(C)]
pub struct EndingHandle {
    at: *mut u8,
    alloc: Global,
    pub ghost value: { Option Found } by { coded_option the_row.coded },
}

impl Model for EndingHandle {
    ghost use Rattle.mbufpool_c.specs.contracts.ending.Ending.{the_row};
    ghost use Rattle.mbufpool_c.specs.Owned.{owns_in};

    ghost also_owns = { λ h. owns_in the_row h.alloc h.at h.value };
}

impl EndingHandle {
    ghost use Rattle.std.specs.Prelude.{◌≡◌, None, Some};
    ghost use Rattle.std.specs.Option.{MatchOption};

    /// A handle with no ending.
    #[inline(always)]
    fn empty(alloc: Global) -> EndingHandle
        ensures { result.value ≡ None }
    {
        EndingHandle {
            at: null_mut(),
            alloc,
        }
    }

    /// A handle with this ending.
    #[inline(always)]
    fn full(ending: Loose<Ending, Global>) -> EndingHandle
        ensures { result.value ≡ Some ending.value }
    {
        let Loose { at, alloc } = ending;
        EndingHandle {
            at: at as *mut u8,
            alloc,
        }
    }

    /// The ending, where there is one.
    #[inline(always)]
    fn into_loose(self) -> Option<Loose<Ending, Global>>
        ensures { MatchOption result (self.value ≡ None) (λ l. self.value ≡ Some l.value) }
    {
        let EndingHandle { at, alloc } = self;
        if at.is_null() {
            None
        } else {
            Some(Loose {
                at: at as *mut Ending,
                alloc,
            })
        }
    }

    /// Takes the ending out of the handle.
    #[inline(always)]
    pub(crate) fn take(&mut self, alloc: Global) -> Option<Box<Ending>>
        ensures none { self.new.value ≡ None }
        ensures ending { MatchOption result (self.old.value ≡ None) (λ b. self.old.value ≡ Some b.value) }
    {
        match std::mem::replace(self, EndingHandle::empty(alloc)).into_loose() {
            Some(ending) => Some(ending.into_box()),
            None => None,
        }
    }

    /// Puts an ending into the handle. One that was there is lost.
    #[inline(always)]
    pub(crate) fn put(&mut self, ending: Box<Ending>)
        ensures { self.new.value ≡ Some ending.value }
    {
        *self = EndingHandle::full(Loose::of(ending));
    }
}

impl Drop for EndingHandle {
    fn drop(self) {
        if let Some(ending) = self.into_loose() {
            drop(ending.into_box());
        }
    }
}

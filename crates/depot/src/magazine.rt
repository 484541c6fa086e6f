//! A magazine: up to 128 elements, which lie in the value itself.

ghost use Rattle.std.specs.Prelude.{◌≡◌, ◌+◌, ◌<◌, ◌≤◌, ◌++◌, [], ◌∷◌, length, take};

use std::marker::Model;

/// How many elements a magazine has at most.
pub const ROUNDS: usize = 128;

/// Up to 128 elements, the last on top (Bonwick and Adams, "Magazines and Vmem", USENIX 2001).
/// Contracts see it as the list of its elements.
#[repr(C)]
#[derive(Drop)]
pub struct Magazine {
    /// So that no two magazines, side by side, have bytes in use in one cache line.
    apart: [u64; 7],
    count: u64,
    items: [u64; 128],
}

impl Model for Magazine {
    ghost use Rattle.std.specs.Prelude.{ℕ, List, ◌≤◌, take};

    ghost Value = { List ℕ };

    ghost view = { λ m. take m.count m.items };

    ghost invariant = { λ m. m.count ≤ 128 };
}

/// Copies a list. (Apart, as it takes many registers.)
#[inline(never)]
fn copy(out: &mut [u64], list: &[u64])
    requires { length out.old ≡ length list.now }
    ensures { out.new ≡ list.now }
{
    out.copy_from_slice(list);
}

impl Magazine {
    /// Where the magazine lies, for readers of memory. It looks at nothing.
    pub(crate) fn address(&mut self) -> *mut u8
        ensures { self.new ≡ self.old }
    {
        self as *mut Magazine as *mut u8
    }

    /// One without elements.
    pub fn new() -> Magazine
        ensures { result ≡ [] }
    {
        Magazine {
            apart: [0; 7],
            count: 0,
            items: [0; 128],
        }
    }

    /// How many elements there are.
    pub fn len(&self) -> usize
        ensures count { result ≡ length self.now }
        ensures most { result ≤ 128 }
    {
        self.count as usize
    }

    /// Takes as many elements off the end as `out` has places, in the order in which they stand.
    #[inline(always)]
    pub fn take(&mut self, out: &mut [u64])
        requires { length out.old ≤ length self.old }
        ensures { self.old ≡ self.new ++ out.new }
    {
        let n = out.len();
        let left = self.count as usize - n;
        self.count = left as u64;
        copy(out, &self.items[left..left + n]);
    }

    /// Adds a list at the end.
    #[inline(always)]
    pub fn add(&mut self, list: &[u64])
        requires { length self.old + length list.now ≤ 128 }
        ensures { self.new ≡ self.old ++ list.now }
    {
        let count = self.count as usize;
        let n = list.len();
        self.count = (count + n) as u64;
        copy(&mut self.items[count..count + n], list);
    }

    /// Takes the element at the end.
    #[inline(always)]
    pub fn take_one(&mut self) -> u64
        requires { 0 < length self.old }
        ensures { self.old ≡ self.new ++ result ∷ [] }
    {
        let rest = self.count as usize - 1;
        self.count = rest as u64;
        self.items[rest]
    }

    /// Adds an element at the end.
    #[inline(always)]
    pub fn add_one(&mut self, value: u64)
        requires { length self.old < 128 }
        ensures { self.new ≡ self.old ++ value ∷ [] }
    {
        let count = self.count as usize;
        self.items[count] = value;
        self.count = (count + 1) as u64;
    }

    /// Keeps the first `n` elements, of as many at least.
    pub fn truncate(&mut self, n: usize)
        requires { n ≤ length self.old }
        ensures { self.new ≡ take n self.old }
    {
        self.count = n as u64;
    }
}

//! Which elements are out with a worker, in its own memory.

ghost use Rattle.std.specs.Prelude.{◌≡◌, ◌<◌, Bool, false, length, get_or, slice_set, replicate, IfOk};

use std::alloc::{AllocError, Global};
use std::marker::Model;

/// A mark for each element. Contracts see it as the list of the marks.
#[derive(Drop)]
pub struct Marks {
    marks: Vec<bool>,
}

impl Model for Marks {
    ghost use Rattle.std.specs.Prelude.{List, Bool};

    ghost Value = { List Bool };

    ghost view = { λ m. m.marks.items };
}

impl Marks {
    /// No element of as many is marked.
    pub fn new(alloc: Global, count: usize) -> Result<Marks, AllocError>
        ensures { IfOk result (λ m. m ≡ replicate count false) }
    {
        let marks = Vec::from_elem(alloc, false, count)?;
        Ok(Marks { marks })
    }

    /// How many elements have a mark.
    #[inline(always)]
    pub fn len(&self) -> usize
        ensures { result ≡ length self.now }
    {
        self.marks.len()
    }

    /// Whether an element is marked.
    #[inline(always)]
    pub fn is(&self, element: usize) -> bool
        requires { element < length self.now }
        ensures { result ≡ get_or self.now element false }
    {
        self.marks[element]
    }

    /// Marks an element, or takes its mark away.
    #[inline(always)]
    pub fn set(&mut self, element: usize, mark: bool)
        requires { element < length self.old }
        ensures { self.new ≡ slice_set self.old element mark }
    {
        self.marks[element] = mark;
    }
}

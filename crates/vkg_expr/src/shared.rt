ghost use Rattle.std.specs.Prelude.{◌≡◌, IfOk};

use std::alloc::Global;
use std::marker::Model;
use std::ops::Deref;
use std::rc::Rc;
use vkg_base::{Box, Memory};

/// A value on the heap with one owner or several, which stays as it is. It is seen as the value itself, so that what one more owner
/// holds equals it, and a type may hold itself in it.
#[derive(Drop)]
pub struct Shared<T> {
    inner: Rc<T>,
}

impl<T> Model for Shared<T> {
    ghost Value = { T };

    ghost coded = { T.code };

    ghost view = { λ s. s.inner.value };
}

impl<T: Drop> Shared<T> {
    /// Puts a value on the heap, with one owner.
    pub fn new(alloc: Global, value: T) -> Result<Shared<T>, Memory>
        ensures { IfOk result (λ s. s ≡ value) }
    {
        Ok(Shared {
            inner: Rc::new(alloc, value)?,
        })
    }

    /// A value that has one owner so far.
    pub fn from_box(alloc: Global, value: Box<T>) -> Result<Shared<T>, Memory>
        ensures { IfOk result (λ s. s ≡ value) }
    {
        Shared::new(alloc, value.into_inner())
    }

    /// The same value with one more owner. It takes no room; `Memory` is answered where the count of owners is full.
    pub fn share(&self) -> Result<Shared<T>, Memory>
        ensures { IfOk result (λ s. s ≡ self.now) }
    {
        Ok(Shared {
            inner: self.inner.clone()?,
        })
    }
}

impl<T> Deref for Shared<T> {
    type Target = T;

    fn deref(&self) -> &T
        ensures { result.now ≡ self.now }
    {
        &self.inner
    }
}

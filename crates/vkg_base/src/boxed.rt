ghost use Rattle.std.specs.Prelude.{◌≡◌, IfOk};

use crate::Memory;
use std::alloc::Global;
use std::boxed;
use std::marker::Model;
use std::ops::Deref;

/// A value on the heap. It is seen as the value itself, so that a copy equals what it copies, and a type may hold itself
/// in it.
#[derive(Debug, Drop)]
pub struct Box<T> {
    inner: boxed::Box<T>,
}

impl<T> Model for Box<T> {
    ghost Value = { T };

    ghost coded = { T.code };

    ghost view = { λ b. b.inner.value };
}

impl<T> Box<T> {
    /// The value, off the heap.
    pub fn into_inner(self) -> T
        ensures { result ≡ self }
    {
        let Box { inner } = self;
        boxed::Box::into_inner(inner)
    }
}

impl<T: Drop> Box<T> {
    /// Puts a value on the heap.
    pub fn new(alloc: Global, value: T) -> Result<Box<T>, Memory>
        ensures { IfOk result (λ b. b ≡ value) }
    {
        Ok(Box {
            inner: boxed::Box::new(alloc, value)?,
        })
    }
}

impl<T> Deref for Box<T> {
    type Target = T;

    fn deref(&self) -> &T
        ensures { result.now ≡ self.now }
    {
        &self.inner
    }
}

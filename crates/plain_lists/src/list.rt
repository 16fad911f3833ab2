//! A list on the heap, seen as the plain list of its elements.

ghost use Rattle.std.specs.Prelude.{◌≡◌, ◌↔◌, IsTrue, length, []};
ghost use Rattle.std.specs.Cmp.Lexicographic.{pointwise, lists_per, lists_equiv};

use std::alloc::Global;
use std::marker::Model;

/// Elements in order, seen as the list of them. Made from a `Vec` and given back as one, with no
/// memory taken.
///
/// Not wiped when dropped: no place for a secret.
#[derive(Debug, Drop)]
pub struct PlainList<T> {
    inner: Vec<T>,
}

/// Bytes on the heap.
pub type Bytes = PlainList<u8>;

impl<T> Model for PlainList<T> {
    ghost use Rattle.std.specs.Prelude.{List};

    ghost Value = { List T };

    ghost view = { λ list. list.inner.items };
}

impl<T> PlainList<T> {
    /// No elements. Takes no memory.
    pub fn new(alloc: Global) -> Self
        ensures { result ≡ [] }
    {
        PlainList {
            inner: Vec::new(alloc),
        }
    }

    /// The elements of `inner`.
    pub fn from_vec(inner: Vec<T>) -> Self
        ensures { result ≡ inner.items }
    {
        PlainList { inner }
    }

    /// The vector that the elements are kept in.
    pub fn into_vec(self) -> Vec<T>
        ensures { result.items ≡ self }
    {
        let PlainList { inner } = self;
        inner
    }

    /// The elements, lent.
    pub fn as_slice(&self) -> &[T]
        ensures { result.now ≡ self.now }
    {
        self.inner.as_slice()
    }

    /// How many there are.
    pub fn len(&self) -> usize
        ensures { result ≡ length self.now }
    {
        self.inner.len()
    }

    /// Whether there are none.
    pub fn is_empty(&self) -> bool
        ensures { IsTrue result ↔ (self.now ≡ []) }
    {
        self.inner.is_empty()
    }
}

impl<T: PartialEq> PartialEq for PlainList<T> {
    ghost eq = { pointwise T.eq };

    ghost laws = { lists_per T.laws };

    fn eq(&self, other: &Self) -> bool {
        self.inner == other.inner
    }
}

impl<T: Eq> Eq for PlainList<T> {
    ghost laws = { lists_equiv T.Eq.laws };
}

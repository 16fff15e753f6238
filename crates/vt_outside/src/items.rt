ghost use Rattle.std.specs.Prelude.{◌≡◌, ◌+◌, ◌-◌, ◌<◌, ◌≤◌, [], ◌∷◌, ◌++◌, length, Some, IfSome, IfNone, IfOk, OnOk, OnErr, slice_get, slice_set};
ghost use Rattle.std.specs.Borrow.{sem};
ghost use Rattle.vt_outside.specs.Lists.{ListView};

use crate::NoMemory;
use std::alloc::Global;
use std::marker::Model;

/// A list, which contracts see as its elements and its spare room.
#[derive(Drop)]
pub struct Items<I> {
    items: Vec<I>,
}

impl<I> Model for Items<I> {
    ghost use Rattle.std.specs.Prelude.{◌-◌, vec_len, vec_capacity};
    ghost use Rattle.vt_outside.specs.Lists.{ListView};

    ghost Value = { ListView I };

    ghost view = { λ l. record { elements = l.items.items; spare = vec_capacity l.items - vec_len l.items } };
}

/// A list of bytes.
pub type Bytes = Items<u8>;

impl<I> Items<I> {
    ghost use Rattle.vt_outside.specs.LentElements.{lends_elements};

    /// The empty list, which takes no memory.
    pub fn new(alloc: Global) -> Self
        ensures { result.elements ≡ [] }
    {
        Items {
            items: Vec::new(alloc),
        }
    }

    /// Ends an empty list, also one whose elements may not be dropped.
    pub fn destroy_empty(self)
        requires { self.elements ≡ [] }
    {
        self.items.destroy_empty();
    }

    /// Makes room for at least `n` more elements. After a refusal nothing changed.
    pub fn reserve(&mut self, n: u64) -> Result<(), NoMemory>
        ensures elements { self.new.elements ≡ self.old.elements }
        ensures room { OnOk result (n ≤ self.new.spare) }
        ensures refused { OnErr result (self.new.spare ≡ self.old.spare) }
    {
        self.items.reserve(n as usize)?;
        Ok(())
    }

    /// Appends an element, for which there is room.
    pub fn push(&mut self, item: I)
        requires { 1 ≤ self.old.spare }
        ensures elements { self.new.elements ≡ self.old.elements ++ item ∷ [] }
        ensures spare { self.old.spare ≤ self.new.spare + 1 }
    {
        self.items.push_reserved(item);
    }

    /// Takes out the last element; `None` exactly where the list is empty.
    pub fn pop(&mut self) -> Option<I>
        ensures none { IfNone result ((self.old.elements ≡ []) × (self.new ≡ self.old)) }
        ensures some { IfSome result (λ item. self.old.elements ≡ self.new.elements ++ item ∷ []) }
        ensures spare { IfSome result (λ item. self.new.spare ≡ self.old.spare + 1) }
    {
        self.items.pop()
    }

    /// The number of elements.
    pub fn len(&self) -> usize
        ensures { result ≡ length self.now.elements }
    {
        self.items.len()
    }

    /// The element at a place below the length.
    pub fn at(&self, i: usize) -> &I
        requires { i < length self.now.elements }
        ensures { slice_get self.now.elements i ≡ Some result.now }
    {
        &self.items[i]
    }

    /// All the elements.
    pub fn slice(&self) -> &[I]
        ensures { result.now ≡ self.now.elements }
    {
        self.items.as_slice()
    }

    /// All the elements, for writing.
    pub fn slice_mut(&mut self) -> &mut [I]
        ensures* writes_back { sem 𝓛 (lends_elements I.row self.entry result) }
        ensures value { result.now ≡ self.old.elements }
    {
        self.items.as_mut_slice()
    }

    /// Puts another element in the place of the one at `i`, which is below the length.
    pub fn set(&mut self, i: usize, item: I)
    where
        I: Drop,
        requires { i < length self.old.elements }
        ensures elements { self.new.elements ≡ slice_set self.old.elements i item }
        ensures spare { self.new.spare ≡ self.old.spare }
    {
        self.items[i] = item;
    }
}

impl<I: Copy> Items<I> {
    /// The list of these elements.
    pub fn from_slice(alloc: Global, items: &[I]) -> Result<Self, NoMemory>
        ensures { IfOk result (λ list. list.elements ≡ items.now) }
    {
        Ok(Items {
            items: Vec::from_slice(alloc, items)?,
        })
    }
}

ghost use Rattle.std.specs.Prelude.{◌≡◌, ◌↔◌, ◌++◌, [], ◌∷◌, length, IsTrue, OnOk, OnErr};
ghost use Rattle.std.specs.Slice.Iter.{iter_rest, iter_mut_rest};
ghost use Rattle.std.specs.Vec.Iter.{into_iter_items};
ghost use Rattle.std.specs.Iterator.{IsFinite, ExtendsWithItems};
ghost use Rattle.std.specs.Hash as fed;
ghost use Rattle.std.specs.Hash.{items_Alike};
ghost use Rattle.std.specs.Cmp.Lexicographic.{pointwise, lists_equiv, lists_per};

use std::alloc::{AllocError, Global};
use std::hash::{Hash, Hasher};
use std::marker::Model;
use std::{slice, vec};

/// A list of parts in order, as the spans of a line and the lines of a text are.
#[derive(Debug, Drop)]
pub struct Items<T> {
    /// The list itself. What is written through it is known to a caller's proof, as for any `Vec`.
    pub items: Vec<T>,
}

impl<T> Model for Items<T> {
    ghost use Rattle.std.specs.Prelude.{List};

    ghost Value = { List T };

    ghost view = { λ l. l.items.items };
}

impl<T: Drop> Items<T> {
    /// Makes a list without items; takes no memory.
    pub fn new(alloc: Global) -> Items<T>
        ensures { result ≡ [] }
    {
        Items {
            items: Vec::new(alloc),
        }
    }

    /// Returns the items, in order.
    pub fn as_slice(&self) -> &[T]
        ensures { result.now ≡ self.now }
    {
        self.items.as_slice()
    }

    /// Returns the items, in order, to be written. A caller's proof doesn't see what is written;
    /// through `items` it does.
    pub fn as_mut_slice(&mut self) -> &mut [T]
        ensures { result.now ≡ self.old }
    {
        self.items.as_mut_slice()
    }

    /// Returns what the list takes its memory from.
    pub fn allocator(&self) -> Global {
        *self.items.allocator()
    }

    /// Returns the items, one by one.
    pub fn iter(&self) -> slice::Iter<'_, T>
        ensures { iter_rest result ≡ self.now }
    {
        self.items.iter()
    }

    /// Returns the items, one by one, to be written.
    pub fn iter_mut(&mut self) -> slice::IterMut<'_, T>
        ensures { iter_mut_rest result ≡ self.old }
    {
        self.as_mut_slice().iter_mut()
    }

    /// Returns the list of the items; takes no memory.
    pub fn into_vec(self) -> Vec<T>
        ensures { result.items ≡ self }
    {
        let Items { items } = self;
        items
    }

    /// Returns how many items there are.
    pub fn len(&self) -> usize
        ensures { result ≡ length self.now }
    {
        self.items.len()
    }

    /// Returns whether there are none.
    pub fn is_empty(&self) -> bool
        ensures { IsTrue result ↔ (self.now ≡ []) }
    {
        self.items.is_empty()
    }

    /// Puts an item after the others.
    ///
    /// # Errors
    ///
    /// `AllocError` if memory is refused; nothing has changed then.
    pub fn push(&mut self, item: T) -> Result<(), AllocError>
        ensures ok { OnOk result (self.new ≡ self.old ++ item ∷ []) }
        ensures err { OnErr result (self.new ≡ self.old) }
    {
        self.items.push(item)?;
        Ok(())
    }

    /// Puts other items after these.
    ///
    /// # Errors
    ///
    /// `AllocError` if memory is refused; nothing has changed then.
    pub fn append(&mut self, mut others: Items<T>) -> Result<(), AllocError>
        ensures ok { OnOk result (self.new ≡ self.old ++ others) }
        ensures err { OnErr result (self.new ≡ self.old) }
    {
        self.items.append(&mut others.items)
    }

    /// Puts the items that an iterator gives after these.
    ///
    /// # Conditions
    ///
    /// The iterator comes to an end, and `next` may be called on it until then.
    ///
    /// # Errors
    ///
    /// `AllocError` if memory is refused; the items that were put until then stay.
    pub fn extend<I: IntoIterator<Item = T>>(&mut self, items: I) -> Result<(), AllocError>
        requires { (it : I.IntoIter) → I.into_iter_gives items it
            → I.IntoIter.can_next it × IsFinite (I.IntoIter.remaining it) }
        ensures { ExtendsWithItems I.into_iter_gives I.IntoIter.next_gives
            (λ old more new. new ≡ old ++ more) items self.old self.new result }
    {
        self.items.extend(items)
    }
}

/// Takes no memory.
impl<T: Drop> From<Vec<T>> for Items<T> {
    ghost from_gives = { λ v l. l ≡ v.items };

    fn from(items: Vec<T>) -> Items<T> {
        Items { items }
    }
}

impl<T: Drop> IntoIterator for Items<T> {
    type Item = T;

    type IntoIter = vec::IntoIter<T>;

    ghost into_iter_gives = { λ l it. into_iter_items it ≡ l };

    fn into_iter(self) -> vec::IntoIter<T> {
        self.into_vec().into_iter()
    }
}

impl<T: PartialEq> PartialEq for Items<T> {
    ghost eq = { pointwise T.eq };

    ghost laws = { lists_per T.laws };

    fn eq(&self, other: &Self) -> bool {
        self.items.as_slice() == other.items.as_slice()
    }
}

impl<T: Eq> Eq for Items<T> {
    ghost laws = { lists_equiv T.Eq.laws };
}

impl<T: Hash> Hash for Items<T> {
    ghost hash_input = { fed.slice T.hash_input };

    ghost respects_eq = { (items_Alike (record { fed = T.respects_eq })).fed };

    fn hash<H: Hasher>(&self, state: &mut H) {
        self.items.as_slice().hash(state);
    }
}

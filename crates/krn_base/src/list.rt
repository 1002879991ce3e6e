ghost use Rattle.std.specs.Prelude.{◌≡◌, ◌<◌, ◌++◌, ◌∷◌, [], IfOk, IfSome, IsSome, OnOk, OnErr, length, slice_index_or};
ghost use Rattle.std.specs.Prelude.{slice_set, ◌↔◌};

use std::alloc::{AllocError, Global};
use std::marker::Model;

/// A list of bytes: a name or the text of a note.
pub type Text = Seq<u8>;

/// A `Vec` that contracts see as the list of its elements, so that two values of plain data are the same
/// where their numbers, variants and lists are the same at every level.
#[derive(Debug, Drop)]
pub struct Seq<T> {
    items: Vec<T>,
}

impl<T> Model for Seq<T> {
    ghost use Rattle.std.specs.Prelude.{List};
    ghost use Rattle.std.specs.Coded.{coded_list};

    ghost Value = { List T };

    ghost coded = { coded_list T.code };

    ghost view = { λ s. s.items.items };
}

impl<T> Seq<T> {
    ghost use Rattle.std.specs.Borrow.{sem};
    ghost use Rattle.krn_base.specs.Lending.{lends_item, lends_items};

    /// The empty list. Takes no memory.
    pub fn new(alloc: Global) -> Seq<T>
        ensures { result ≡ [] }
    {
        Seq {
            items: Vec::new(alloc),
        }
    }

    /// The list of the elements of `items`, in order. Takes no memory.
    pub fn from_vec(items: Vec<T>) -> Seq<T>
        ensures { result ≡ items.items }
    {
        Seq { items }
    }

    /// The elements as a vector, in order. Takes no memory.
    pub fn into_vec(self) -> Vec<T>
        ensures { result.items ≡ self }
    {
        let Seq { items } = self;
        items
    }

    /// How many elements there are.
    pub fn len(&self) -> usize
        ensures { result ≡ length self.now }
    {
        self.items.len()
    }

    /// The elements as a slice. Takes no memory.
    pub fn as_slice(&self) -> &[T]
        ensures { result.now ≡ self.now }
    {
        self.items.as_slice()
    }

    /// The elements as a slice through which they may be replaced. Takes no memory.
    pub fn as_mut_slice(&mut self) -> &mut [T]
        ensures* lends { sem 𝓛 (lends_items T.row self.entry result) }
        ensures value { result.now ≡ self.old }
    {
        self.items.as_mut_slice()
    }

    /// The element at `at`, through which it may be replaced, or None past the last one. Takes no memory.
    pub fn get_mut(&mut self, at: usize) -> Option<&mut T>
        ensures* lends { sem 𝓛 (lends_item T.row self.entry at result) }
        ensures found { IsSome result ↔ (at < length self.old) }
        ensures value { IfSome result (λ item. item.now ≡ slice_index_or self.old at item.now) }
    {
        self.items.get_mut(at)
    }
}

impl<T: Drop> Seq<T> {
    /// Puts `item` behind the last element. Where memory is wanting, the list stays as it was and `item` is dropped.
    pub fn push(&mut self, item: T) -> Result<(), AllocError>
        ensures pushed { OnOk result (self.new ≡ self.old ++ item ∷ []) }
        ensures unchanged { OnErr result (self.new ≡ self.old) }
    {
        self.items.push(item)?;
        Ok(())
    }

    /// Puts `item` in place of the element at `at`, which is dropped. Takes no memory.
    pub fn set(&mut self, at: usize, item: T)
        requires { at < length self.old }
        ensures { self.new ≡ slice_set self.old at item }
    {
        self.items[at] = item;
    }
}

impl<T: Copy> Seq<T> {
    /// A list of the same elements, or an error where memory is wanting.
    pub fn try_copy(&self) -> Result<Seq<T>, AllocError>
        ensures { IfOk result (λ copy. copy ≡ self.now) }
    {
        let items = Vec::from_slice(*self.items.allocator(), self.items.as_slice())?;
        Ok(Seq { items })
    }
}

impl<T: PartialEq> PartialEq for Seq<T> {
    ghost use Rattle.std.specs.Cmp.Lexicographic.{pointwise, lists_per};

    ghost eq = { pointwise T.eq };

    ghost laws = { lists_per T.laws };

    fn eq(&self, other: &Seq<T>) -> bool {
        self.items.as_slice() == other.items.as_slice()
    }
}

impl<T: Eq> Eq for Seq<T> {
    ghost use Rattle.std.specs.Cmp.Lexicographic.{lists_equiv};

    ghost laws = { lists_equiv T.Eq.laws };
}

fn cross<T: Send + Sync>(_value: &T) {}

// Lists may be sent to and shared by threads where their elements may.
fn lists_cross_threads<T: Send + Sync>(list: &Seq<T>) {
    cross(list);
}

#[cfg(test)]
mod tests;

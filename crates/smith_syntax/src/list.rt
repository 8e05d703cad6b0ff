ghost use Rattle.std.specs.Prelude.{
  ◌≡◌,
  ◌++◌,
  ℕ,
  List,
  [],
  ◌∷◌,
  length,
  IsTrue,
  ◌↔◌,
  IfOk,
  IfErr,
  OnOk,
  OnErr,
  string_bytes,
};

use smith_bytes::Error;
use std::alloc::Global;
use std::fmt;
use std::marker::Model;
use std::ops::{DerefSlice, Index};
use std::slice::Iter;

/// A list in plain data. Contracts see the list itself.
#[derive(Drop)]
pub struct Items<T> {
    items: Vec<T>,
}

impl<T> Model for Items<T> {
    ghost Value = { List T };

    ghost view = { λ a. a.items.items };
}

impl<T> Items<T> {
    /// Creates an empty list. Allocates from `alloc` only once elements are added.
    pub fn new(alloc: Global) -> Self
        ensures { result ≡ [] }
    {
        Items {
            items: Vec::new(alloc),
        }
    }

    /// Creates an empty list with room for `capacity` elements, allocated from `alloc`.
    pub fn with_capacity(alloc: Global, capacity: usize) -> Result<Self, Error>
        ensures ok { IfOk result (λ items. items ≡ []) }
        ensures memory { IfErr result (λ e. e ≡ Error.Memory) }
    {
        Ok(Items {
            items: Vec::with_capacity(alloc, capacity)?,
        })
    }

    /// Creates a list of the elements of `items`. Does not allocate.
    pub fn from_vec(items: Vec<T>) -> Self
        ensures { result ≡ items.items }
    {
        Items { items }
    }

    /// Returns the elements as a `Vec`. Does not allocate.
    pub fn into_vec(self) -> Vec<T>
        ensures { result.items ≡ self }
    {
        let Items { items } = self;
        items
    }

    /// Returns the elements as a slice.
    pub fn as_slice(&self) -> &[T]
        ensures { result.now ≡ self.now }
    {
        self.items.as_slice()
    }

    /// Returns the number of elements.
    pub fn len(&self) -> usize
        ensures { result ≡ length self.now }
    {
        self.items.len()
    }

    /// Returns whether the list is empty.
    pub fn is_empty(&self) -> bool
        ensures { IsTrue result ↔ (length self.now ≡ 0) }
    {
        self.items.is_empty()
    }
}

impl<T: Copy> Items<T> {
    /// Creates a list of copies of the elements of `items`, allocated from `alloc`.
    pub fn from_slice(alloc: Global, items: &[T]) -> Result<Self, Error>
        ensures ok { IfOk result (λ made. made ≡ items.now) }
        ensures memory { IfErr result (λ e. e ≡ Error.Memory) }
    {
        Ok(Items::from_vec(Vec::from_slice(alloc, items)?))
    }

    /// Appends copies of the elements of `items` to the list.
    pub fn extend_from_slice(&mut self, items: &[T]) -> Result<(), Error>
        ensures ok { OnOk result (self.new ≡ self.old ++ items.now) }
        ensures err { OnErr result (self.new ≡ self.old) }
        ensures memory { IfErr result (λ e. e ≡ Error.Memory) }
    {
        Ok(self.items.extend_from_slice(items)?)
    }
}

/// Dereferences to a slice, so that the methods of slices can be called on the list.
impl<T> DerefSlice for Items<T> {
    type Elem = T;

    ghost deref_gives = { λ list elements. elements ≡ list };

    fn deref(&self) -> &[T]
        ensures { result.now ≡ self.now }
    {
        self.items.as_slice()
    }
}

/// Returns the element at an index. Requires the index to be less than the number of elements.
impl<T> Index<usize> for Items<T> {
    ghost use Rattle.std.specs.Prelude.{◌<◌, slice_index_or};

    type Output = T;

    ghost can_index = { λ list i. i < length list };

    ghost index_gives = { λ list i x. x ≡ slice_index_or list i x };

    fn index(&self, index: usize) -> &T
        requires { index < length self.now }
        ensures { result.now ≡ slice_index_or self.now index result.now }
    {
        &self.items.as_slice()[index]
    }
}

impl<'a, T> IntoIterator for &'a Items<T> {
    ghost use Rattle.std.specs.Prelude.{◌<◌, ◌^◌};
    ghost use Rattle.std.specs.Slice.Iter.{iter_rest, iter_steps};
    ghost use Rattle.std.specs.Iterator.Runs.{EveryRun, ItemsMapTo};

    type Item = &'a T;

    type IntoIter = Iter<'a, T>;

    ghost into_iter_gives = { λ list r. (iter_rest r ≡ list.now) × (length (iter_rest r) < 2 ^ 64)
        × EveryRun (iter_steps {A = T}) (λ p. ItemsMapTo p (λ y. y.now) (iter_rest p.from)) };

    fn into_iter(self) -> Iter<'a, T> {
        self.items.as_slice().iter()
    }
}

impl<T: Drop> Items<T> {
    /// Appends `item` to the list.
    pub fn push(&mut self, item: T) -> Result<(), Error>
        ensures ok { OnOk result (self.new ≡ self.old ++ item ∷ []) }
        ensures err { OnErr result (self.new ≡ self.old) }
        ensures memory { IfErr result (λ e. e ≡ Error.Memory) }
    {
        Ok(self.items.push(item)?)
    }
}

/// A text in plain data. Contracts see its bytes.
#[derive(Drop)]
pub struct Name {
    text: String,
}

impl Model for Name {
    ghost Value = { List ℕ };

    ghost view = { λ a. string_bytes a.text };
}

impl Name {
    /// Creates the name `text`. Does not allocate.
    pub fn from_string(text: String) -> Self
        ensures { result ≡ string_bytes text }
    {
        Name { text }
    }

    /// Creates the name `text` by a copy allocated from `alloc`.
    pub fn from_text(alloc: Global, text: &str) -> Result<Self, Error>
        ensures ok { IfOk result (λ name. name ≡ text.now) }
        ensures memory { IfErr result (λ e. e ≡ Error.Memory) }
    {
        Ok(Name::from_string(String::from_str(alloc, text)?))
    }

    /// Returns the text as a `String`. Does not allocate.
    pub fn into_string(self) -> String
        ensures { string_bytes result ≡ self }
    {
        let Name { text } = self;
        text
    }

    /// Returns the text as a string slice.
    pub fn as_str(&self) -> &str
        ensures { result.now ≡ self.now }
    {
        self.text.as_str()
    }

    /// Returns the number of bytes of the name.
    pub fn len(&self) -> usize
        ensures { result ≡ length self.now }
    {
        self.text.len()
    }

    /// Returns whether the name is empty.
    pub fn is_empty(&self) -> bool
        ensures { IsTrue result ↔ (length self.now ≡ 0) }
    {
        self.text.is_empty()
    }
}

impl<T: PartialEq> PartialEq for Items<T> {
    ghost use Rattle.std.specs.Cmp.Lexicographic.{pointwise, lists_per};

    ghost eq = { pointwise T.eq };

    ghost laws = { lists_per T.laws };

    fn eq(&self, other: &Items<T>) -> bool {
        self.items.as_slice() == other.items.as_slice()
    }
}

impl PartialEq for Name {
    ghost use Rattle.std.specs.Str.{bytes_eq};
    ghost use Rattle.std.specs.Cmp.{partial_equiv_from_equiv};
    ghost use Rattle.std.proofs.lemmas.Cmp.{nat_list_eq_equiv};

    ghost eq = { bytes_eq };

    ghost laws = { partial_equiv_from_equiv nat_list_eq_equiv };

    fn eq(&self, other: &Name) -> bool {
        self.text.as_str() == other.text.as_str()
    }
}

/// Formats the list as its elements.
impl<T: fmt::Debug> fmt::Debug for Items<T> {
    fn fmt<W: fmt::Write>(&self, f: &mut fmt::Formatter<W>) -> fmt::Result {
        self.items.fmt(f)
    }
}

/// Writes the text.
impl fmt::Display for Name {
    ghost use Rattle.std.specs.Prelude.{Some};

    ghost output = { λ name. Some name };

    fn fmt<W: fmt::Write>(&self, f: &mut fmt::Formatter<W>) -> fmt::Result {
        self.text.fmt(f)
    }
}

/// Formats the name as its text.
impl fmt::Debug for Name {
    fn fmt<W: fmt::Write>(&self, f: &mut fmt::Formatter<W>) -> fmt::Result {
        self.text.fmt(f)
    }
}

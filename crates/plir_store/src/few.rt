//! A list whose length never changes once it is made.
ghost use Rattle.std.specs.Prelude.{◌≡◌, ◌<◌, length, Some, IfOk, IsOk, slice_get, slice_set};
ghost use Rattle.std.specs.Mem.{FitsInMemory};

use std::alloc::AllocError;
use std::marker::Model;
use std::slice;

// No item, one, or all that there are.
#[derive(Drop)]
enum Items<T> {
    None,
    One(T),
    Many(Box<Vec<T>>),
}

/// A list whose length never changes once it is made. One item stands in it, and more in memory of their own: so it takes 16
/// bytes where an item takes 8 or less.
#[derive(Drop)]
pub struct Few<T> {
    items: Items<T>,
}

impl<T> Model for Few<T> {
    ghost use Rattle.std.specs.Prelude.{List};

    ghost Value = { List T };

    ghost use Rattle.plir_store.specs.Few.{items_of};

    ghost view = { λ f. items_of f.items };
}

impl<T: Copy> Few<T> {
    /// The items of a vector, in order. Memory is asked for only where there are two or more, and the error is that it
    /// ran out.
    pub fn from_vec(items: Vec<T>) -> Result<Few<T>, AllocError>
        ensures made { IfOk result (λ f. f ≡ items.items) }
        ensures succeeds { length items.items < 2 → IsOk result }
    {
        match items.len() {
            0 => Ok(Few { items: Items::None }),
            1 => Ok(Few {
                items: Items::One(items[0]),
            }),
            _ => {
                let alloc = *items.allocator();
                Ok(Few {
                    items: Items::Many(Box::new(alloc, items)?),
                })
            }
        }
    }

    /// The item at a place, from 0.
    pub fn get(&self, i: usize) -> T
        requires { i < length self.now }
        ensures { slice_get self.now i ≡ Some result }
    {
        match &self.items {
            Items::None => unreachable!(),
            Items::One(item) => *item,
            Items::Many(items) => items[i],
        }
    }

    /// Puts an item in place of the one at a place, from 0.
    pub fn set(&mut self, i: usize, item: T)
        requires { i < length self.old }
        ensures { self.new ≡ slice_set self.old i item }
    {
        match &mut self.items {
            Items::None => unreachable!(),
            Items::One(only) => *only = item,
            Items::Many(items) => items[i] = item,
        }
    }
}

impl<T> Few<T> {
    /// How many items there are.
    pub fn len(&self) -> usize
        ensures { result ≡ length self.now }
    {
        match &self.items {
            Items::None => 0,
            Items::One(_) => 1,
            Items::Many(items) => items.len(),
        }
    }

    /// The items in order.
    pub fn as_slice(&self) -> &[T]
        requires { FitsInMemory T.row }
        ensures { result.now ≡ self.now }
    {
        match &self.items {
            Items::None => &[],
            Items::One(item) => slice::from_ref(item),
            Items::Many(items) => items.as_slice(),
        }
    }
}

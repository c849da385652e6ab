//! An owned list of values, which contracts see as a list.
ghost use Rattle.std.specs.Prelude.{◌≡◌, List};

use std::marker::Model;

/// A list of values.
#[derive(Drop)]
pub struct Seq<T: Drop> {
    items: Vec<T>,
}

impl<T: Drop> Model for Seq<T> {
    ghost Value = { List T };

    ghost view = { λ s. s.items.items };
}

impl<T: Drop> Seq<T> {
    /// The list of a vector's elements, which moves.
    pub fn from_vec(list: Vec<T>) -> Seq<T>
        ensures { result ≡ list.items }
    {
        Seq { items: list }
    }

    /// The elements, in order.
    pub fn as_slice(&self) -> &[T]
        ensures { result.now ≡ self.now }
    {
        self.items.as_slice()
    }

    /// The vector of the elements, which move.
    pub fn into_vec(self) -> Vec<T>
        ensures { result.items ≡ self }
    {
        let Seq { items } = self;
        items
    }
}

//! A value that is moved as a whole.

ghost use Rattle.std.specs.Prelude.{◌≡◌, ◌∷◌, []};
ghost use Rattle.std.specs.Borrow.{sem, Lends};
ghost use Rattle.judy_node.specs.contracts.bundle.Bundle.{the_row};
ghost use Rattle.judy_node.specs.Bundles.{bundled};

/// A value in an array of its own. An array is moved as so many bytes, and not part by part.
#[derive(Drop)]
pub struct Bundle<T> {
    items: [T; 1],
}

impl<T> Bundle<T> {
    /// The value in its array.
    pub fn new(value: T) -> Bundle<T>
        ensures { result ≡ bundled value }
    {
        Bundle { items: [value] }
    }

    /// The value alone.
    pub fn into_inner(self) -> T
        ensures { self ≡ bundled result }
    {
        let Bundle { items } = self;
        let [value] = items;
        value
    }

    /// The value, to be read.
    pub fn get(&self) -> &T
        ensures { self.now ≡ bundled result.now }
    {
        &self.items[0]
    }

    /// Lends the value, to be changed.
    pub fn get_mut(&mut self) -> &mut T
        ensures* changes { sem 𝓛 (Lends (the_row T.row) T.row self.entry result bundled) }
        ensures value { self.old ≡ bundled result.now }
    {
        &mut self.items[0]
    }
}

ghost use Rattle.std.specs.Prelude.{◌≡◌, ◌∷◌, [], List, MatchOption};

/// A list that returns its first item and a list of the others.
pub trait ListView: Sized + Drop {
    /// The type of its items.
    type Item: Drop;

    /// Its items, in the order in which they occur.
    ghost items: { Self → List Self.Item };

    /// The first item and the others, or `None` if there is none.
    fn first(&self) -> Option<(Self::Item, Self)>
        ensures { MatchOption result (items self.now ≡ []) (λ x. items self.now ≡ x.0 ∷ items x.1) };
}

/// The items of a list, one after another.
#[derive(Debug, Drop)]
pub struct ListIter<L> {
    /// The items that are left.
    pub left: L,
}

impl<L: ListView> Iterator for ListIter<L> {
    ghost use Rattle.std.specs.Iterator.{YieldsFirst, item_count};

    type Item = L::Item;

    ghost next_gives = { YieldsFirst (λ l. L.items l.left) };

    ghost remaining = { item_count (λ l. L.items l.left) };

    fn next(&mut self) -> Option<L::Item> {
        let (item, others) = self.left.first()?;
        self.left = others;
        Some(item)
    }
}

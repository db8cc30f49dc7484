//! Items that only contracts see.
use std::collections::VecDeque;
use std::marker::Model;
use std::snapshot::Snapshot;

// How a list that only contracts see came about. A value of it takes no memory: it is itself seen
// through a `Snapshot`.
enum Link<T> {
    // No items.
    Nothing,
    // One more, after those of another.
    One(Snapshot<T>, Snapshot<Link<T>>),
    // All of a queue, whose front is the oldest, after those of another.
    All(Snapshot<VecDeque<T>>, Snapshot<Link<T>>),
    // Those of another.
    Again(Snapshot<Snapshot<Link<T>>>),
}

impl<T> Drop for Link<T> {
    fn drop(self) {
        match self {
            Link::Nothing => {}
            Link::One(_item, _before) => {}
            Link::All(_items, _before) => {}
            Link::Again(_other) => {}
        }
    }
}

/// Items that were seen once: a list in contracts, the newest first. It takes no memory, and no call
/// reads an item.
pub struct Past<T> {
    links: Snapshot<Link<T>>,
}

impl<T> Model for Past<T> {
    ghost use Rattle.std.specs.Prelude.{List};

    ghost Value = { List T };

    ghost use Rattle.out_store.specs.Links.{items_seen};

    ghost view = { λ p. items_seen p.links.value };
}

impl<T> Drop for Past<T> {
    fn drop(self) {
        let Past { links: _links } = self;
    }
}

impl<T> Past<T> {
    ghost use Rattle.std.specs.Prelude.{◌≡◌, [], ◌∷◌, ◌++◌, reverse};

    /// No items.
    pub fn new() -> Past<T>
        ensures { result ≡ [] }
    {
        let link = Link::Nothing;
        Past {
            links: Snapshot::of(&link),
        }
    }

    /// With one more item, the newest.
    pub fn with(self, item: &T) -> Past<T>
        ensures { result ≡ item.now ∷ self }
    {
        let Past { links } = self;
        let link = Link::One(Snapshot::of(item), links);
        Past {
            links: Snapshot::of(&link),
        }
    }

    /// With all items of a queue, whose back is the newest.
    pub fn with_all(self, items: &VecDeque<T>) -> Past<T>
        ensures { result ≡ reverse items.now.items ++ self }
    {
        let Past { links } = self;
        let link = Link::All(Snapshot::of(items), links);
        Past {
            links: Snapshot::of(&link),
        }
    }

    /// The same items.
    pub fn copy(&self) -> Past<T>
        ensures { result ≡ self.now }
    {
        let link = Link::Again(Snapshot::of(&self.links));
        Past {
            links: Snapshot::of(&link),
        }
    }
}

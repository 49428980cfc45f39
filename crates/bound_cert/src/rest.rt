// Lists whose items are moved out one after another.
ghost use Rattle.std.specs.Prelude.{◌≡◌, [], ◌∷◌, length, IfSome, IfNone};

use service_model::List;
use std::marker::Model;
use std::vec::IntoIter;

/// The items of a list that are left.
#[derive(Drop)]
pub(crate) struct Rest<T> {
    items: IntoIter<T>,
}

impl<T> Model for Rest<T> {
    ghost use Rattle.std.specs.Prelude.{◌≡◌, List, length};
    ghost use Rattle.std.specs.Vec.Iter.{into_iter_items, into_iter_len};

    ghost Value = { List T };

    ghost view = { λ r. into_iter_items r.items };

    ghost invariant = { λ r. into_iter_len r.items ≡ length (into_iter_items r.items) };
}

impl<T> Rest<T> {
    /// All items of a list.
    pub(crate) fn new(list: List<T>) -> Rest<T>
        ensures { result ≡ list }
    {
        Rest {
            items: list.into_vec().into_iter(),
        }
    }

    pub(crate) fn len(&self) -> usize
        ensures { result ≡ length self.now }
    {
        self.items.len()
    }

    /// The first item that is left.
    pub(crate) fn next(&mut self) -> Option<T>
        ensures some { IfSome result (λ item. self.old ≡ item ∷ self.new) }
        ensures none { IfNone result ((self.old ≡ []) × (self.new ≡ [])) }
    {
        self.items.next()
    }
}

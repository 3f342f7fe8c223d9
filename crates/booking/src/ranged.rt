// A list of at most N items, each within its range for as long as it is in the list. Clauses see it as the list.
ghost use Rattle.std.specs.Prelude.{◌≡◌, ◌<◌, ◌≤◌, ◌↔◌, true, Bool, [], ◌∷◌, ◌++◌, length, slice_set, IsOk, OnOk};
ghost use Rattle.std.specs.List.{list_all};
ghost use Rattle.bounded.specs.Items.{pushed};

use bounded::list::{Bounded, Full};
use std::marker::Model;

pub trait Ranged {
    ghost in_range: { Self → Bool };

    // What the unused places hold.
    fn filler() -> Self;
}

#[derive(Drop)]
pub struct RangedList<T: Ranged, const N: usize> {
    list: Bounded<T, N>,
}

impl<T: Ranged, const N: usize> Model for RangedList<T, N> {
    ghost use Rattle.std.specs.Prelude.{◌≡◌, true, List};
    ghost use Rattle.std.specs.List.{list_all};
    ghost use Rattle.std.specs.Coded.{coded_list};

    ghost Value = { List T };

    ghost coded = { coded_list T.code };

    ghost view = { λ r. r.list };

    ghost invariant = { λ r. list_all T.in_range r.list ≡ true };
}

impl<T: Copy + Ranged, const N: usize> RangedList<T, N> {
    // An empty list.
    pub fn new() -> Self
        ensures { result ≡ [] }
    {
        RangedList {
            list: Bounded::new(T::filler()),
        }
    }

    // The items in the order in which they were added.
    pub fn as_slice(&self) -> &[T]
        ensures listed { result.now ≡ self.now }
        ensures few { length result.now ≤ N }
        ensures ranges { list_all T.in_range result.now ≡ true }
    {
        self.list.as_slice()
    }

    // Adds an item at the end, unless N are there.
    pub fn push(&mut self, item: T) -> Result<(), Full>
        requires { T.in_range item ≡ true }
        ensures answer { (result, self.new) ≡ pushed N self.old item }
        ensures room { IsOk result ↔ (length self.old < N) }
        ensures added { OnOk result (self.new ≡ self.old ++ item ∷ []) }
        ensures few { (length self.old ≤ N) × (length self.new ≤ N) }
        ensures ranges { (list_all T.in_range self.old ≡ true) × (list_all T.in_range self.new ≡ true) }
    {
        self.list.push(item)
    }

    // Takes all items out.
    pub(crate) fn clear(&mut self)
        ensures { self.new ≡ [] }
    {
        self.list.clear();
    }

    // Writes over the item at a place; past the end there is none.
    #[tactic(auto, using(crate::proofs::Passing::pass_set))]
    pub(crate) fn put(&mut self, place: usize, item: T)
        requires { T.in_range item ≡ true }
        ensures written { self.new ≡ slice_set self.old place item }
        ensures few { (length self.old ≤ N) × (length self.new ≤ N) }
        ensures ranges { (list_all T.in_range self.old ≡ true) × (list_all T.in_range self.new ≡ true) }
    {
        self.list.put(place, item);
    }
}

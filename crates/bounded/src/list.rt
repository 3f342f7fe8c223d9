// The list itself. Clauses see it as the list of its items.
ghost use Rattle.std.specs.Prelude.{◌≡◌, ℕ, ◌<◌, ◌≤◌, ◌↔◌, [], ◌∷◌, ◌++◌, length, slice_set, IsOk, OnOk};
ghost use Rattle.std.specs.List.{remove};
ghost use Rattle.bounded.specs.Items.{pushed};

use std::marker::Model;

#[derive(Drop)]
pub struct Bounded<T, const N: usize> {
    slots: [T; N],
    len: usize,
}

impl<T, const N: usize> Model for Bounded<T, N> {
    ghost use Rattle.std.specs.Prelude.{◌≡◌, ◌≤◌, List, length, take};
    ghost use Rattle.std.specs.Coded.{coded_list};

    ghost Value = { List T };

    ghost coded = { coded_list T.code };

    ghost view = { λ b. take b.len b.slots };

    ghost invariant = { λ b. (b.len ≤ N) × (length b.slots ≡ N) };
}

// A push found no room.
#[derive(Clone, Copy, PartialEq, Eq, Debug)]
pub struct Full;

// Every call is total: one that finds no room or no place says so, or does nothing.
impl<T: Copy, const N: usize> Bounded<T, N> {
    // An empty list; its unused places hold the filler.
    pub fn new(filler: T) -> Self
        ensures { result ≡ [] }
    {
        Bounded {
            slots: [filler; N],
            len: 0,
        }
    }

    pub fn as_slice(&self) -> &[T]
        ensures items { result.now ≡ self.now }
        ensures within { length result.now ≤ N }
    {
        let all = &self.slots[..];
        &all[0..self.len]
    }

    // Adds an item at the end, unless N are there.
    pub fn push(&mut self, item: T) -> Result<(), Full>
        ensures answer { (result, self.new) ≡ pushed N self.old item }
        ensures room { IsOk result ↔ (length self.old < N) }
        ensures added { OnOk result (self.new ≡ self.old ++ item ∷ []) }
        ensures within { (length self.old ≤ N) × (length self.new ≤ N) }
    {
        if self.len >= N {
            return Err(Full);
        }
        self.slots[self.len] = item;
        self.len += 1;
        Ok(())
    }

    // Writes over the item at a place; past the end there is none.
    #[tactic(auto, using(crate::proofs::Lists::take_set))]
    pub fn put(&mut self, place: usize, item: T)
        ensures written { self.new ≡ slice_set self.old place item }
        ensures within { (length self.old ≤ N) × (length self.new ≤ N) }
    {
        if place < self.len {
            self.slots[place] = item;
        }
    }

    // Takes the item at a place out; those behind it close up. Past the end there is none.
    #[tactic(auto, using(crate::proofs::Lists::take_closed_up))]
    pub fn remove(&mut self, place: usize)
        ensures removed { self.new ≡ remove self.old place }
        ensures within { (length self.old ≤ N) × (length self.new ≤ N) }
    {
        if place < self.len {
            self.slots.copy_within(place + 1..self.len, place);
            self.len -= 1;
        }
    }

    // Takes all items out.
    pub fn clear(&mut self)
        ensures emptied { self.new ≡ [] }
        ensures within { length self.old ≤ N }
    {
        self.len = 0;
    }

    // Becomes a list of the same items. It is no `Clone`: this moves no unused place, and makes no list.
    pub fn copy_from(&mut self, other: &Self)
        ensures copied { self.new ≡ other.now }
        ensures within { (length self.old ≤ N) × (length self.new ≤ N) }
    {
        let items = other.as_slice();
        self.slots[..items.len()].copy_from_slice(items);
        self.len = items.len();
    }
}

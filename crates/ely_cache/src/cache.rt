//! The cache.

ghost use Rattle.std.specs.Prelude.{◌≡◌, ◌≤◌, [], IfOk, is_some, length, option_map};
ghost use Rattle.ely_cache.specs.Codes.{key_of};
ghost use Rattle.ely_cache.specs.Entries.{AreApart, Entries, entry_of, offered, promoted, untouched};

use crate::codes::write_touched;
use crate::entry::Entry;
use crate::slots::{Slots, drop_all, empty, keep, number_of};
use ely_base::{Name, NoMemory};
use ely_cred::Ready;
use ely_row::{Deps, Edit, Mech};
use std::alloc::Global;
use std::marker::Model;

/// What became of an entry that was offered.
#[derive(Debug, Clone, Copy, PartialEq, Eq)]
pub enum Offered {
    /// It stands in front.
    Kept,
    /// Memory ran out, and nothing is changed.
    Unkept,
}

/// A bounded list of entries, the most recently used first, no two of one name and mechanism.
#[derive(Drop)]
pub struct Cache {
    slots: Slots,
    // What the codes of the places that an edit touches begin with is written here, so that no call takes memory for it.
    start: Vec<u8>,
}

impl Model for Cache {
    ghost use Rattle.ely_cache.specs.Entries.{Entries};

    ghost Value = { Entries };

    ghost use Rattle.std.specs.Prelude.{◌≤◌};
    ghost use Rattle.std.specs.Vec.{vec_capacity};
    ghost use Rattle.ely_cache.specs.Tied.{IsTied, entries_of};

    ghost view = { λ c. record { limit = c.slots.order.cap; entries = entries_of c.slots.order.entries } };

    ghost invariant = { λ c. record { tied : IsTied c.slots; room : 512 ≤ vec_capacity c.start } };
}

impl Cache {
    /// An empty cache of at most so many entries.
    pub fn new(alloc: Global, limit: u32) -> Result<Cache, NoMemory>
        requires least { 1 ≤ limit }
        requires most { limit ≤ 65536 }
        ensures { IfOk result (λ cache. cache ≡ record { limit = limit; entries = [] }) }
    {
        Ok(Cache {
            slots: empty(alloc, limit)?,
            start: Vec::with_capacity(alloc, 512)?,
        })
    }

    /// Whether an entry of the name and the mechanism is there. It then stands in front, and else nothing is changed.
    pub fn find(&mut self, name: &Name, mech: Mech) -> bool
        ensures found { result ≡ is_some (entry_of (key_of name.now mech) self.old.entries) }
        ensures entries { self.new
            ≡ record self.old { entries = promoted (key_of name.now mech) self.old.entries } }
    {
        match number_of(&self.slots.index, name, mech) {
            Some(slot) => {
                self.slots.order.promote(&slot);
                true
            }
            None => false,
        }
    }

    /// The key of the entry of the name and the mechanism, where it is there. The order stays.
    pub fn peek(&self, name: &Name, mech: Mech) -> Option<&Ready>
        ensures { option_map (λ ready. ready.now) result
            ≡ option_map (λ e. e.ready) (entry_of (key_of name.now mech) self.now.entries) }
    {
        let slot = number_of(&self.slots.index, name, mech)?;
        let entry = self.slots.order.peek(&slot)?;
        Some(&entry.ready)
    }

    /// Puts the entry in front. One of the same name and mechanism goes, and else the last of a full list. Where memory runs
    /// out, nothing is changed.
    pub fn offer(
        &mut self,
        alloc: Global,
        name: Name,
        mech: Mech,
        ready: Ready,
        deps: Deps,
    ) -> Offered
        ensures kept { result ≡ Offered.Kept → self.new ≡ record self.old {
          entries = offered self.old.limit (record { name = name; mech = mech; ready = ready; deps = deps }) self.old.entries;
        } }
        ensures unkept { result ≡ Offered.Unkept → self.new ≡ self.old }
    {
        let entry = Entry {
            name,
            mech,
            ready,
            deps,
        };
        match keep(alloc, &mut self.slots, entry) {
            Ok(()) => Offered::Kept,
            Err(NoMemory) => Offered::Unkept,
        }
    }

    /// Drops the entries that rest on a place that the edit touches, all places of its realm where it is a reload, and leaves
    /// the others in their order. It takes no memory, and passes over no other entry.
    pub fn drop_touched(&mut self, edit: &Edit)
        ensures { self.new ≡ record self.old { entries = untouched edit.now self.old.entries } }
    {
        write_touched(&mut self.start, edit);
        drop_all(&mut self.slots, &self.start);
    }

    /// How many entries there are.
    pub fn len(&self) -> usize
        ensures value { result ≡ length self.now.entries }
        ensures within { length self.now.entries ≤ self.now.limit }
        ensures apart { AreApart self.now.entries }
    {
        self.slots.order.len()
    }
}

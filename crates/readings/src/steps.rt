// The steps of a reading.
ghost use Rattle.std.specs.Prelude.{◌≡◌, length, None, Some};
ghost use Rattle.std.specs.Option.{option_map};
ghost use Rattle.slots.specs.Finding.{stamps_of};
ghost use Rattle.slots.specs.Rows.{entry_in, row_in};
ghost use Rattle.readings.specs.Readings.{Reads, Steps, current, rows_read};
ghost use Rattle.readings.specs.Standing.{AheadIs};
ghost use Rattle.std.specs.Iterator.{at_most};

use crate::Reading;
use entries::Entry;
use slots::{Slot, find, first, following};
use stamps::Stamp;

impl<'p, S: Stamp, E: Entry> Reading<'p, S, E> {
    // Any slots will do, so what is promised of the steps asks that each stamp has one slot, and that the entry that was answered last stands.
    pub fn new(slots: &'p [Slot<S, E>]) -> Reading<'p, S, E>
        ensures { (result.slots.now ≡ slots.now) × (result.last ≡ None) × (result.left ≡ length slots.now) }
    {
        Reading {
            slots,
            last: None,
            left: slots.len(),
        }
    }

    // The entry that was answered last: none before the first step and after the end.
    pub fn entry(&self) -> Option<E>
        ensures { Reads S.WordForm.values E.WordForm.values self.now → option_map E.WordForm.values result ≡ option_map (λ x. x.entry) (current S.WordForm.values E.WordForm.values (stamps_of S.WordForm.form S.Stamp.kind) self.now) }
    {
        self.slot()?.entry()
    }

    // Is it struck?
    pub fn is_struck(&self) -> Option<bool>
        ensures { Reads S.WordForm.values E.WordForm.values self.now → result ≡ option_map (λ x. x.struck) (current S.WordForm.values E.WordForm.values (stamps_of S.WordForm.form S.Stamp.kind) self.now) }
    {
        Some(self.slot()?.is_struck())
    }

    // Its slot.
    fn slot(&self) -> Option<&Slot<S, E>>
        ensures entry { Reads S.WordForm.values E.WordForm.values self.now → option_map (λ x. entry_in (row_in S.WordForm.values E.WordForm.values x.now)) result ≡ option_map (λ x. Some x.entry) (current S.WordForm.values E.WordForm.values (stamps_of S.WordForm.form S.Stamp.kind) self.now) }
        ensures struck { Reads S.WordForm.values E.WordForm.values self.now → option_map (λ x. (row_in S.WordForm.values E.WordForm.values x.now).struck) result ≡ option_map (λ x. x.struck) (current S.WordForm.values E.WordForm.values (stamps_of S.WordForm.form S.Stamp.kind) self.now) }
    {
        let stamp = self.last?;
        find(self.slots, &stamp)
    }

    // The first entry, or the one that follows the last.
    fn ahead(&self) -> Option<S>
        ensures { Reads S.WordForm.values E.WordForm.values self.now → AheadIs (rows_read S.WordForm.values E.WordForm.values self.now) S.Stamp.kind.earlier (option_map S.WordForm.values self.now.last) (option_map S.WordForm.values result) }
    {
        match self.last {
            None => first(self.slots),
            Some(stamp) => following(self.slots, stamp),
        }
    }
}

// Each step answers the stamp of the next entry; after the last, none, and again none.
impl<'p, S: Stamp, E: Entry> Iterator for Reading<'p, S, E> {
    type Item = S;

    ghost next_gives = { λ r a t. Steps S.WordForm.values E.WordForm.values (stamps_of S.WordForm.form S.Stamp.kind) r a t };

    ghost remaining = { λ r. at_most r.left };

    fn next(&mut self) -> Option<S> {
        let Some(left) = self.left.checked_sub(1) else {
            self.last = None;
            return None;
        };
        self.last = self.ahead();
        self.left = self.last.map_or(0, |_| left);
        self.last
    }
}

// The filled part of a page's table, read and written.
ghost use Rattle.std.specs.Prelude.{◌≡◌, ◌+◌, ◌<◌, [], ◌∷◌, ◌++◌, None, slice_index_or, slice_set};
ghost use Rattle.ledger.specs.Calls.{blank};
ghost use Rattle.ledger.specs.Laws.{with_rows};
ghost use Rattle.ledger.specs.Ledger.{row_of};
ghost use Rattle.slots.specs.Rows.{Fills, row_in};
ghost use Rattle.page.specs.Filled.{Elsewhere};
ghost use Rattle.page.specs.Holding.{Holds, Stays, filled_in, ledger_in};

use crate::pages::Page;
use entries::Entry;
use slots::Slot;
use stamps::Stamp;

impl<'a, S: Stamp, E: Entry> Page<'a, S, E> {
    // The filled slots.
    pub(super) fn held(&self) -> &[Slot<S, E>]
        ensures { result.now ≡ filled_in self.now }
    {
        &self.slots[..self.filled]
    }

    // Writes a filled slot anew, under the same stamp.
    // The index is a plain number with a `requires`: a type for it could not outlive the page's next change.
    pub(super) fn put(&mut self, i: usize, slot: Slot<S, E>)
        requires { i < self.old.filled }
        ensures table { self.new.slots.now ≡ slice_set self.old.slots.now i slot }
        ensures filled { self.new.filled ≡ self.old.filled }
        ensures ledger { ledger_in S.WordForm.values E.WordForm.values self.new ≡ with_rows (ledger_in S.WordForm.values E.WordForm.values self.old) (slice_set (ledger_in S.WordForm.values E.WordForm.values self.old).rows i (row_in S.WordForm.values E.WordForm.values slot)) }
        ensures kept { Holds S.WordForm.values E.WordForm.values E.Entry.kind.filler self.old → (row_in S.WordForm.values E.WordForm.values slot).stamp ≡ (slice_index_or (ledger_in S.WordForm.values E.WordForm.values self.old).rows i (blank [])).stamp → Elsewhere (row_in S.WordForm.values E.WordForm.values slot).stamp (row_in S.WordForm.values E.WordForm.values slot).node → Fills E.WordForm.values E.Entry.kind.filler slot → Holds S.WordForm.values E.WordForm.values E.Entry.kind.filler self.new }
        ensures stays { Stays self.old self.new }
    {
        self.slots[i] = slot;
    }

    // Fills the next slot, under a new stamp.
    pub(super) fn push(&mut self, slot: Slot<S, E>)
        requires { self.old.filled < self.old.capacity }
        ensures table { self.new.slots.now ≡ slice_set self.old.slots.now self.old.filled slot }
        ensures filled { self.new.filled ≡ self.old.filled + 1 }
        ensures ledger { ledger_in S.WordForm.values E.WordForm.values self.new ≡ with_rows (ledger_in S.WordForm.values E.WordForm.values self.old) ((ledger_in S.WordForm.values E.WordForm.values self.old).rows ++ (row_in S.WordForm.values E.WordForm.values slot ∷ [])) }
        ensures kept { Holds S.WordForm.values E.WordForm.values E.Entry.kind.filler self.old → row_of (row_in S.WordForm.values E.WordForm.values slot).stamp (ledger_in S.WordForm.values E.WordForm.values self.old).rows ≡ None → Elsewhere (row_in S.WordForm.values E.WordForm.values slot).stamp (row_in S.WordForm.values E.WordForm.values slot).node → Fills E.WordForm.values E.Entry.kind.filler slot → Holds S.WordForm.values E.WordForm.values E.Entry.kind.filler self.new }
        ensures stays { Stays self.old self.new }
    {
        self.slots[self.filled] = slot;
        self.filled += 1;
    }
}

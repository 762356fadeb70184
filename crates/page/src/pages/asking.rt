// What a page is asked.
ghost use Rattle.std.specs.Prelude.{◌≡◌, map, length, None, ◌==◌};
ghost use Rattle.std.specs.Option.{option_map};
ghost use Rattle.ledger.specs.Paths.{reading};
ghost use Rattle.page.specs.Asking.{found_said, found_under};
ghost use Rattle.page.specs.Holding.{Holds, ledger_in};
ghost use Rattle.readings.specs.Readings.{AnswersJust, Reads, current, rows_read, to_come};
ghost use Rattle.slots.specs.Finding.{stamps_of};

use crate::found::Found;
use crate::pages::Page;
use entries::Entry;
use readings::Reading;
use slots::{find, is_standing};
use stamps::Stamp;

impl<'a, S: Stamp, E: Entry> Page<'a, S, E> {
    // A reading of the page, which lends it: as long as the reading lives, nothing can change the page.
    pub fn reading(&self) -> Reading<'_, S, E>
        ensures rows { rows_read S.WordForm.values E.WordForm.values result ≡ (ledger_in S.WordForm.values E.WordForm.values self.now).rows }
        ensures reads { Holds S.WordForm.values E.WordForm.values E.Entry.kind.filler self.now → Reads S.WordForm.values E.WordForm.values result }
        ensures whole { (to_come S.WordForm.values E.WordForm.values (stamps_of S.WordForm.form S.Stamp.kind) result ≡ reading (stamps_of S.WordForm.form S.Stamp.kind) (ledger_in S.WordForm.values E.WordForm.values self.now).rows) × (current S.WordForm.values E.WordForm.values (stamps_of S.WordForm.form S.Stamp.kind) result ≡ None) }
        ensures walked { Holds S.WordForm.values E.WordForm.values E.Entry.kind.filler self.now → AnswersJust S.WordForm.values E.WordForm.values (stamps_of S.WordForm.form S.Stamp.kind) result (map (λ x. x.stamp) (reading (stamps_of S.WordForm.form S.Stamp.kind) (ledger_in S.WordForm.values E.WordForm.values self.now).rows)) }
        ensures few { result.left ≡ self.now.filled }
    {
        Reading::new(self.held())
    }

    // How many stamps it holds.
    pub fn len(&self) -> usize
        ensures { result ≡ length (ledger_in S.WordForm.values E.WordForm.values self.now).rows }
    {
        self.held().len()
    }

    pub fn is_empty(&self) -> bool
        ensures { result ≡ (length (ledger_in S.WordForm.values E.WordForm.values self.now).rows == 0) }
    {
        self.filled == 0
    }

    // How many stamps it can hold.
    pub fn capacity(&self) -> usize
        ensures { result ≡ (ledger_in S.WordForm.values E.WordForm.values self.now).slots }
    {
        self.capacity
    }

    // The site's number as the page was opened with it.
    pub fn site(&self) -> u32
        ensures { result ≡ (ledger_in S.WordForm.values E.WordForm.values self.now).site }
    {
        self.site
    }

    // The entry that is inserted under the stamp, standing or waiting.
    pub fn get(&self, stamp: &S) -> Option<Found<E>>
        ensures { option_map (found_said E.WordForm.values) result ≡ found_under (S.WordForm.values stamp.now) (ledger_in S.WordForm.values E.WordForm.values self.now).rows }
    {
        let held = self.held();
        let slot = find(held, stamp)?;
        let entry = slot.entry()?;
        Some(Found {
            entry,
            struck: slot.is_struck(),
            standing: is_standing(held, stamp),
        })
    }
}

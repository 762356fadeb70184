// Opening a page.
ghost use Rattle.std.specs.Prelude.{◌≡◌, [], ◌∷◌, length};
ghost use Rattle.words.specs.Answers.{answer, told};
ghost use Rattle.ledger.specs.Answering.{open_questions};
ghost use Rattle.ledger.specs.Laws.{opened};
ghost use Rattle.page.specs.Holding.{Holds, ledger_in};

use crate::pages::Page;
use entries::Entry;
use slots::Slot;
use stamps::{Site, Stamp};
use words::Refusal;

impl<'a, S: Stamp, E: Entry> Page<'a, S, E> {
    // Can a page be opened over the table, for the site?
    pub fn check(table: &[Slot<S, E>], site: u32) -> Result<(), Refusal>
        ensures { told (λ x. x) result ≡ answer (open_questions (length table.now) site) tt }
    {
        if !(1..=4096).contains(&table.len()) {
            return Err(Refusal::TableSize);
        }
        if Site::new(site).is_none() {
            return Err(Refusal::SiteNumber);
        }
        Ok(())
    }

    // A new page over the table. Where the check says no, the page has no slots and takes nothing.
    pub fn open(table: &'a mut [Slot<S, E>], site: u32) -> Page<'a, S, E>
        ensures holds { ledger_in S.WordForm.values E.WordForm.values result ≡ opened site (length table.old) }
        ensures kept { Holds S.WordForm.values E.WordForm.values E.Entry.kind.filler result }
        ensures table { (result.slots.now ≡ table.old) × (result.slots.ghost_name ≡ table.entry.ghost_name) }
    {
        let capacity = match Page::check(table, site) {
            Ok(()) => table.len(),
            Err(_) => 0,
        };
        Page {
            slots: table,
            capacity,
            filled: 0,
            site,
        }
    }
}

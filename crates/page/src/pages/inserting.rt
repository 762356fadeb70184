// Inserting an entry.
ghost use Rattle.std.specs.Prelude.{◌≡◌, ◌<◌, false, [], ◌∷◌, ◌++◌, is_ok, IfOk, None};
ghost use Rattle.std.specs.Option.{option_map};
ghost use Rattle.words.specs.Answers.{answer, ask, told};
ghost use Rattle.messages.specs.Model.{place_said};
ghost use Rattle.messages.specs.declared.model.Operation.TheVariants.{Insert};
ghost use Rattle.ledger.specs.Answering.{after_insert, fresh_stamp, insert_answer, kinds_of};
ghost use Rattle.ledger.specs.Basics.{refusal};
ghost use Rattle.ledger.specs.Laws.{Fresh, place_for, spot_questions, with_rows};
ghost use Rattle.ledger.specs.Laws.Spot.{at_top, after};
ghost use Rattle.ledger.specs.Ledger.{row_of};
ghost use Rattle.slots.specs.Finding.{stamps_of};
ghost use Rattle.slots.specs.Rows.{made_row};
ghost use Rattle.page.specs.Filled.{under_itself};
ghost use Rattle.page.specs.Holding.{Holds, Stays, ledger_in};
ghost use Rattle.page.specs.Inserting.{fresh_questions, spot_of};
ghost use Rattle.page.specs.Tokens.{granting, token_for, token_said};

use crate::named::seek_standing;
use crate::pages::Page;
use crate::tokens::Token;
use entries::Entry;
use messages::{Operation, Place};
use slots::{Slot, greatest_counter, place_after, place_at_top};
use stamps::{Counter, Site, Stamp};
use words::{Refusal, WordForm};

// The entry that has these values. None tells a place: they are no words.
fn read_entry<E: Entry>(values: &[u32]) -> Result<E, Refusal>
    ensures { told E.WordForm.values result ≡ answer (ask 8 (E.WordForm.form.reads values.now) ∷ []) values.now }
{
    E::read(values).ok_or(Refusal::Entry { at: None })
}

impl<'a, S: Stamp, E: Entry> Page<'a, S, E> {
    // Inserts an entry before all that stands, marks the insertion unsent and gives its token.
    pub fn insert_top(&mut self, values: &[u32]) -> Result<Token, Refusal>
        ensures answer { told token_said result ≡ granting (token_for Insert) (insert_answer (kinds_of S.WordForm.form S.Stamp.kind E.WordForm.form E.Entry.kind) (ledger_in S.WordForm.values E.WordForm.values self.old) at_top values.now) }
        ensures holds { Holds S.WordForm.values E.WordForm.values E.Entry.kind.filler self.old → ledger_in S.WordForm.values E.WordForm.values self.new ≡ after_insert (kinds_of S.WordForm.form S.Stamp.kind E.WordForm.form E.Entry.kind) (ledger_in S.WordForm.values E.WordForm.values self.old) at_top values.now }
        ensures kept { Holds S.WordForm.values E.WordForm.values E.Entry.kind.filler self.old → Holds S.WordForm.values E.WordForm.values E.Entry.kind.filler self.new }
        ensures refused { is_ok result ≡ false → self.new ≡ self.old }
        ensures stays { Stays self.old self.new }
    {
        self.insert(None, values)
    }

    // Inserts an entry right after a standing one, marks the insertion unsent and gives its token.
    pub fn insert_after(&mut self, named: &S, values: &[u32]) -> Result<Token, Refusal>
        ensures answer { told token_said result ≡ granting (token_for Insert) (insert_answer (kinds_of S.WordForm.form S.Stamp.kind E.WordForm.form E.Entry.kind) (ledger_in S.WordForm.values E.WordForm.values self.old) (after (S.WordForm.values named.now)) values.now) }
        ensures holds { Holds S.WordForm.values E.WordForm.values E.Entry.kind.filler self.old → ledger_in S.WordForm.values E.WordForm.values self.new ≡ after_insert (kinds_of S.WordForm.form S.Stamp.kind E.WordForm.form E.Entry.kind) (ledger_in S.WordForm.values E.WordForm.values self.old) (after (S.WordForm.values named.now)) values.now }
        ensures kept { Holds S.WordForm.values E.WordForm.values E.Entry.kind.filler self.old → Holds S.WordForm.values E.WordForm.values E.Entry.kind.filler self.new }
        ensures refused { is_ok result ≡ false → self.new ≡ self.old }
        ensures stays { Stays self.old self.new }
    {
        self.insert(Some(*named), values)
    }

    // Inserts an entry right after a named one, or at the top if none is named.
    fn insert(&mut self, named: Option<S>, values: &[u32]) -> Result<Token, Refusal>
        ensures answer { told token_said result ≡ granting (token_for Insert) (insert_answer (kinds_of S.WordForm.form S.Stamp.kind E.WordForm.form E.Entry.kind) (ledger_in S.WordForm.values E.WordForm.values self.old) (spot_of (option_map S.WordForm.values named)) values.now) }
        ensures holds { Holds S.WordForm.values E.WordForm.values E.Entry.kind.filler self.old → ledger_in S.WordForm.values E.WordForm.values self.new ≡ after_insert (kinds_of S.WordForm.form S.Stamp.kind E.WordForm.form E.Entry.kind) (ledger_in S.WordForm.values E.WordForm.values self.old) (spot_of (option_map S.WordForm.values named)) values.now }
        ensures kept { Holds S.WordForm.values E.WordForm.values E.Entry.kind.filler self.old → Holds S.WordForm.values E.WordForm.values E.Entry.kind.filler self.new }
        ensures refused { is_ok result ≡ false → self.new ≡ self.old }
        ensures stays { Stays self.old self.new }
    {
        let entry: E = read_entry(values)?;
        self.check_spot(named)?;
        let stamp = self.fresh_stamp()?;
        let place = self.place_for(named);
        Ok(self.enter(stamp, place, entry))
    }

    // Where an entry is named, it must be inserted here and stand.
    fn check_spot(&self, named: Option<S>) -> Result<(), Refusal>
        ensures { told {X = Unit {0}} (λ u. tt) result ≡ answer (spot_questions (ledger_in S.WordForm.values E.WordForm.values self.now) (spot_of (option_map S.WordForm.values named))) tt }
    {
        if let Some(named) = named {
            seek_standing(self.held(), &named)?;
        }
        Ok(())
    }

    // The place of a new entry.
    fn place_for(&self, named: Option<S>) -> Place<S>
        requires { refusal (spot_questions (ledger_in S.WordForm.values E.WordForm.values self.now) (spot_of (option_map S.WordForm.values named))) ≡ None }
        ensures { Holds S.WordForm.values E.WordForm.values E.Entry.kind.filler self.now → place_said S.WordForm.values result ≡ place_for (stamps_of S.WordForm.form S.Stamp.kind) (ledger_in S.WordForm.values E.WordForm.values self.now) (spot_of (option_map S.WordForm.values named)) }
    {
        match named {
            None => place_at_top(self.held()),
            Some(named) => place_after(self.held(), named),
        }
    }

    // The stamp of the next insertion made here: the page's site, and one more than the site's greatest counter.
    fn fresh_stamp(&self) -> Result<S, Refusal>
        ensures answer { told S.WordForm.values result ≡ answer (fresh_questions (kinds_of S.WordForm.form S.Stamp.kind E.WordForm.form E.Entry.kind) (ledger_in S.WordForm.values E.WordForm.values self.now)) (fresh_stamp (kinds_of S.WordForm.form S.Stamp.kind E.WordForm.form E.Entry.kind) (ledger_in S.WordForm.values E.WordForm.values self.now)) }
        ensures fresh { IfOk result (λ s. Fresh (stamps_of S.WordForm.form S.Stamp.kind) (ledger_in S.WordForm.values E.WordForm.values self.now) (S.WordForm.values s)) }
        ensures room { IfOk result (λ s. self.now.filled < self.now.capacity) }
    {
        let last = S::last().get();
        // a page whose site number is bad has no slots
        let site = Site::new(self.site).ok_or(Refusal::NoSlot)?;
        let greatest = greatest_counter(self.held(), site.get()).map_or(0, |counter| counter.get());
        if greatest >= last {
            return Err(Refusal::NoFreshCounter);
        }
        if self.filled >= self.capacity {
            return Err(Refusal::NoSlot);
        }
        let counter = Counter::new(greatest + 1).unwrap();
        Ok(S::new(site, counter).unwrap())
    }

    // Fills a slot with an insertion made here.
    fn enter(&mut self, stamp: S, place: Place<S>, entry: E) -> Token
        requires { self.old.filled < self.old.capacity }
        ensures token { token_said result ≡ token_for Insert (S.WordForm.values stamp) }
        ensures ledger { ledger_in S.WordForm.values E.WordForm.values self.new ≡ with_rows (ledger_in S.WordForm.values E.WordForm.values self.old) ((ledger_in S.WordForm.values E.WordForm.values self.old).rows ++ (made_row (S.WordForm.values stamp) (record { place = place_said S.WordForm.values place; entry = E.WordForm.values entry }) ∷ [])) }
        ensures kept { Holds S.WordForm.values E.WordForm.values E.Entry.kind.filler self.old → row_of (S.WordForm.values stamp) (ledger_in S.WordForm.values E.WordForm.values self.old).rows ≡ None → under_itself (S.WordForm.values stamp) (place_said S.WordForm.values place) ≡ false → Holds S.WordForm.values E.WordForm.values E.Entry.kind.filler self.new }
        ensures stays { Stays self.old self.new }
    {
        self.push(Slot::made(stamp, place, entry));
        Token::new(Operation::Insert, &stamp)
    }
}

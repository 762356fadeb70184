// Receiving a message.
ghost use Rattle.std.specs.Prelude.{◌≡◌, ◌<◌, false, not, is_ok, Some, None};
ghost use Rattle.words.specs.Answers.{answer, is_new, told};
ghost use Rattle.messages.specs.Model.{said, stamp_of};
ghost use Rattle.ledger.specs.Answering.{after_receive, holds, kinds_of, receive_answer};
ghost use Rattle.ledger.specs.Basics.{refusal};
ghost use Rattle.ledger.specs.Ledger.{row_of};
ghost use Rattle.ledger.specs.Receive.{ledger_questions};
ghost use Rattle.slots.specs.Finding.{FirstWith};
ghost use Rattle.page.specs.Holding.{Holds, Stays, ledger_in};
ghost use Rattle.page.specs.Receiving.{HangsElsewhere, with_message};

use crate::pages::Page;
use entries::Entry;
use messages::Message;
use slots::{Slot, seek};
use stamps::Stamp;
use words::{Received, Refusal};

impl<'a, S: Stamp, E: Entry> Page<'a, S, E> {
    // Takes a message, of whatever number and content its words be.
    pub fn receive(&mut self, words: &[u32]) -> Result<Received, Refusal>
        ensures answer { told is_new result ≡ receive_answer (kinds_of S.WordForm.form S.Stamp.kind E.WordForm.form E.Entry.kind) (ledger_in S.WordForm.values E.WordForm.values self.old) words.now }
        ensures holds { ledger_in S.WordForm.values E.WordForm.values self.new ≡ after_receive (kinds_of S.WordForm.form S.Stamp.kind E.WordForm.form E.Entry.kind) (ledger_in S.WordForm.values E.WordForm.values self.old) words.now }
        ensures kept { Holds S.WordForm.values E.WordForm.values E.Entry.kind.filler self.old → Holds S.WordForm.values E.WordForm.values E.Entry.kind.filler self.new }
        ensures refused { is_ok result ≡ false → self.new ≡ self.old }
        ensures stays { Stays self.old self.new }
    {
        let message: Message<S, E> = Message::read(words)?;
        match seek(self.held(), &message.stamp()) {
            None => self.accept(&message),
            Some(i) => self.merge(i, &message),
        }
    }

    // A message under a stamp that is not held.
    fn accept(&mut self, message: &Message<S, E>) -> Result<Received, Refusal>
        requires { row_of (stamp_of (said S.WordForm.values E.WordForm.values message.now)) (ledger_in S.WordForm.values E.WordForm.values self.old).rows ≡ None }
        ensures answer { told is_new result ≡ answer (ledger_questions (ledger_in S.WordForm.values E.WordForm.values self.old) (said S.WordForm.values E.WordForm.values message.now)) (not (holds (ledger_in S.WordForm.values E.WordForm.values self.old) (said S.WordForm.values E.WordForm.values message.now))) }
        ensures holds { ledger_in S.WordForm.values E.WordForm.values self.new ≡ with_message (ledger_in S.WordForm.values E.WordForm.values self.old) (said S.WordForm.values E.WordForm.values message.now) (refusal (ledger_questions (ledger_in S.WordForm.values E.WordForm.values self.old) (said S.WordForm.values E.WordForm.values message.now))) }
        ensures kept { HangsElsewhere (said S.WordForm.values E.WordForm.values message.now) → Holds S.WordForm.values E.WordForm.values E.Entry.kind.filler self.old → Holds S.WordForm.values E.WordForm.values E.Entry.kind.filler self.new }
        ensures refused { is_ok result ≡ false → self.new ≡ self.old }
        ensures stays { Stays self.old self.new }
    {
        if self.filled >= self.capacity {
            return Err(Refusal::NoSlot);
        }
        self.push(Slot::received(message));
        Ok(Received::New)
    }

    // A message under the stamp of a filled slot.
    fn merge(&mut self, i: usize, message: &Message<S, E>) -> Result<Received, Refusal>
        requires { (i < self.old.filled) × (FirstWith (stamp_of (said S.WordForm.values E.WordForm.values message.now)) (ledger_in S.WordForm.values E.WordForm.values self.old).rows (Some i)) }
        ensures answer { told is_new result ≡ answer (ledger_questions (ledger_in S.WordForm.values E.WordForm.values self.old) (said S.WordForm.values E.WordForm.values message.now)) (not (holds (ledger_in S.WordForm.values E.WordForm.values self.old) (said S.WordForm.values E.WordForm.values message.now))) }
        ensures holds { ledger_in S.WordForm.values E.WordForm.values self.new ≡ with_message (ledger_in S.WordForm.values E.WordForm.values self.old) (said S.WordForm.values E.WordForm.values message.now) (refusal (ledger_questions (ledger_in S.WordForm.values E.WordForm.values self.old) (said S.WordForm.values E.WordForm.values message.now))) }
        ensures kept { HangsElsewhere (said S.WordForm.values E.WordForm.values message.now) → Holds S.WordForm.values E.WordForm.values E.Entry.kind.filler self.old → Holds S.WordForm.values E.WordForm.values E.Entry.kind.filler self.new }
        ensures refused { is_ok result ≡ false → self.new ≡ self.old }
        ensures stays { Stays self.old self.new }
    {
        let slot = self.held()[i];
        if !slot.admits(message) {
            return Err(Refusal::OtherInsertion);
        }
        if slot.holds(message) {
            return Ok(Received::Held);
        }
        self.put(i, slot.with(message));
        Ok(Received::New)
    }
}

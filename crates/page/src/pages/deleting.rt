// Deleting an entry.
ghost use Rattle.std.specs.Prelude.{◌≡◌, false, is_ok};
ghost use Rattle.words.specs.Answers.{told};
ghost use Rattle.messages.specs.declared.model.Operation.TheVariants.{Delete};
ghost use Rattle.ledger.specs.Answering.{after_delete, delete_answer};
ghost use Rattle.page.specs.Holding.{Holds, Stays, ledger_in};
ghost use Rattle.page.specs.Tokens.{granting, token_for, token_said};

use crate::named::seek_standing;
use crate::pages::Page;
use crate::tokens::Token;
use entries::Entry;
use messages::Operation;
use stamps::Stamp;
use words::Refusal;

impl<'a, S: Stamp, E: Entry> Page<'a, S, E> {
    // Strikes a standing entry, marks the deletion unsent and gives its token.
    pub fn delete(&mut self, stamp: &S) -> Result<Token, Refusal>
        ensures answer { told token_said result ≡ granting (token_for Delete) (delete_answer (ledger_in S.WordForm.values E.WordForm.values self.old) (S.WordForm.values stamp.now)) }
        ensures holds { ledger_in S.WordForm.values E.WordForm.values self.new ≡ after_delete (ledger_in S.WordForm.values E.WordForm.values self.old) (S.WordForm.values stamp.now) }
        ensures kept { Holds S.WordForm.values E.WordForm.values E.Entry.kind.filler self.old → Holds S.WordForm.values E.WordForm.values E.Entry.kind.filler self.new }
        ensures refused { is_ok result ≡ false → self.new ≡ self.old }
        ensures stays { Stays self.old self.new }
    {
        let held = self.held();
        let i = seek_standing(held, stamp)?;
        let slot = held[i];
        if slot.is_struck() {
            return Err(Refusal::AlreadyStruck);
        }
        self.put(i, slot.struck_here());
        Ok(Token::new(Operation::Delete, stamp))
    }
}

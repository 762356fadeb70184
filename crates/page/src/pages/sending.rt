// Sending messages that were made here.
ghost use Rattle.std.specs.Prelude.{◌≡◌, ◌<◌, false, [], length, drop, IfSome, is_ok, IfOk, Some, None, slice_index_or};
ghost use Rattle.words.specs.Answers.{told};
ghost use Rattle.words.specs.Layout.{put_front};
ghost use Rattle.ledger.specs.Answering.{after_send, after_send_next, kinds_of, next_words, send_next_answer, words_sent};
ghost use Rattle.ledger.specs.Calls.{blank};
ghost use Rattle.ledger.specs.Laws.{next_unsent, outgoing};
ghost use Rattle.page.specs.Holding.{Holds, Stays, ledger_in};
ghost use Rattle.page.specs.Sending.{count_sent, with_sent};
ghost use Rattle.page.specs.Tokens.{granting, stamp_named};

use crate::pages::Page;
use crate::tokens::Token;
use crate::unsent::next_unsent;
use entries::Entry;
use messages::Operation;
use slots::seek;
use stamps::Stamp;
use words::Refusal;

impl<'a, S: Stamp, E: Entry> Page<'a, S, E> {
    // Puts the token's message at the front of a space, clears its mark and answers the count of its words. Where the space is too short, or the message is not marked unsent on this page, it writes nothing and answers 0. The token is spent in any case.
    // A plain count and no Option: what was sent is the first so many words of the space, in either case.
    pub fn send(&mut self, token: Token, out: &mut [u32]) -> usize
        ensures answer { Holds S.WordForm.values E.WordForm.values E.Entry.kind.filler self.old → result ≡ length (words_sent (kinds_of S.WordForm.form S.Stamp.kind E.WordForm.form E.Entry.kind) (ledger_in S.WordForm.values E.WordForm.values self.old) token.operation (stamp_named S.WordForm.form.count token) (length out.old)) }
        ensures wrote { Holds S.WordForm.values E.WordForm.values E.Entry.kind.filler self.old → out.new ≡ put_front (words_sent (kinds_of S.WordForm.form S.Stamp.kind E.WordForm.form E.Entry.kind) (ledger_in S.WordForm.values E.WordForm.values self.old) token.operation (stamp_named S.WordForm.form.count token) (length out.old)) out.old }
        ensures holds { Holds S.WordForm.values E.WordForm.values E.Entry.kind.filler self.old → ledger_in S.WordForm.values E.WordForm.values self.new ≡ after_send (kinds_of S.WordForm.form S.Stamp.kind E.WordForm.form E.Entry.kind) (ledger_in S.WordForm.values E.WordForm.values self.old) token.operation (stamp_named S.WordForm.form.count token) (length out.old) }
        ensures kept { Holds S.WordForm.values E.WordForm.values E.Entry.kind.filler self.old → Holds S.WordForm.values E.WordForm.values E.Entry.kind.filler self.new }
        ensures nothing { result ≡ 0 → (self.new ≡ self.old) × (out.new ≡ out.old) }
        ensures rest { drop result out.new ≡ drop result out.old }
        ensures stays { Stays self.old self.new }
    {
        let named: Option<S> = token.stamp();
        // each field is named, since a pattern with `..` does not take the token apart
        let Token {
            operation,
            values: _,
        } = token;
        let Some(stamp) = named else {
            return 0;
        };
        match seek(self.held(), &stamp) {
            None => 0,
            Some(i) => self.send_at(i, operation, out).unwrap_or(0),
        }
    }

    // Sends the message of the lowest marked slot, its insertion before its deletion.
    pub fn send_next(&mut self, out: &mut [u32]) -> Result<usize, Refusal>
        ensures answer { Holds S.WordForm.values E.WordForm.values E.Entry.kind.filler self.old → told (λ n. n) result ≡ granting length (send_next_answer (kinds_of S.WordForm.form S.Stamp.kind E.WordForm.form E.Entry.kind) (ledger_in S.WordForm.values E.WordForm.values self.old) (length out.old)) }
        ensures wrote { Holds S.WordForm.values E.WordForm.values E.Entry.kind.filler self.old → out.new ≡ put_front (next_words (kinds_of S.WordForm.form S.Stamp.kind E.WordForm.form E.Entry.kind) (ledger_in S.WordForm.values E.WordForm.values self.old) (next_unsent (ledger_in S.WordForm.values E.WordForm.values self.old).rows)) out.old }
        ensures holds { Holds S.WordForm.values E.WordForm.values E.Entry.kind.filler self.old → ledger_in S.WordForm.values E.WordForm.values self.new ≡ after_send_next (kinds_of S.WordForm.form S.Stamp.kind E.WordForm.form E.Entry.kind) (ledger_in S.WordForm.values E.WordForm.values self.old) (length out.old) }
        ensures kept { Holds S.WordForm.values E.WordForm.values E.Entry.kind.filler self.old → Holds S.WordForm.values E.WordForm.values E.Entry.kind.filler self.new }
        ensures refused { is_ok result ≡ false → (self.new ≡ self.old) × (out.new ≡ out.old) }
        ensures rest { IfOk result (λ n. drop n out.new ≡ drop n out.old) }
        ensures stays { Stays self.old self.new }
    {
        let next = next_unsent(self.held()).ok_or(Refusal::NothingUnsent)?;
        self.send_at(next.at, next.operation, out)
            .ok_or(Refusal::SpaceTooShort)
    }

    // Sends the message of a filled slot, if it is marked and the space is long enough.
    // A slot and an operation, and no `Unsent`: a token's message may be sent already.
    fn send_at(&mut self, i: usize, operation: Operation, out: &mut [u32]) -> Option<usize>
        requires { i < self.old.filled }
        ensures answer { Holds S.WordForm.values E.WordForm.values E.Entry.kind.filler self.old → result ≡ count_sent (outgoing (kinds_of S.WordForm.form S.Stamp.kind E.WordForm.form E.Entry.kind) operation (Some (slice_index_or (ledger_in S.WordForm.values E.WordForm.values self.old).rows i (blank [])))) (length out.old) }
        ensures wrote { Holds S.WordForm.values E.WordForm.values E.Entry.kind.filler self.old → out.new ≡ put_front (outgoing (kinds_of S.WordForm.form S.Stamp.kind E.WordForm.form E.Entry.kind) operation (Some (slice_index_or (ledger_in S.WordForm.values E.WordForm.values self.old).rows i (blank [])))) out.old }
        ensures holds { Holds S.WordForm.values E.WordForm.values E.Entry.kind.filler self.old → ledger_in S.WordForm.values E.WordForm.values self.new ≡ with_sent (ledger_in S.WordForm.values E.WordForm.values self.old) i operation (outgoing (kinds_of S.WordForm.form S.Stamp.kind E.WordForm.form E.Entry.kind) operation (Some (slice_index_or (ledger_in S.WordForm.values E.WordForm.values self.old).rows i (blank [])))) (length out.old) }
        ensures kept { Holds S.WordForm.values E.WordForm.values E.Entry.kind.filler self.old → Holds S.WordForm.values E.WordForm.values E.Entry.kind.filler self.new }
        ensures nothing { result ≡ None → (self.new ≡ self.old) × (out.new ≡ out.old) }
        ensures rest { IfSome result (λ n. (0 < n) × (drop n out.new ≡ drop n out.old)) }
        ensures stays { Stays self.old self.new }
    {
        let slot = self.held()[i];
        let message = slot.unsent(operation)?;
        let n = message.write(out).ok()?;
        self.put(i, slot.sent(operation));
        Some(n)
    }
}

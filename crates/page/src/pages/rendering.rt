// The page in print.
ghost use Rattle.std.specs.Prelude.{◌≡◌, ◌≤◌, false, length, drop, is_ok, IfOk};
ghost use Rattle.words.specs.Answers.{told};
ghost use Rattle.words.specs.Layout.{put_front};
ghost use Rattle.ledger.specs.Answering.{kinds_of, render_answer, rendered};
ghost use Rattle.page.specs.Holding.{Holds, ledger_in};

use crate::pages::Page;
use entries::Entry;
use stamps::Stamp;
use words::Refusal;

impl<'a, S: Stamp, E: Entry> Page<'a, S, E> {
    // Puts the printed bytes of the entries that stand and are not struck, in order, at the front of a space and answers their count.
    pub fn render(&self, out: &mut [u8]) -> Result<usize, Refusal>
        ensures answer { Holds S.WordForm.values E.WordForm.values E.Entry.kind.filler self.now → told (λ n. n) result ≡ render_answer (kinds_of S.WordForm.form S.Stamp.kind E.WordForm.form E.Entry.kind) (ledger_in S.WordForm.values E.WordForm.values self.now) (length out.old) }
        ensures wrote { Holds S.WordForm.values E.WordForm.values E.Entry.kind.filler self.now → out.new ≡ put_front (rendered (kinds_of S.WordForm.form S.Stamp.kind E.WordForm.form E.Entry.kind) (ledger_in S.WordForm.values E.WordForm.values self.now)) out.old }
        ensures refused { is_ok result ≡ false → out.new ≡ out.old }
        ensures rest { IfOk result (λ n. drop n out.new ≡ drop n out.old) }
    {
        if self.text_len() > out.len() {
            return Err(Refusal::SpaceTooShort);
        }
        Ok(self.put_text(out))
    }

    // How many bytes the page prints. Counting writes nothing, so it walks on its own.
    fn text_len(&self) -> usize
        ensures { Holds S.WordForm.values E.WordForm.values E.Entry.kind.filler self.now → result ≡ length (rendered (kinds_of S.WordForm.form S.Stamp.kind E.WordForm.form E.Entry.kind) (ledger_in S.WordForm.values E.WordForm.values self.now)) }
    {
        let mut reading = self.reading();
        let mut len = 0;
        // no `for`: the reading is asked between its steps
        while let Some(_) = reading.next() {
            len += reading.printed_len();
        }
        len
    }

    // Puts them at the front of a space and answers how many there were room for.
    fn put_text(&self, out: &mut [u8]) -> usize
        ensures wrote { Holds S.WordForm.values E.WordForm.values E.Entry.kind.filler self.now → length (rendered (kinds_of S.WordForm.form S.Stamp.kind E.WordForm.form E.Entry.kind) (ledger_in S.WordForm.values E.WordForm.values self.now)) ≤ length out.old → (result ≡ length (rendered (kinds_of S.WordForm.form S.Stamp.kind E.WordForm.form E.Entry.kind) (ledger_in S.WordForm.values E.WordForm.values self.now))) × (out.new ≡ put_front (rendered (kinds_of S.WordForm.form S.Stamp.kind E.WordForm.form E.Entry.kind) (ledger_in S.WordForm.values E.WordForm.values self.now)) out.old) }
        ensures rest { drop result out.new ≡ drop result out.old }
    {
        let mut reading = self.reading();
        let mut at = 0;
        // no `for`, as above
        while let Some(_) = reading.next() {
            at += reading.print(&mut out[at..]);
        }
        at
    }
}

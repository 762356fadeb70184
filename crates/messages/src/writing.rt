// From a message to words.
ghost use Rattle.std.specs.Prelude.{◌≡◌, ◌^◌, ◌<◌, ◌≤◌, true, length, is_some, is_ok, if◌then◌else◌};
ghost use Rattle.words.specs.Answers.{told};
ghost use Rattle.words.specs.Answers.Answer.{granted};
ghost use Rattle.words.specs.Layout.{put_front};
ghost use Rattle.messages.specs.FromWords.{read_answer};
ghost use Rattle.messages.specs.InWords.{body, head_value, in_words, put_at, under_itself, write_answer};
ghost use Rattle.messages.specs.Model.{operation_number, operation_of, said};
ghost use Rattle.messages.specs.Writing.{Put, Room};

use crate::model::{Message, Place, Tag};
use crate::writer::Writer;
use entries::Entry;
use stamps::Stamp;
use words::{Refusal, WordForm};

impl<S: Stamp, E: Entry> Message<S, E> {
    // How many words the message takes, 26 at the most.
    pub fn word_count(&self) -> usize
        ensures few { result ≤ 26 }
        ensures value { result ≡ length (in_words S.WordForm.form E.WordForm.form (said S.WordForm.values E.WordForm.values self.now)) }
    {
        let n = S::count();
        match self {
            Message::Insertion {
                place: Place::Ground,
                ..
            } => 2 + n + E::count(),
            Message::Insertion { .. } => 2 + n + n + E::count(),
            Message::Deletion { .. } => 1 + n,
        }
    }

    // Is the message an insertion under its own stamp? No words say that.
    fn is_under_itself(&self) -> bool
        ensures { result ≡ is_some (under_itself S.WordForm.form (said S.WordForm.values E.WordForm.values self.now)) }
    {
        match self {
            Message::Insertion {
                stamp,
                place: Place::Under { parent, .. },
                ..
            } => parent.same(stamp),
            _ => false,
        }
    }

    // The value of the head.
    fn head(&self) -> u32
        ensures value { result ≡ head_value (operation_number (operation_of (said S.WordForm.values E.WordForm.values self.now))) S.WordForm.form.number E.WordForm.form.number (length (body (said S.WordForm.values E.WordForm.values self.now))) }
        ensures small { result < 2 ^ 28 }
    {
        u32::from_be_bytes([
            self.operation().into(),
            S::number(),
            E::number(),
            (self.word_count() - 1) as u8,
        ])
    }

    // Puts the words that follow the head.
    fn put_body(&self, writer: &mut Writer)
        requires { Room writer.old (length (body (said S.WordForm.values E.WordForm.values self.now))) }
        ensures { Put writer.old writer.new (body (said S.WordForm.values E.WordForm.values self.now)) }
    {
        match self {
            Message::Insertion {
                stamp,
                place,
                entry,
            } => {
                writer.put_form(stamp, Tag::OwnStamp);
                writer.put_place(place);
                writer.put_form(entry, Tag::EntryValue);
            }
            Message::Deletion { stamp } => writer.put_form(stamp, Tag::OwnStamp),
        }
    }

    // Puts the words at the front of a space that is long enough.
    fn put_words(&self, space: &mut [u32])
        requires { length (in_words S.WordForm.form E.WordForm.form (said S.WordForm.values E.WordForm.values self.now)) ≤ length space.old }
        ensures { space.new ≡ put_at 0 (in_words S.WordForm.form E.WordForm.form (said S.WordForm.values E.WordForm.values self.now)) space.old }
    {
        let mut writer = Writer::new(space);
        writer.put_word(Tag::Head, self.head());
        self.put_body(&mut writer);
    }

    // Puts the words of the message at the front of a space and answers their count.
    pub fn write(&self, space: &mut [u32]) -> Result<usize, Refusal>
        ensures answer { told (λ n. n) result ≡ write_answer S.WordForm.form E.WordForm.form (said S.WordForm.values E.WordForm.values self.now) space.old }
        ensures wrote { space.new ≡ (if is_ok result then put_front (in_words S.WordForm.form E.WordForm.form (said S.WordForm.values E.WordForm.values self.now)) space.old else space.old) }
        ensures reads_back { is_ok result ≡ true → read_answer S.WordForm.form E.WordForm.form (in_words S.WordForm.form E.WordForm.form (said S.WordForm.values E.WordForm.values self.now)) ≡ granted (said S.WordForm.values E.WordForm.values self.now) }
    {
        if self.is_under_itself() {
            return Err(Refusal::Stamp { at: 2 + S::count() });
        }
        let n = self.word_count();
        if space.len() < n {
            return Err(Refusal::SpaceTooShort);
        }
        self.put_words(space);
        Ok(n)
    }
}

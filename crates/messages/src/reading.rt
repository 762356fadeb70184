// From words to a message.
ghost use Rattle.std.specs.Prelude.{◌≡◌, ◌+◌, ◌-◌, ◌≤◌, ◌&&◌, [], ◌∷◌, map, length, take, drop, replicate, not, position, IfOk, None, ◌==◌};
ghost use Rattle.std.specs.Option.{option_map};
ghost use Rattle.words.specs.Answers.{told, answer, ask, ask_fault};
ghost use Rattle.words.specs.Forms.{read_as};
ghost use Rattle.words.specs.Layout.{value_of};
ghost use Rattle.messages.specs.FromWords.{allows, bad_parent, bad_place, bad_word, body_questions, count_in, entry_at, fits, insertion_tags, kinds_match, message_in, names_parent, operates, operation_in, own_in, place_in, read_answer, values_at};
ghost use Rattle.messages.specs.InWords.{in_words};
ghost use Rattle.messages.specs.Model.{operation_number, place_said, said};
ghost use Rattle.messages.specs.declared.model.Operation.TheVariants.{Insert, Delete};

use crate::model::{Message, Operation, Place, Side, Tag};
use entries::Entry;
use stamps::Stamp;
use words::{Refusal, Word, WordForm};

impl Tag {
    // Only the value 0 goes with the ground, and only that of a side with a side.
    fn allows(self, value: u32) -> bool
        ensures { result ≡ allows self value }
    {
        match self {
            Tag::OnGround => value == 0,
            Tag::OnSide => Side::try_from(value).is_ok(),
            _ => true,
        }
    }

    // Has the word this tag, and a value that goes with it?
    fn fits(self, word: Word) -> bool
        ensures { result ≡ fits self word.bits }
    {
        word.tag() == u8::from(self) && self.allows(word.value())
    }

    // The place of the first of these words that does not fit the tag.
    fn first_misfit(self, words: &[u32]) -> Option<usize>
        ensures { result ≡ position (λ w. not (fits self w)) words.now }
    {
        words.iter().position(|word| !self.fits(Word::from(*word)))
    }
}

// Takes the tags off the words, so that their values are left.
#[tactic(auto, using(crate::proofs::Filling::map_fill_more, crate::proofs::Filling::fill_next))]
fn untag_words(words: &mut [u32])
    ensures { words.new ≡ map value_of words.old }
{
    for word in words.iter_mut() {
        *word = Word::from(*word).value();
    }
}

// The thing whose values these words have, if they read.
fn read_form<F: WordForm>(words: &[u32]) -> Option<F>
    requires { length words.now ≤ 16 }
    ensures { option_map F.WordForm.values result ≡ read_as F.WordForm.form (map value_of words.now) }
{
    let mut space = [0; 16];
    let values = &mut space[..words.len()];
    values.copy_from_slice(words);
    untag_words(values);
    F::read(values)
}

// Words with a head that names an operation, and says how many words follow it.
#[derive(Clone, Copy)]
struct Headed<'w> {
    words: &'w [u32],
    operation: Operation,
    count: usize,
    ghost named: { operation_number operation ≡ operation_in words.now },
    ghost counted: { count ≡ count_in words.now },
}

impl<'w> Headed<'w> {
    // Words with a head that names an operation and the kinds that are expected.
    fn new<S: Stamp, E: Entry>(words: &'w [u32]) -> Result<Headed<'w>, Refusal>
        ensures { told (λ h. h.words.now) result ≡ answer (ask 3 (operates words.now) ∷ ask 4 (kinds_match S.WordForm.form E.WordForm.form words.now) ∷ []) words.now }
    {
        let first = words.first().ok_or(Refusal::Head)?;
        let head = Word::from(*first);
        let [operation, stamp_kind, entry_kind, count] = head.value().to_be_bytes();
        let operation = Operation::try_from(u32::from(operation))?;
        if head.tag() != u8::from(Tag::Head) {
            return Err(Refusal::Head);
        }
        if stamp_kind != S::number() || entry_kind != E::number() {
            return Err(Refusal::Kinds);
        }
        Ok(Headed {
            words,
            operation,
            count: usize::from(count),
        })
    }

    // As many words as the head says, and as the layout has.
    fn expect_length(&self, layout: usize) -> Result<(), Refusal>
        ensures { told (λ x. x) result ≡ answer (ask 5 (length self.now.words.now == 1 + count_in self.now.words.now && length self.now.words.now == layout) ∷ []) tt }
    {
        if self.words.len() != 1 + self.count || self.words.len() != layout {
            return Err(Refusal::Length);
        }
        Ok(())
    }

    // The words from one place to before another have to fit the tag.
    #[tactic(auto, using(crate::proofs::Tagging::misfit_told))]
    fn expect_words(&self, from: usize, to: usize, tag: Tag) -> Result<(), Refusal>
        requires { (from ≤ to) × (to ≤ length self.now.words.now) }
        ensures { told (λ x. x) result ≡ answer (ask_fault 6 (bad_word from (replicate (to - from) tag) (drop from self.now.words.now)) ∷ []) tt }
    {
        match tag.first_misfit(&self.words[from..to]) {
            Some(i) => Err(Refusal::Word { at: from + i }),
            None => Ok(()),
        }
    }

    // The thing whose values the words from a place on have, if they read.
    fn read_at<F: WordForm>(&self, at: usize) -> Option<F>
        requires few { F.WordForm.form.count ≤ 16 }
        requires within { at + F.WordForm.form.count ≤ length self.now.words.now }
        ensures { option_map F.WordForm.values result ≡ read_as F.WordForm.form (values_at self.now.words.now at F.WordForm.form.count) }
    {
        let n = F::count();
        read_form(&self.words[at..at + n])
    }

    // Does the place word name a parent? Any other is read as the ground.
    fn has_parent<S: Stamp>(&self) -> bool
        ensures { result ≡ names_parent S.WordForm.form.count self.now.words.now }
    {
        self.words
            .get(1 + S::count())
            .is_some_and(|word| Word::from(*word).tag() == u8::from(Tag::OnSide))
    }

    // Where the entry of an insertion begins.
    fn entry_at<S: Stamp>(&self) -> usize
        ensures { result ≡ entry_at S.WordForm.form.count self.now.words.now }
    {
        let n = S::count();
        if self.has_parent::<S>() {
            2 + n + n
        } else {
            2 + n
        }
    }

    // The tags of the place.
    fn expect_place<S: Stamp>(&self) -> Result<(), Refusal>
        requires { entry_at S.WordForm.form.count self.now.words.now ≤ length self.now.words.now }
        ensures { told (λ x. x) result ≡ answer (ask_fault 6 (bad_place S.WordForm.form.count self.now.words.now) ∷ []) tt }
    {
        let n = S::count();
        if !self.has_parent::<S>() {
            return self.expect_words(1 + n, 2 + n, Tag::OnGround);
        }
        self.expect_words(1 + n, 2 + n, Tag::OnSide)?;
        self.expect_words(2 + n, 2 + n + n, Tag::ParentStamp)
    }

    // The tags of an insertion.
    #[tactic(auto, using(crate::proofs::Placing::insertion_faults))]
    fn expect_insertion<S: Stamp, E: Entry>(&self) -> Result<(), Refusal>
        requires { length self.now.words.now ≡ entry_at S.WordForm.form.count self.now.words.now + E.WordForm.form.count }
        ensures { told (λ x. x) result ≡ answer (ask_fault 6 (bad_word 1 (insertion_tags S.WordForm.form.count E.WordForm.form.count self.now.words.now) (drop 1 self.now.words.now)) ∷ []) tt }
    {
        self.expect_words(1, 1 + S::count(), Tag::OwnStamp)?;
        self.expect_place::<S>()?;
        self.expect_words(self.entry_at::<S>(), self.words.len(), Tag::EntryValue)
    }

    // The place of an insertion whose words have their tags. A parent has to read, and to be another stamp than its own.
    fn read_place<S: Stamp>(&self, own: &S) -> Result<Place<S>, Refusal>
        requires insertion { self.now.operation ≡ Insert }
        requires long { entry_at S.WordForm.form.count self.now.words.now ≤ length self.now.words.now }
        requires tagged { bad_place S.WordForm.form.count self.now.words.now ≡ None }
        requires own { S.WordForm.values own.now ≡ own_in S.WordForm.form.count self.now.words.now }
        ensures { told (place_said S.WordForm.values) result ≡ answer (ask_fault 7 (bad_parent S.WordForm.form self.now.words.now) ∷ []) (place_in S.WordForm.form.count self.now.words.now) }
    {
        if !self.has_parent::<S>() {
            return Ok(Place::Ground);
        }
        let n = S::count();
        let at = 2 + n;
        let parent = self.read_at::<S>(at).ok_or(Refusal::Stamp { at })?;
        if parent.same(own) {
            return Err(Refusal::Stamp { at });
        }
        // The place word fits its tag, so its value is a side's.
        let side = Side::try_from(Word::from(self.words[1 + n]).value()).unwrap();
        Ok(Place::Under { side, parent })
    }

    // What follows the head of a deletion.
    fn read_deletion<S: Stamp, E: Entry>(&self) -> Result<Message<S, E>, Refusal>
        requires { self.now.operation ≡ Delete }
        ensures { told (said S.WordForm.values E.WordForm.values) result ≡ answer (body_questions S.WordForm.form E.WordForm.form self.now.words.now) (message_in S.WordForm.form.count E.WordForm.form.count self.now.words.now) }
    {
        let end = 1 + S::count();
        self.expect_length(end)?;
        self.expect_words(1, end, Tag::OwnStamp)?;
        let stamp = self.read_at::<S>(1).ok_or(Refusal::Stamp { at: 1 })?;
        Ok(Message::Deletion { stamp })
    }

    // What follows the head of an insertion.
    #[tactic(auto, using(crate::proofs::Placing::place_fits))]
    fn read_insertion<S: Stamp, E: Entry>(&self) -> Result<Message<S, E>, Refusal>
        requires { self.now.operation ≡ Insert }
        ensures { told (said S.WordForm.values E.WordForm.values) result ≡ answer (body_questions S.WordForm.form E.WordForm.form self.now.words.now) (message_in S.WordForm.form.count E.WordForm.form.count self.now.words.now) }
    {
        let entry_at = self.entry_at::<S>();
        self.expect_length(entry_at + E::count())?;
        self.expect_insertion::<S, E>()?;
        let stamp = self.read_at::<S>(1).ok_or(Refusal::Stamp { at: 1 })?;
        let place = self.read_place(&stamp)?;
        let entry = self
            .read_at::<E>(entry_at)
            .ok_or(Refusal::Entry { at: Some(entry_at) })?;
        Ok(Message::Insertion {
            stamp,
            place,
            entry,
        })
    }
}

// All questions, in their order.
fn read_message<S: Stamp, E: Entry>(words: &[u32]) -> Result<Message<S, E>, Refusal>
    ensures { told (said S.WordForm.values E.WordForm.values) result ≡ read_answer S.WordForm.form E.WordForm.form words.now }
{
    let headed = Headed::new::<S, E>(words)?;
    match headed.operation {
        Operation::Insert => headed.read_insertion(),
        Operation::Delete => headed.read_deletion(),
    }
}

impl<S: Stamp, E: Entry> Message<S, E> {
    // The message that the words are, of whatever number and content they be. A message has one form in words.
    pub fn read(words: &[u32]) -> Result<Message<S, E>, Refusal>
        ensures answer { told (said S.WordForm.values E.WordForm.values) result ≡ read_answer S.WordForm.form E.WordForm.form words.now }
        ensures one_form { IfOk result (λ m. words.now ≡ in_words S.WordForm.form E.WordForm.form (said S.WordForm.values E.WordForm.values m)) }
    {
        read_message(words)
    }
}

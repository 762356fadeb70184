// Things with a word form.
ghost use Rattle.std.specs.Prelude.{◌≡◌, ℕ, ◌≤◌, true, List, length};
ghost use Rattle.std.specs.Option.{option_map};
ghost use Rattle.words.specs.Answers.{told, put_answer};
ghost use Rattle.words.specs.Forms.{Form, Small, read_as, same_values};
ghost use Rattle.words.specs.Layout.{put_front};

use crate::refusals::Refusal;

// A kind of thing that words can carry. A thing means its values and nothing else.
pub trait WordForm: Copy {
    // the kind, by what it answers about values
    ghost form: { Form };

    // the values of a thing
    ghost values: { Self → List ℕ };

    fn number() -> u8
        ensures { result ≡ form.number };

    fn count() -> usize
        ensures { result ≡ form.count };

    // The thing that has these values. Other values than those of a thing are refused.
    fn read(vs: &[u32]) -> Option<Self>
        ensures { option_map values result ≡ read_as form vs.now };

    // Puts the values at the front of a space and answers their count.
    fn write(&self, space: &mut [u32]) -> Result<usize, Refusal>
        ensures answer { told (λ n. n) result ≡ put_answer (values self.now) space.old }
        ensures wrote { space.new ≡ put_front (values self.now) space.old };

    ghost numbered: { (1 ≤ form.number) × (form.number ≤ 255) };

    // the round trip: what is written reads
    ghost written_reads: { (x : Self) → form.reads (values x) ≡ true };

    ghost sized: { (vs : List ℕ) → form.reads vs ≡ true → length vs ≡ form.count };

    ghost small: { (vs : List ℕ) → form.reads vs ≡ true → Small vs };
}

// A kind whose things are equal (`==`) where their values are. No kind of entry has to be one; the two of this repository are.
pub trait ValueEq: WordForm + Eq {
    ghost equal_values: { (x y : Self) → Self.eq x y ≡ same_values (Self.WordForm.values x) (Self.WordForm.values y) };
}

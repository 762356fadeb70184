// Kinds of entry.
ghost use Rattle.std.specs.Prelude.{◌≡◌, ◌≤◌, length};
ghost use Rattle.words.specs.Answers.{told, put_answer};
ghost use Rattle.words.specs.Layout.{put_front};
ghost use Rattle.entries.specs.Kinds.{EntryKind};

use words::{Refusal, WordForm};

// A kind of entry: 1 to 16 values, printed as 1 to 64 bytes.
pub trait Entry: WordForm {
    ghost kind: { EntryKind };

    // Puts the printed bytes at the front of a space and answers their count.
    fn print(&self, space: &mut [u8]) -> Result<usize, Refusal>
        ensures answer { told (λ n. n) result ≡ put_answer (kind.prints (Self.WordForm.values self.now)) space.old }
        ensures wrote { space.new ≡ put_front (kind.prints (Self.WordForm.values self.now)) space.old }
        ensures sized { (1 ≤ length (kind.prints (Self.WordForm.values self.now))) × (length (kind.prints (Self.WordForm.values self.now)) ≤ 64) };

    // The entry that stands in a slot without an insertion.
    fn filler() -> Self
        ensures { Self.WordForm.values result ≡ kind.filler };

    ghost few: { (1 ≤ Self.WordForm.form.count) × (Self.WordForm.form.count ≤ 16) };
}

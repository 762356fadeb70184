// Spaces that a caller lends to be written into.
ghost use Rattle.std.specs.Prelude.{◌≡◌};
ghost use Rattle.words.specs.Answers.{told, put_answer};
ghost use Rattle.words.specs.Layout.{put_front};

use crate::refusals::Refusal;

// Puts the items at the front of a space and answers how many they are. The rest of the space stays, and all of it where it is too short.
pub fn put_front<T: Copy>(items: &[T], space: &mut [T]) -> Result<usize, Refusal>
    ensures answer { told (λ n. n) result ≡ put_answer items.now space.old }
    ensures wrote { space.new ≡ put_front items.now space.old }
{
    let n = items.len();
    if n > space.len() {
        return Err(Refusal::SpaceTooShort);
    }
    space[0..n].copy_from_slice(items);
    Ok(n)
}

// A run of words cut into the words of single messages.
ghost use Rattle.std.specs.Prelude.{◌≡◌, ◌<◌, ◌≤◌, length, IfSome};
ghost use Rattle.messages.specs.FromWords.{piece};

use crate::model::Tag;
use words::Word;

// How many words the first message has, by the count in its head. A rest without a head, or shorter than its head says, has none.
pub fn piece_len(words: &[u32]) -> Option<usize>
    ensures value { result ≡ piece words.now }
    ensures within { IfSome result (λ n. (0 < n) × (n ≤ length words.now)) }
{
    let head = Word::from(*words.first()?);
    let [_, _, _, count] = head.value().to_be_bytes();
    let len = 1 + usize::from(count);
    (head.tag() == u8::from(Tag::Head) && len <= words.len()).then_some(len)
}

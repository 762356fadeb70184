// A run of messages, one behind the other, as bytes.
ghost use Rattle.std.specs.Prelude.{◌≡◌, map, IfOk};
ghost use Rattle.words.specs.Answers.{told};
ghost use Rattle.messages.specs.Model.{said};
ghost use Rattle.inspection.specs.Reports.{all_answers};

use crate::bytes::words_of;
use entries::Entry;
use messages::{Message, piece_len};
use stamps::Stamp;
use std::alloc::{AllocError, Global};
use words::Refusal;

// What is answered to each message of a run, as bytes, the most significant byte of a word first.
// The words are cut by their heads. A rest that has no head or is too short is one answer, and the last.
pub fn read_run<S: Stamp, E: Entry>(
    heap: Global,
    bytes: &[u8],
) -> Result<Vec<Result<Message<S, E>, Refusal>>, AllocError>
    ensures { IfOk result (λ v. map (told (said S.WordForm.values E.WordForm.values)) v.items ≡ all_answers S.WordForm.form E.WordForm.form bytes.now) }
{
    let words = words_of(heap, bytes)?;
    let mut found = Vec::new(heap);
    let mut rest = words.as_slice();
    while let Some(n) = piece_len(rest) {
        let (piece, after) = rest.split_at(n);
        found.push(Message::read(piece))?;
        rest = after;
    }
    if !rest.is_empty() {
        found.push(Message::read(rest))?;
    } else if bytes.len() % 4 != 0 {
        found.push(Err(Refusal::Head))?;
    }
    Ok(found)
}

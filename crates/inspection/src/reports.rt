// The report on a run of messages.
ghost use Rattle.std.specs.Prelude.{◌≡◌, map, IfOk, Some};
ghost use Rattle.words.specs.Answers.{told};
ghost use Rattle.messages.specs.Model.{said};
ghost use Rattle.inspection.specs.Reports.{all_answers, counts_shown, lines, messages_in, refusals_in, report_of};

use crate::lines::answer_line;
use crate::runs::read_run;
use entries::Entry;
use messages::Message;
use stamps::Stamp;
use std::alloc::{AllocError, Global};
use std::fmt;
use words::Refusal;

// A line for each answer.
fn all_lines<S: Stamp, E: Entry>(
    heap: Global,
    found: &[Result<Message<S, E>, Refusal>],
) -> Result<Vec<u8>, AllocError>
    ensures { IfOk result (λ v. v.items ≡ lines S.Stamp.kind E.Entry.kind.prints (map (told (said S.WordForm.values E.WordForm.values)) found.now)) }
{
    let mut text = Vec::new(heap);
    for answer in found {
        let line = answer_line(heap, answer)?;
        text.extend_from_slice(&line)?;
    }
    Ok(text)
}

// How many messages there are, and how many refusals.
#[derive(Clone, Copy, PartialEq, Eq, Debug)]
struct Counts {
    messages: usize,
    refusals: usize,
}

impl Counts {
    fn of<S: Stamp, E: Entry>(found: &[Result<Message<S, E>, Refusal>]) -> Counts
        ensures messages { result.messages ≡ messages_in (map (told (said S.WordForm.values E.WordForm.values)) found.now) }
        ensures refusals { result.refusals ≡ refusals_in (map (told (said S.WordForm.values E.WordForm.values)) found.now) }
    {
        let messages = found.iter().filter(|answer| answer.is_ok()).count();
        Counts {
            messages,
            refusals: found.len() - messages,
        }
    }
}

impl fmt::Display for Counts {
    ghost output = { λ c. Some (counts_shown c.messages c.refusals) };

    fn fmt<W: fmt::Write>(&self, f: &mut fmt::Formatter<W>) -> fmt::Result {
        let Counts { messages, refusals } = *self;
        write!(f, "messages {messages} refusals {refusals}")
    }
}

// What a run of messages says: a line for each message or refusal, and a line that counts them.
pub fn report<S: Stamp, E: Entry>(heap: Global, bytes: &[u8]) -> Result<Vec<u8>, AllocError>
    ensures { IfOk result (λ v. v.items ≡ report_of S.Stamp.kind E.Entry.kind.prints (all_answers S.WordForm.form E.WordForm.form bytes.now)) }
{
    let found = read_run::<S, E>(heap, bytes)?;
    let mut text = all_lines(heap, &found)?;
    let counts = Counts::of(&found);
    let last = format!(in heap; "{counts}\n")?;
    text.extend_from_slice(last.as_bytes())?;
    Ok(text)
}

// A message, or a refusal, as a line in plain words.
ghost use Rattle.std.specs.Prelude.{◌≡◌, [], ◌∷◌, ◌++◌, IfOk, OnOk, Some};
ghost use Rattle.words.specs.Answers.{told, refusal_number, refusal_place, refusal_shown};
ghost use Rattle.messages.specs.Model.{place_said, said};
ghost use Rattle.inspection.specs.Lines.{stamp_shown, place_shown, message_shown, answer_shown, ended};

use entries::Entry;
use messages::{Message, Place, Side};
use stamps::Stamp;
use std::alloc::{AllocError, Global};
use std::fmt;
use words::Refusal;

// A stamp as it is printed: counter, full stop, site.
#[derive(Clone, Copy)]
struct ShownStamp<'a, S>(&'a S);

impl<'a, S: Stamp> fmt::Display for ShownStamp<'a, S> {
    ghost output = { λ shown. Some (stamp_shown S.Stamp.kind (S.WordForm.values shown.0.now)) };

    fn fmt<W: fmt::Write>(&self, f: &mut fmt::Formatter<W>) -> fmt::Result {
        let counter = self.0.counter().get();
        let site = self.0.site().get();
        write!(f, "{counter}.{site}")
    }
}

// A place as it is printed.
#[derive(Clone, Copy)]
struct ShownPlace<'a, S>(&'a Place<S>);

impl<'a, S: Stamp> fmt::Display for ShownPlace<'a, S> {
    ghost output = { λ shown. Some (place_shown S.Stamp.kind (place_said S.WordForm.values shown.0.now)) };

    fn fmt<W: fmt::Write>(&self, f: &mut fmt::Formatter<W>) -> fmt::Result {
        match self.0 {
            Place::Ground => write!(f, "on the ground"),
            Place::Under {
                side: Side::Left,
                parent,
            } => write!(f, "left of {}", ShownStamp(parent)),
            Place::Under {
                side: Side::Right,
                parent,
            } => write!(f, "right of {}", ShownStamp(parent)),
        }
    }
}

// The printed bytes of an entry, with a line feed at their end.
fn push_entry<E: Entry>(line: &mut Vec<u8>, entry: &E) -> Result<(), AllocError>
    ensures { OnOk result (line.new.items ≡ line.old.items ++ ended (E.Entry.kind.prints (E.WordForm.values entry.now))) }
{
    // an entry prints into a space that is lent, and 64 bytes take any
    let mut space = [0u8; 64];
    let Ok(n) = entry.print(&mut space) else {
        return Ok(());
    };
    let printed = &space[..n];
    line.extend_from_slice(printed)?;
    if printed.last() != Some(&b'\n') {
        line.push(b'\n')?;
    }
    Ok(())
}

fn message_line<S: Stamp, E: Entry>(
    heap: Global,
    message: &Message<S, E>,
) -> Result<Vec<u8>, AllocError>
    ensures { IfOk result (λ v. v.items ≡ message_shown S.Stamp.kind E.Entry.kind.prints (said S.WordForm.values E.WordForm.values message.now)) }
{
    match message {
        Message::Insertion {
            stamp,
            place,
            entry,
        } => {
            let text = format!(in heap; "insertion {} {}: ", ShownStamp(stamp), ShownPlace(place))?;
            let mut line = text.into_bytes();
            push_entry(&mut line, entry)?;
            Ok(line)
        }
        Message::Deletion { stamp } => {
            Ok(format!(in heap; "deletion {}\n", ShownStamp(stamp))?.into_bytes())
        }
    }
}

// The line for what reading some words told.
pub fn answer_line<S: Stamp, E: Entry>(
    heap: Global,
    answer: &Result<Message<S, E>, Refusal>,
) -> Result<Vec<u8>, AllocError>
    ensures { IfOk result (λ v. v.items ≡ answer_shown S.Stamp.kind E.Entry.kind.prints (told (said S.WordForm.values E.WordForm.values) answer.now)) }
{
    match answer {
        Ok(message) => message_line(heap, message),
        Err(refusal) => Ok(format!(in heap; "{refusal}\n")?.into_bytes()),
    }
}

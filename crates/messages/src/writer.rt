// A space that words are put into, one behind another.
ghost use Rattle.std.specs.Prelude.{◌≡◌, ◌^◌, ◌<◌, ◌≤◌, [], ◌∷◌, length};
ghost use Rattle.words.specs.Forms.{Small};
ghost use Rattle.words.specs.Layout.{word};
ghost use Rattle.messages.specs.InWords.{place_words, tagged};
ghost use Rattle.messages.specs.Model.{place_said, tag_number};

use crate::model::{Place, Tag};
use stamps::Stamp;
use words::{Word, WordForm};

// The word with this tag and this value.
fn tagged_word(tag: Tag, value: u32) -> u32
    requires { value < 2 ^ 28 }
    ensures { result ≡ word (tag_number tag) value }
{
    Word::new(tag.into(), value).unwrap().into()
}

// Gives values their tag.
#[tactic(auto, using(crate::proofs::Filling::map_fill_more, crate::proofs::Filling::fill_next))]
fn tag_words(tag: Tag, words: &mut [u32])
    requires { Small words.old }
    ensures { words.new ≡ tagged tag words.old }
{
    for word in words.iter_mut() {
        *word = tagged_word(tag, *word);
    }
}

// Fills a part with the values of a thing, with their tag.
fn put_tagged<F: WordForm>(x: &F, tag: Tag, part: &mut [u32])
    requires { length part.old ≡ F.WordForm.form.count }
    ensures { part.new ≡ tagged tag (F.WordForm.values x.now) }
{
    let _ = x.write(part);
    tag_words(tag, part);
}

// The space, and how many words of it are written.
#[derive(Drop)]
pub(crate) struct Writer<'s> {
    space: &'s mut [u32],
    at: usize,
    ghost within: { at ≤ length space.now },
}

impl<'s> Writer<'s> {
    ghost use Rattle.messages.specs.Writing.{Put, Room};

    pub(crate) fn new(space: &'s mut [u32]) -> Writer<'s>
        ensures start { result.at ≡ 0 }
        ensures space { result.space.now ≡ space.old }
        ensures same_reference { result.space.ghost_name ≡ space.entry.ghost_name }
    {
        Writer { space, at: 0 }
    }

    pub(crate) fn put_word(&mut self, tag: Tag, value: u32)
        requires small { value < 2 ^ 28 }
        requires room { Room self.old 1 }
        ensures { Put self.old self.new (word (tag_number tag) value ∷ []) }
    {
        self.space[self.at] = tagged_word(tag, value);
        self.at += 1;
    }

    pub(crate) fn put_form<F: WordForm>(&mut self, x: &F, tag: Tag)
        requires { Room self.old F.WordForm.form.count }
        ensures { Put self.old self.new (tagged tag (F.WordForm.values x.now)) }
    {
        let end = self.at + F::count();
        put_tagged(x, tag, &mut self.space[self.at..end]);
        self.at = end;
    }

    pub(crate) fn put_place<S: Stamp>(&mut self, place: &Place<S>)
        requires { Room self.old (length (place_words (place_said S.WordForm.values place.now))) }
        ensures { Put self.old self.new (place_words (place_said S.WordForm.values place.now)) }
    {
        match place {
            Place::Ground => self.put_word(Tag::OnGround, 0),
            Place::Under { side, parent } => {
                self.put_word(Tag::OnSide, u32::from(u8::from(*side)));
                self.put_form(parent, Tag::ParentStamp);
            }
        }
    }
}

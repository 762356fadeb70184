// Characters, kind 1.
ghost use Rattle.std.specs.Prelude.{◌≡◌, ◌≤◌, true, [], ◌∷◌, length, if◌then◌else◌, Some, None};
ghost use Rattle.std.specs.Option.{option_map};
ghost use Rattle.words.specs.Answers.{told, put_answer};
ghost use Rattle.words.specs.Layout.{put_front};
ghost use Rattle.entries.specs.Kinds.{PrintsApart};
ghost use Rattle.entries.specs.Characters.{character_code, character_reads, character_prints, character_form, character_kind, characters_small};
ghost use Rattle.std.proofs.Common.{rules};

use crate::kinds::Entry;
use words::{Refusal, ValueEq, WordForm, put_front};

// A line feed, or a Unicode scalar value from 32 on.
#[derive(Clone, Copy, PartialEq, Eq, Debug)]
pub struct Character {
    code: char,
    ghost allowed: { character_code code ≡ true },
}

impl Character {
    pub fn new(code: char) -> Option<Character>
        ensures { option_map (λ x. x.code) result ≡ (if character_code code then Some code else None) }
    {
        // no `then_some`: the condition of the type has to hold before the value is made
        if code == '\n' || code >= ' ' {
            return Some(Character { code });
        }
        None
    }

    pub fn get(self) -> char
        ensures { result ≡ self.code }
    {
        self.code
    }
}

impl WordForm for Character {
    ghost form = { character_form };

    ghost values = { λ x. x.code ∷ [] };

    ghost numbered = { Prim.search rules };

    ghost written_reads = { Prim.search rules };

    ghost sized = { Prim.search rules };

    ghost small = { characters_small };

    fn number() -> u8 {
        1
    }

    fn count() -> usize {
        1
    }

    fn read(vs: &[u32]) -> Option<Character> {
        let [code] = vs else {
            return None;
        };
        Character::new(char::from_u32(*code)?)
    }

    fn write(&self, space: &mut [u32]) -> Result<usize, Refusal> {
        put_front(&[self.get() as u32], space)
    }
}

impl ValueEq for Character {
    ghost equal_values = { Prim.search rules };
}

impl Entry for Character {
    ghost kind = { character_kind };

    ghost few = { Prim.search rules };

    // No two characters print alike.
    fn print(&self, space: &mut [u8]) -> Result<usize, Refusal>
        ensures answer { told (λ n. n) result ≡ put_answer (character_prints (self.now.code ∷ [])) space.old }
        ensures wrote { space.new ≡ put_front (character_prints (self.now.code ∷ [])) space.old }
        ensures sized { (1 ≤ length (character_prints (self.now.code ∷ []))) × (length (character_prints (self.now.code ∷ [])) ≤ 64) }
        ensures apart { PrintsApart character_reads character_prints }
    {
        let mut buffer = [0u8; 4];
        put_front(self.get().encode_utf8(&mut buffer).as_bytes(), space)
    }

    fn filler() -> Character {
        Character { code: ' ' }
    }
}

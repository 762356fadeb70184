// A word of a message.
ghost use Rattle.std.specs.Prelude.{◌≡◌, ◌^◌, ◌<◌, if◌then◌else◌, Some, None};
ghost use Rattle.std.specs.Option.{option_map};
ghost use Rattle.words.specs.Layout.{word, tag_of, value_of, fit_a_word};

// 32 bits: a tag in the top 4, a value in the low 28.
#[derive(Clone, Copy, PartialEq, Eq, Debug)]
pub struct Word {
    bits: u32,
    ghost fits: { bits < 2 ^ 32 },
}

impl Word {
    // The word with this tag and this value, if a word can hold them.
    pub fn new(tag: u8, value: u32) -> Option<Word>
        ensures made { option_map (λ w. w.bits) result ≡ (if fit_a_word tag value then Some (word tag value) else None) }
        ensures tag_back { option_map (λ w. tag_of w.bits) result ≡ (if fit_a_word tag value then Some tag else None) }
        ensures value_back { option_map (λ w. value_of w.bits) result ≡ (if fit_a_word tag value then Some value else None) }
    {
        if tag >= 16 || value >= 0x1000_0000 {
            return None;
        }
        Some(Word {
            bits: u32::from(tag) * 0x1000_0000 + value,
        })
    }

    pub fn tag(self) -> u8
        ensures { result ≡ tag_of self.bits }
    {
        (self.bits / 0x1000_0000) as u8
    }

    pub fn value(self) -> u32
        ensures value { result ≡ value_of self.bits }
        ensures small { result < 2 ^ 28 }
    {
        self.bits % 0x1000_0000
    }

    // Tag and value, which make the word again.
    pub fn parts(self) -> (u8, u32)
        ensures parts { (result.0 ≡ tag_of self.bits) × (result.1 ≡ value_of self.bits) }
        ensures whole { word result.0 result.1 ≡ self.bits }
    {
        (self.tag(), self.value())
    }
}

// The word of these 32 bits: each is one.
impl From<u32> for Word {
    ghost from_gives = { λ bits word. word.bits ≡ bits };

    fn from(bits: u32) -> Word {
        Word { bits }
    }
}

impl From<Word> for u32 {
    ghost from_gives = { λ word bits. bits ≡ word.bits };

    fn from(word: Word) -> u32 {
        word.bits
    }
}

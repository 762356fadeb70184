// A line of text, written in place.
ghost use Rattle.std.specs.Prelude.{◌≡◌, ◌+◌, ◌<◌, ◌≤◌, [], ◌∷◌, ◌++◌, length, decimal};
ghost use Rattle.entries.specs.Lines.{text};

// Up to 64 bytes.
#[derive(Clone, Copy)]
pub(crate) struct Line {
    bytes: [u8; 64],
    used: usize,
    ghost room: { used ≤ 64 },
}

impl Line {
    pub(crate) fn new() -> Line
        ensures used { result.used ≡ 0 }
        ensures text { text result.bytes result.used ≡ [] }
    {
        Line {
            bytes: [0; 64],
            used: 0,
        }
    }

    pub(crate) fn push(&mut self, byte: u8)
        requires { self.old.used < 64 }
        ensures used { self.new.used ≡ self.old.used + 1 }
        ensures text { text self.new.bytes self.new.used ≡ text self.old.bytes self.old.used ++ byte ∷ [] }
    {
        self.bytes[self.used] = byte;
        self.used += 1;
    }

    pub(crate) fn push_all(&mut self, bytes: &[u8])
        requires { self.old.used + length bytes.now ≤ 64 }
        ensures used { self.new.used ≡ self.old.used + length bytes.now }
        ensures text { text self.new.bytes self.new.used ≡ text self.old.bytes self.old.used ++ bytes.now }
    {
        let end = self.used + bytes.len();
        self.bytes[self.used..end].copy_from_slice(bytes);
        self.used = end;
    }

    pub(crate) fn push_decimal(&mut self, n: u32)
        requires { self.old.used + 10 ≤ 64 }
        ensures used { (self.new.used ≡ self.old.used + length (decimal n)) × (length (decimal n) ≤ 10) }
        ensures text { text self.new.bytes self.new.used ≡ text self.old.bytes self.old.used ++ decimal n }
    {
        if n >= 10 {
            self.push_decimal(n / 10);
        }
        self.push(b'0' + (n % 10) as u8);
    }

    pub(crate) fn as_slice(&self) -> &[u8]
        ensures { result.now ≡ text self.now.bytes self.now.used }
    {
        &self.bytes[0..self.used]
    }
}

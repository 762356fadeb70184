// The surname of an entry.
ghost use Rattle.std.specs.Prelude.{◌≡◌, ◌/◌, ◌%◌, ◌≤◌, [], ◌∷◌, length, take, if◌then◌else◌, Some, None};
ghost use Rattle.std.specs.List.{flat_map};
ghost use Rattle.std.specs.Option.{option_map};
ghost use Rattle.entries.specs.Surnames as spec;

use std::array;
use std::marker::Model;

// Up to 24 bytes, with zeros after them. They stand in the value, since an entry is Copy and allocates nothing.
#[derive(Clone, Copy, PartialEq, Eq, Debug)]
pub(super) struct Surname {
    bytes: [u8; 24],
    len: usize,
}

impl Model for Surname {
    ghost use Rattle.std.specs.Prelude.{ℕ, ◌≡◌, ◌≤◌, List, length, take};
    ghost use Rattle.std.proofs.Common.{sym};
    ghost use Rattle.entries.specs.Surnames.{padded};
    ghost use Rattle.entries.specs.Fitting.{length_held};

    ghost Value = { List ℕ };

    ghost view = { λ s. take s.len s.bytes };

    ghost invariant = { λ s. (s.len ≤ 24) × (s.bytes ≡ padded (take s.len s.bytes)) };

    ghost inverse = { λ v. record { bytes = padded v; len = length v } };

    ghost inverse_ok = { λ s h i. record { bytes = sym h.1 i; len = length_held s.len s.bytes h.0 h.1 i } };
}

// Is this a surname?
fn fits(bytes: &[u8]) -> bool
    ensures { result ≡ spec.is_surname bytes.now }
{
    bytes.len() <= 24 && bytes.iter().all(|b| *b >= 32 && *b != 127)
}

// The bytes of the values, if none has more than three.
fn threes(values: [u32; 8]) -> Option<[[u8; 3]; 8]>
    ensures { option_map (flat_map (λ x. x)) result ≡ (if spec.three_bytes values then Some (spec.unpacked values) else None) }
{
    if !values.iter().all(|v| *v < 0x100_0000) {
        return None;
    }
    Some(values.map(low_bytes))
}

// The three lower bytes of a value.
fn low_bytes(value: u32) -> [u8; 3]
    ensures { result ≡ value / 65536 % 256 ∷ value / 256 % 256 ∷ value % 256 ∷ [] }
{
    let [_, a, b, c] = value.to_be_bytes();
    [a, b, c]
}

impl Surname {
    pub(super) fn empty() -> Surname
        ensures { result ≡ [] }
    {
        Surname {
            bytes: [0; 24],
            len: 0,
        }
    }

    // The surname of these bytes, if they fit.
    pub(super) fn new(surname: &[u8]) -> Option<Surname>
        ensures { result ≡ (if spec.is_surname surname.now then Some surname.now else None) }
    {
        if !fits(surname) {
            return None;
        }
        let len = surname.len();
        let mut bytes = [0; 24];
        bytes[..len].copy_from_slice(surname);
        Some(Surname { bytes, len })
    }

    // The surname of `len` bytes that stands in these values, if only zeros come after it.
    pub(super) fn unpacked(values: [u32; 8], len: usize) -> Option<Surname>
        ensures { result ≡ (if spec.surname_held len (spec.unpacked values) then Some (take len (spec.unpacked values)) else None) }
    {
        let threes = threes(values)?;
        let (surname, rest) = threes.as_flattened().split_at_checked(len)?;
        if !rest.iter().all(|b| *b == 0) {
            return None;
        }
        Surname::new(surname)
    }

    pub(super) fn as_bytes(&self) -> &[u8]
        ensures value { result.now ≡ self.now }
        ensures short { length result.now ≤ 24 }
    {
        &self.bytes[..self.len]
    }

    // The surname and the zeros after it, three bytes to a value.
    pub(super) fn packed(&self) -> [u32; 8]
        ensures { result ≡ spec.packed (spec.padded self.now) }
    {
        let bytes = self.bytes;
        array::from_fn(|i| {
            u32::from_be_bytes([0, bytes[3 * i], bytes[3 * i + 1], bytes[3 * i + 2]])
        })
    }
}

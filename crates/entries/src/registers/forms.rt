// A register entry as values and as printed bytes.
ghost use Rattle.std.specs.Prelude.{◌≡◌, ◌≤◌, length};
ghost use Rattle.words.specs.Answers.{told, put_answer};
ghost use Rattle.words.specs.Layout.{put_front};
ghost use Rattle.entries.specs.Held.{entry_values};
ghost use Rattle.entries.specs.Kinds.{PrintsApart};
ghost use Rattle.entries.specs.Lines.{text};
ghost use Rattle.entries.specs.Registers.{register_form, register_kind, register_prints, register_reads};
ghost use Rattle.std.proofs.Common.{rules};
ghost use Rattle.entries.specs.Equality.{equal_entries};
ghost use Rattle.entries.specs.Reading.{entry_reads, values_small};

use crate::kinds::Entry;
use crate::lines::Line;
use crate::registers::RegisterEntry;
use crate::registers::parts::numbers_fit;
use crate::registers::surnames::Surname;
use crate::types::RegisterType;
use words::{Refusal, ValueEq, WordForm, put_front};

impl RegisterEntry {
    fn values(&self) -> [u32; 11]
        ensures { result ≡ entry_values self.now }
    {
        let kind = u32::from(u8::from(self.kind));
        let size = self.surname.as_bytes().len() as u32;
        let [a, b, c, d, e, f, g, h] = self.surname.packed();
        [
            self.number,
            self.grave.unwrap_or(0),
            kind * 256 + size,
            a,
            b,
            c,
            d,
            e,
            f,
            g,
            h,
        ]
    }

    fn line(&self) -> Line
        ensures { text result.bytes result.used ≡ register_prints (entry_values self.now) }
    {
        let mut line = Line::new();
        line.push_decimal(self.number);
        line.push(b' ');
        line.push_decimal(self.grave.unwrap_or(0));
        line.push(b' ');
        line.push(self.kind.letter());
        line.push(b' ');
        line.push_all(self.surname());
        line.push(b'\n');
        line
    }
}

impl WordForm for RegisterEntry {
    ghost form = { register_form };

    ghost values = { entry_values };

    ghost numbered = { Prim.search rules };

    ghost written_reads = { entry_reads };

    ghost sized = { Prim.search rules };

    ghost small = { values_small };

    fn number() -> u8 {
        2
    }

    fn count() -> usize {
        11
    }

    fn read(vs: &[u32]) -> Option<RegisterEntry> {
        let [number, grave, kind_and_size, packed @ ..] = vs else {
            return None;
        };
        let kind = RegisterType::try_from(kind_and_size / 256).ok()?;
        let size = (kind_and_size % 256) as usize;
        let surname = Surname::unpacked(packed.try_into().ok()?, size)?;
        let grave = (*grave != 0).then_some(*grave);
        if !numbers_fit(*number, grave) {
            return None;
        }
        Some(RegisterEntry {
            number: *number,
            grave,
            kind,
            surname,
        })
    }

    fn write(&self, space: &mut [u32]) -> Result<usize, Refusal> {
        put_front(&self.values(), space)
    }
}

impl ValueEq for RegisterEntry {
    ghost equal_values = { equal_entries };
}

impl Entry for RegisterEntry {
    ghost kind = { register_kind };

    ghost few = { Prim.search rules };

    // No two register entries print alike.
    fn print(&self, space: &mut [u8]) -> Result<usize, Refusal>
        ensures answer { told (λ n. n) result ≡ put_answer (register_prints (entry_values self.now)) space.old }
        ensures wrote { space.new ≡ put_front (register_prints (entry_values self.now)) space.old }
        ensures sized { (1 ≤ length (register_prints (entry_values self.now))) × (length (register_prints (entry_values self.now)) ≤ 64) }
        ensures apart { PrintsApart register_reads register_prints }
    {
        put_front(self.line().as_slice(), space)
    }

    fn filler() -> RegisterEntry {
        RegisterEntry {
            number: 1,
            grave: None,
            kind: RegisterType::Burial,
            surname: Surname::empty(),
        }
    }
}

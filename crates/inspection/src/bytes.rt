// Words as bytes.
ghost use Rattle.std.specs.Prelude.{◌≡◌, IfOk};
ghost use Rattle.inspection.specs.Bytes.{words_in};

use std::alloc::{AllocError, Global};

// The words of the bytes, most significant byte first. Bytes past the last whole word are left out.
pub fn words_of(heap: Global, bytes: &[u8]) -> Result<Vec<u32>, AllocError>
    ensures { IfOk result (λ v. v.items ≡ words_in bytes.now) }
{
    let (whole, _) = bytes.as_chunks::<4>();
    let mut words = Vec::new(heap);
    for word in whole {
        words.push(u32::from_be_bytes(*word))?;
    }
    Ok(words)
}

//! The bytes of a frame, which repeat after 256.

ghost use Rattle.std.specs.Prelude.{◌≡◌, ◌++◌, OnOk};
ghost use Rattle.ifl_gen.specs.Frames.{bytes_by};

use ifl_base::NoMemory;

/// After how many bytes the bytes of a frame repeat.
const PERIOD: usize = 256;

/// How many bytes a number has.
const WORD: usize = 8;

/// The bytes that a frame of this number repeats. No byte takes a shift: the number's eight are taken apart once.
fn period_of(x: u64) -> [u8; PERIOD]
    ensures { result ≡ bytes_by x 256 }
{
    let word = x.to_le_bytes();
    let mut period = [0u8; PERIOD];
    for i in 0..PERIOD {
        period[i] = word[i % WORD].wrapping_add(i as u8);
    }
    period
}

/// Appends the first `len` bytes of a frame of this number. Where there is no memory for them, some may stand there.
pub(crate) fn put_bytes(out: &mut Vec<u8>, x: u64, len: usize) -> Result<(), NoMemory>
    ensures { OnOk result (out.new.items ≡ out.old.items ++ bytes_by x len) }
{
    let period = period_of(x);
    for _turn in 0..len / PERIOD {
        out.extend_from_slice(&period)?;
    }
    out.extend_from_slice(&period[..len % PERIOD])?;
    Ok(())
}

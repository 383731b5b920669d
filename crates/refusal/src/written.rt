ghost use Rattle.std.specs.Prelude.{◌≡◌, decimal};
ghost use Rattle.refusal.specs.Written.{answer_of, buffer_after};

use crate::refusal::Refusal;

/// Writes a text at the front of `buf`, and answers its length. Where it does not fit, the buffer
/// is left as it was.
// Into the caller's buffer, since the library allocates nothing.
pub(crate) fn write_text(buf: &mut [u8], text: &str) -> Result<usize, Refusal>
    ensures answer { result ≡ answer_of text.now buf.old }
    ensures after { buf.new ≡ buffer_after text.now buf.old }
{
    let needed = text.len();
    if buf.len() < needed {
        return Err(Refusal::TooShort { needed });
    }
    buf[..needed].copy_from_slice(text.as_bytes());
    Ok(needed)
}

/// Writes `n` in decimal, without leading zeros, at the front of `buf`, and answers the number of
/// bytes. Where it does not fit, the buffer is left as it was.
pub fn write_decimal(buf: &mut [u8], n: u64) -> Result<usize, Refusal>
    ensures answer { result ≡ answer_of (decimal n) buf.old }
    ensures after { buf.new ≡ buffer_after (decimal n) buf.old }
{
    write_text(buf, itoa::Buffer::new().format(n))
}

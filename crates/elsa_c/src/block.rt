//! Texts in one block of bytes, each with its end, as Arrow and pandas have them.
ghost use Rattle.std.specs.Prelude.{◌≡◌, ◌≤◌, length, IfErr, IfOk, slice_range};
ghost use Rattle.elsa_c.specs.Codes.{IsNoText};

use crate::fault::Fault;

/// Returns the text between two ends of the block.
///
/// # Errors
/// Fails with `EndsOutOfOrder` if the second end is before the first or past the bytes, and with
/// `NotUtf8` if the bytes between them are not UTF-8.
#[inline(always)]
pub fn text_between(bytes: &[u8], start: usize, end: usize) -> Result<&str, Fault>
    ensures text { IfOk result (λ t. t.now ≡ slice_range bytes.now start end) }
    ensures inside { IfOk result (λ t. (start ≤ end) × (end ≤ length bytes.now)) }
    ensures fault { IfErr result (IsNoText bytes.now start end) }
{
    let Some(piece) = bytes.get(start..end) else {
        return Err(Fault::EndsOutOfOrder);
    };
    let Ok(text) = str::from_utf8(piece) else {
        return Err(Fault::NotUtf8);
    };
    Ok(text)
}

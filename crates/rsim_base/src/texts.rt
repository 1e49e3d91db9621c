//! Bytes put behind a text. Where memory is short a part of them may have been put: the text then still begins with what
//! it had.
ghost use Rattle.std.specs.Prelude.{◌≡◌, ◌++◌, ◌∷◌, [], OnOk, decimal};
ghost use Rattle.rsim_base.specs.Texts.{Extends};

use crate::refusals::NoMemory;
use itoa::Buffer;

/// Puts a number in decimal, and the byte that stands behind it.
pub fn push_decimal(text: &mut Vec<u8>, number: u64, behind: u8) -> Result<(), NoMemory>
    ensures put { OnOk result (text.new.items ≡ text.old.items ++ decimal number ++ behind ∷ []) }
    ensures kept { Extends text.old.items text.new.items }
{
    let mut digits = Buffer::new();
    push(text, digits.format(number).as_bytes())?;
    push_byte(text, behind)
}

/// Puts these bytes.
pub fn push(text: &mut Vec<u8>, piece: &[u8]) -> Result<(), NoMemory>
    ensures put { OnOk result (text.new.items ≡ text.old.items ++ piece.now) }
    ensures kept { Extends text.old.items text.new.items }
{
    text.extend_from_slice(piece).map_err(|_| NoMemory)
}

/// Puts one byte.
pub fn push_byte(text: &mut Vec<u8>, byte: u8) -> Result<(), NoMemory>
    ensures put { OnOk result (text.new.items ≡ text.old.items ++ byte ∷ []) }
    ensures kept { Extends text.old.items text.new.items }
{
    text.push(byte).map_err(|_| NoMemory)
}

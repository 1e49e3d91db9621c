//! Laws of the bytes of values. The function does nothing: a law is a contract.

ghost use Rattle.rsim_base.specs.Laws.{PartsHaveTheBytes};

/// Byte b of a part of a value is the byte of the value at the same place, and a part has no more bytes than were asked for.
pub fn parts_have_the_bytes()
    ensures { PartsHaveTheBytes }
{}

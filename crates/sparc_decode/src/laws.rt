//! Laws of the opcode maps that `decode` follows. Their functions do nothing: a law is a contract.

ghost use Rattle.sparc_decode.specs.Fields as field;
ghost use Rattle.sparc_decode.specs.Instr.{branch_rows, arithmetic_rows, memory_rows};
ghost use Rattle.sparc_decode.specs.Laws as law;

/// No word fits two rows of an opcode map.
pub fn no_word_fits_two_rows()
    ensures branches { law.KeysDiffer branch_rows }
    ensures arithmetic { law.KeysDiffer arithmetic_rows }
    ensures memory { law.KeysDiffer memory_rows }
{}

/// Each row of an opcode map says what the words are that it fits, and a word that fits none is
/// illegal_instruction.
pub fn each_row_decides()
    ensures branches { law.EachRowDecides 0 field.op2 branch_rows }
    ensures arithmetic { law.EachRowDecides 2 field.op3 arithmetic_rows }
    ensures memory { law.EachRowDecides 3 field.op3 memory_rows }
    ensures other_branches { law.OthersAreIllegal 0 field.op2 branch_rows }
    ensures other_arithmetic { law.OthersAreIllegal 2 field.op3 arithmetic_rows }
    ensures other_memory { law.OthersAreIllegal 3 field.op3 memory_rows }
{}

/// The fields of each word's instruction are in range, and the field rd is used or 0.
pub fn fields_are_in_range()
    ensures ranges { law.InRange }
    ensures unused { law.UnusedRd }
{}

/// Bits that a form does not name may be any.
pub fn unnamed_bits_are_free()
    ensures arithmetic { law.ArithmeticOnRegisters }
    ensures addresses { law.AddressesOnRegisters }
    ensures shifts_left { law.ShiftsByRegisters 0x25 }
    ensures shifts_right { law.ShiftsByRegisters 0x26 }
    ensures shifts_of_signed { law.ShiftsByRegisters 0x27 }
    ensures counts_left { law.ShiftsByCounts 0x25 }
    ensures counts_right { law.ShiftsByCounts 0x26 }
    ensures counts_of_signed { law.ShiftsByCounts 0x27 }
    ensures narrow_left { law.NarrowShifts 0x25 }
    ensures narrow_right { law.NarrowShifts 0x26 }
    ensures narrow_of_signed { law.NarrowShifts 0x27 }
    ensures divisions { law.OperandsInRegisters 0x2D }
    ensures counts_of_ones { law.OperandsInRegisters 0x2E }
    ensures state_writes { law.OperandsInRegisters 0x30 }
    ensures jumps { law.OperandsInRegisters 0x38 }
    ensures saves { law.OperandsInRegisters 0x3C }
    ensures restores { law.OperandsInRegisters 0x3D }
    ensures returns_in_all { law.Returns }
    ensures returns_on_registers { law.ReturnsOnRegisters }
    ensures moves_on_codes { law.MovesOnCodes }
    ensures moves_on_registers { law.MovesOnRegisters }
    ensures traps { law.Traps }
    ensures traps_on_registers { law.TrapsOnRegisters }
    ensures state { law.StateReads }
    ensures state_registers { law.RegisterReads }
    ensures store_barriers { law.StoreBarriers }
    ensures window_flush { law.Flushes 0x2B }
    ensures memory_flush { law.Flushes 0x3B }
    ensures prefetches { law.Prefetches }
{}

//! Laws of the conditions. Their functions do nothing: a law is a contract.

ghost use Rattle.sparc_alu.specs.Laws as law;

/// Each condition has an opposite: 8 more on the codes, 4 more on a register.
pub fn conditions_have_opposites()
    ensures codes { law.HaveOpposites }
    ensures registers { law.RegistersHaveOpposites }
{}

/// The condition codes of a subtraction compare its operands, as signed and as unsigned numbers.
pub fn subtraction_compares()
    ensures { law.SubtractionCompares }
{}

//! Laws of the step. Their functions do nothing: a law is a contract.

ghost use Rattle.sparc_meaning.specs.KeptWindows.{OutsAreIns, WindowsAreKept};
ghost use Rattle.sparc_meaning.specs.Laws as law;
ghost use Rattle.sparc_meaning.specs.RegisterLaws as register;

/// A step is what its operands compute, applied to the state. So what an instruction names as its sources and
/// destinations is all that its step reads and writes. A step that ends the processor changes nothing else, and one
/// that reads nothing from memory doesn't look at the value that it is given.
pub fn steps_are_computed()
    ensures step { law.StepIsComputed }
    ensures ends { law.EndsAlone }
    ensures others { law.OthersIgnoreTheValue }
{}

/// What is known of an instruction before its step: the trap and address of an access by the operands of its address,
/// and whether it spills or fills a window first by its effect on the windows.
pub fn instructions_tell_ahead()
    ensures addresses { law.AddressesAlone }
    ensures windows { law.EffectsAsk }
{}

/// The windows overlap, and what a window held before its spill it holds again after its fill.
pub fn windows_are_kept()
    ensures overlap { OutsAreIns }
    ensures kept { WindowsAreKept }
{}

/// The numbers of the registers that a step reads and writes name registers. The values of those that it reads are its
/// operands. Behind it those that it writes have its results, and all others what they had; register 0 stays 0.
pub fn registers_are_numbered()
    ensures below { register.NumbersAreBelow }
    ensures name { register.NumbersName }
    ensures operands { register.OperandsAreRead }
    ensures results { register.DestinationsPass }
    ensures zero { register.GlobalZeroStays }
    ensures count { register.RegistersStay }
{}

/// A step that goes on leads to the next pair, in the windows and the phase after it, and these windows are sound.
pub fn steps_lead_on()
    ensures leads { register.StepsLeadOn }
    ensures windows { register.WindowsStay }
{}

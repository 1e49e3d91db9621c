//! Laws of renaming. Their functions do nothing: a law is a contract.

ghost use Rattle.rename.specs.Laws.{AllReleasedIsRenaming, FirstHoldValues, FirstIsRenaming, GivenOnce, HoldersAreNotFree, HoldersKeepValues, NamedAlong, NumbersAreWithin, OperandsNameWriters, RegistersAreApart, ReleasedIsRenaming, RoomForEach, TakenIsRenaming, UndoneIsRenaming};
ghost use Rattle.rename.specs.ReadingLaws.{CutIsNamed, FreeHaveNoReader, JoinIsNamed, OperandsNameEarlier, RetiredIsNamed};

/// After any takes, releases and undos, an architectural register is held by the register of its youngest writer in flight,
/// or by the one that has its retired value; no register stands at two places, and each stands at one: it holds an
/// architectural register, or is kept for one as what held it before, or is free.
pub fn operands_name_their_writers()
    ensures first { FirstIsRenaming }
    ensures taken { TakenIsRenaming }
    ensures released { ReleasedIsRenaming }
    ensures undone { UndoneIsRenaming }
    ensures reading { OperandsNameWriters }
    ensures apart { RegistersAreApart }
    ensures room { RoomForEach }
    ensures numbers { NumbersAreWithin }
{}

/// What holds a register at some place of the path is not free, and keeps its value when another is taken. Each register is
/// a retired one, or given by a take in flight, or free, and so exactly once. At first each holds a state's value.
pub fn holders_keep_their_values()
    ensures along { NamedAlong }
    ensures busy { HoldersAreNotFree }
    ensures values { HoldersKeepValues }
    ensures once { GivenOnce }
    ensures released { AllReleasedIsRenaming }
    ensures first { FirstHoldValues }
{}

/// What an entry looks up when it joins is what it reads in flight: what the youngest earlier writer got, or the retired
/// register. So it stays while others join, retire and are undone, and a free register has no reader.
pub fn operands_in_flight_are_named()
    ensures join { JoinIsNamed }
    ensures earlier { OperandsNameEarlier }
    ensures cut { CutIsNamed }
    ensures retired { RetiredIsNamed }
    ensures free { FreeHaveNoReader }
{}

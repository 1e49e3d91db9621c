// Where guesses lead (SPARC V9, 6.3.4).
ghost use Rattle.std.specs.Prelude.{◌≡◌};
ghost use Rattle.sparc_decode.specs.Kinds.{kind as kind_of};
ghost use Rattle.fetch_unit.specs.Path as spec;

use branch_predict::Guess;
use rsim_base::Pair;
use sparc_alu::{bits_of, effective};
use sparc_decode::{FormKind, Instr, kind};
use sparc_meaning::{branched, by_slot_to, straight};

// The condition of a branch on the condition codes that has none.
const ALWAYS: u8 = 8;

/// The pair that a guess at an instruction leads to.
pub(crate) fn led_by(guess: Guess, i: &Instr, pair: Pair) -> Option<Pair>
    ensures { result ≡ spec.led_by guess i.now pair }
{
    match guess {
        Guess::Taken => Some(branch_to(true, i, pair)),
        Guess::NotTaken => Some(branch_to(false, i, pair)),
        Guess::Target(target) => Some(by_slot_to(target, pair)),
        Guess::Unknown => None,
    }
}

// Where a branch leads that goes, or does not. CALL always goes, and other instructions lead straight on.
fn branch_to(goes: bool, i: &Instr, pair: Pair) -> Pair
    ensures { result ≡ spec.branch_to (kind_of i.now.op) goes i.now pair }
{
    let target = effective(pair.pc, bits_of(i.disp));
    match kind(i.op) {
        FormKind::BranchesOnCodes => branched(i.cond == ALWAYS, goes, i.annul, target, pair),
        FormKind::BranchesOnRegister => branched(false, goes, i.annul, target, pair),
        FormKind::Calls => by_slot_to(target, pair),
        _ => straight(pair),
    }
}

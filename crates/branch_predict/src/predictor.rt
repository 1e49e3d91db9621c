// The predictor of a core.
ghost use Rattle.std.specs.Prelude.{◌≡◌, ◌-◌, ◌^◌, ◌<◌, IfOk, if◌then◌else◌};
ghost use Rattle.machine_config.specs.Allowed.{IsAllowed};
ghost use Rattle.branch_predict.specs.Guesses.{first_predictor, guessed, goes, hinted, jumps, learned, learns as spec_learns, on_codes, returns, without_pushes};

use crate::counters::Counters;
use crate::return_stack::ReturnStack;
use machine_config::{Config, PredictorKind};
use rsim_base::NoMemory;
use sparc_decode::{Instr, Op};
use std::alloc::Global;
use std::marker::Model;

// The register that is always 0, and those where a return address lies before a SAVE and after it (SPARC V9, H.1).
const G0: u8 = 0;

const O7: u8 = 15;

const I7: u8 = 31;

// The conditions of a branch on the condition codes that always goes, and of one that never does (SPARC V9, A.6, A.7).
const ALWAYS: u8 = 8;

const NEVER: u8 = 0;

/// Where the program is guessed to go on after an instruction.
#[derive(Clone, Copy, Debug, PartialEq, Eq)]
pub enum Guess {
    /// A branch or CALL is taken: to its displacement.
    Taken,
    /// Straight on: a branch is not taken, or the instruction is none.
    NotTaken,
    /// To this address, which the return stack gave.
    Target(u64),
    /// Nothing is guessed.
    Unknown,
}

/// What a core guesses by: the counters of its branches, and a stack of return addresses.
#[derive(Drop)]
pub struct Predictor {
    // None where branches are guessed by the instruction alone.
    counters: Option<Counters>,
    returns: ReturnStack,
}

impl Model for Predictor {
    ghost use Rattle.branch_predict.specs.Guesses.{PredictorView};
    ghost use Rattle.branch_predict.specs.Parts.{kind_of, counts_of};

    ghost Value = { PredictorView };

    ghost view = { λ p. record {
      kind = kind_of p.counters;
      counters = counts_of p.counters;
      stack = p.returns.stack;
      places = p.returns.places;
      pushes = p.returns.pushes;
    } };
}

impl Predictor {
    /// The predictor of a configuration: each counter is 1, and no address is on the stack.
    ///
    /// # Errors
    /// Where memory is short. No other call takes memory.
    pub fn make(alloc: Global, config: &Config) -> Result<Predictor, NoMemory>
        requires { IsAllowed config.now }
        ensures { IfOk result (λ p. p ≡ first_predictor config.now) }
    {
        let counters = match config.predictor {
            PredictorKind::Static => None,
            PredictorKind::TwoBit => Some(Counters::make(alloc, config.predictor_size)?),
        };
        let returns = ReturnStack::make(alloc, config.return_stack)?;
        Ok(Predictor { counters, returns })
    }

    /// Guesses where the program goes on after the instruction at `pc`. A call pushes its return address, and a return pops
    /// one.
    pub fn guess(&mut self, pc: u64, i: &Instr) -> Guess
        requires { self.old.pushes < 2 ^ 64 - 1 }
        ensures value { result ≡ (guessed pc i.now self.old).guess }
        ensures after { self.new ≡ (guessed pc i.now self.old).after }
    {
        match i.op {
            Op::Bicc | Op::BPcc => branch(self.goes_on_codes(pc, i)),
            Op::BPr => branch(self.goes(pc, i)),
            Op::Call => {
                self.returns.push(pc);
                Guess::Taken
            }
            Op::Jmpl => self.guess_jump(pc, i),
            Op::Return => self.guess_return(),
            _ => Guess::NotTaken,
        }
    }

    /// Learns which way the branch at `pc` went that may go either way (`learns`): its counter goes up or down by one, within 0 to 3. Where
    /// branches are guessed by the instruction alone, nothing changes.
    pub fn learn(&mut self, pc: u64, taken: bool)
        ensures { self.new ≡ learned pc taken self.old }
    {
        if let Some(counters) = &mut self.counters {
            counters.learn(pc, taken);
        }
    }

    /// How many addresses have been pushed so far.
    pub fn mark(&self) -> u64
        ensures { result ≡ self.now.pushes }
    {
        self.returns.pushes()
    }

    /// Drops the addresses of those pushes whose number, counted from 0, is at least `mark`. What was popped or overwritten
    /// does not come back, and the number of pushes stays.
    pub fn back_to(&mut self, mark: u64)
        ensures { self.new ≡ without_pushes mark self.old }
    {
        self.returns.back_to(mark);
    }

    // Whether the conditional branch at `pc` is guessed taken.
    fn goes(&self, pc: u64, i: &Instr) -> bool
        ensures { result ≡ goes self.now.kind pc i.now self.now }
    {
        match &self.counters {
            Some(counters) => counters.says_taken(pc),
            None => is_hinted(i),
        }
    }

    // The same of a branch on the condition codes: under two conditions the codes do not matter.
    fn goes_on_codes(&self, pc: u64, i: &Instr) -> bool
        ensures { result ≡ on_codes pc i.now self.now }
    {
        match i.cond {
            ALWAYS => true,
            NEVER => false,
            _ => self.goes(pc, i),
        }
    }

    // JMPL is a call where it leaves its address in %o7, and a return where it leaves it nowhere and goes by a return
    // address's register.
    fn guess_jump(&mut self, pc: u64, i: &Instr) -> Guess
        requires { self.old.pushes < 2 ^ 64 - 1 }
        ensures value { result ≡ (jumps pc i.now self.old).guess }
        ensures after { self.new ≡ (jumps pc i.now self.old).after }
    {
        match (i.rd, i.rs1) {
            (O7, _) => {
                self.returns.push(pc);
                Guess::Unknown
            }
            (G0, O7 | I7) => self.guess_return(),
            _ => Guess::Unknown,
        }
    }

    // To the youngest return address.
    fn guess_return(&mut self) -> Guess
        ensures value { result ≡ (returns self.old).guess }
        ensures after { self.new ≡ (returns self.old).after }
    {
        match self.returns.pop() {
            Some(address) => Guess::Target(address),
            None => Guess::Unknown,
        }
    }
}

/// Whether it is learnt which way this instruction went: of each branch that its condition may let go either way.
pub fn learns(i: &Instr) -> bool
    ensures { result ≡ spec_learns i.now }
{
    match i.op {
        Op::Bicc | Op::BPcc => i.cond != ALWAYS && i.cond != NEVER,
        Op::BPr => true,
        _ => false,
    }
}

fn branch(taken: bool) -> Guess
    ensures { result ≡ (if taken then Guess.Taken else Guess.NotTaken) }
{
    if taken { Guess::Taken } else { Guess::NotTaken }
}

// By the instruction alone. Bicc has no prediction bit, and a branch that goes back is most often taken.
fn is_hinted(i: &Instr) -> bool
    ensures { result ≡ hinted i.now.op i.now }
{
    match i.op {
        Op::Bicc => i.disp < 0,
        _ => i.hint,
    }
}

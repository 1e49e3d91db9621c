// The unit that fetches.
ghost use Rattle.std.specs.Prelude.{◌≡◌, ◌-◌, ◌^◌, ◌<◌, Some, IfSome, IsOkAnd};
ghost use Rattle.machine_config.specs.Allowed.{IsAllowed};
ghost use Rattle.sparc_meaning.specs.Fetched.{AreWindows, IsFetched};
ghost use Rattle.fetch_unit.specs.Path.{FetchesAt, IsSpot, IsSpotAt, fetching, first_spot, follow, leading, meant_by, redirected};

use crate::pairs::led_by;
use crate::path::{Fetched, Spot};
use crate::windows::{begun, micro_after, micro_at};
use branch_predict::Predictor;
use elf64_load::Image;
use machine_config::Config;
use rsim_base::{NoMemory, Node, Pair, Window};
use sparc_decode::{FormKind, Instr, kind};
use sparc_meaning::{at_once_to, instr_at};
use std::alloc::Global;
use std::marker::Model;

// The windows that a program starts with: all but the one of its outs can be saved to.
const FIRST_WINDOWS: Window = Window {
    cwp: 0,
    cansave: 6,
    canrestore: 0,
};

/// Where a core fetches next. Windows are followed along the path, and the steps of a spill or fill come before the instruction
/// that needs it.
#[derive(Drop)]
pub struct FetchUnit {
    // None where the next pair is not known.
    next: Option<Spot>,
}

impl Model for FetchUnit {
    ghost use Rattle.std.specs.Prelude.{Option};
    ghost use Rattle.fetch_unit.specs.declared.path.Spot.{Spot};

    ghost Value = { Option Spot };

    ghost view = { λ f. f.next };
}

impl FetchUnit {
    /// The unit of processor `p`, before its first instruction. It takes no memory.
    ///
    /// # Errors
    /// None.
    pub fn make(
        alloc: Global,
        image: &Image,
        config: &Config,
        p: Node,
    ) -> Result<FetchUnit, NoMemory>
        requires { IsAllowed config.now }
        ensures { IsOkAnd result (λ f. f ≡ Some (first_spot image.now)) }
    {
        Ok(FetchUnit {
            next: Some(Spot {
                pair: at_once_to(image.entry()),
                micro: None,
                window: FIRST_WINDOWS,
            }),
        })
    }

    /// Fetches what stands at the next place, and goes on to where it is guessed to lead. `None` where the next pair is not
    /// known.
    pub fn fetch(&mut self, image: &Image, predictor: &mut Predictor) -> Option<Fetched>
        requires mark { predictor.old.pushes < 2 ^ 64 - 1 }
        requires spot { IsSpot image.now self.old }
        ensures fetched { FetchesAt image.now self.old predictor.old result self.new predictor.new }
        ensures sound { IfSome result (λ f. IsFetched (meant_by f)) }
        ensures spot { IsSpot image.now self.new }
    {
        let spot = self.next?;
        let fetched = fetched_at(spot, image, predictor);
        self.next = behind(&fetched);
        Some(fetched)
    }

    /// Goes on at another place, as after a wrong guess or a squash. Step 0 of a spill or fill is where its instruction is.
    pub fn redirect(&mut self, pair: Pair, micro: Option<u8>, window: Window)
        requires windows { AreWindows window }
        requires micro { IfSome micro (λ k. k < 16) }
        ensures { self.new ≡ Some (redirected pair micro window) }
    {
        self.next = Some(Spot {
            pair,
            micro: begun(micro),
            window,
        });
    }
}

// What stands at a place.
fn fetched_at(spot: Spot, image: &Image, predictor: &mut Predictor) -> Fetched
    requires mark { predictor.old.pushes < 2 ^ 64 - 1 }
    requires spot { IsSpotAt image.now spot }
    ensures entry { result ≡ (fetching image.now spot predictor.old).entry }
    ensures predictor { predictor.new ≡ (fetching image.now spot predictor.old).predictor }
    ensures sound { IsFetched (meant_by result) }
{
    let instr = instr_at(image, spot.pair.pc);
    let micro = micro_at(spot.micro, &instr, spot.window);
    let guess = guess(micro, &instr, spot.pair, predictor);
    Fetched {
        pair: spot.pair,
        guess,
        micro,
        window: spot.window,
        instr,
        mark: predictor.mark(),
    }
}

// The pair that is guessed to follow. The predictor is asked only for an instruction that runs, and is no trap.
fn guess(micro: Option<u8>, i: &Instr, pair: Pair, predictor: &mut Predictor) -> Option<Pair>
    requires mark { predictor.old.pushes < 2 ^ 64 - 1 }
    ensures guess { result ≡ (leading micro i.now pair predictor.old).guess }
    ensures after { predictor.new ≡ (leading micro i.now pair predictor.old).after }
{
    match (micro, kind(i.op)) {
        (Some(_), _) => Some(pair),
        (None, FormKind::Traps) => None,
        (None, _) => led_by(predictor.guess(pair.pc, i), i, pair),
    }
}

// Where what was fetched is guessed to lead.
fn behind(fetched: &Fetched) -> Option<Spot>
    requires { IsFetched (meant_by fetched.now) }
    ensures { result ≡ follow fetched.now }
{
    let pair = fetched.guess?;
    Some(Spot {
        pair,
        micro: micro_after(fetched.micro),
        window: fetched.meant().windows_after(),
    })
}

//! Paths worked out by hand from the manual's rules, and a long one against plain code.

ghost use Rattle.fetch_unit.specs.Path.{IsSpot};

use branch_predict::Predictor;
use elf64_load::{Image, load};
use fetch_unit::{FetchUnit, Fetched, laws};
use machine_config::read;
use rsim_base::{Node, Pair, Window};
use sparc_decode::{Op, decode, window_effect};
use sparc_meaning::{instr_at, must_fill, must_spill};
use std::alloc::{AllocError, Global};
use std::process::Abort;
use std::test::Fail;

// The headers of an executable, up to the sizes of its one segment: it may be read and run, has its bytes at 120 of the
// file, and begins at 0x100000, the entry.
const HEADERS: &[u8] =
    b"\x7FELF\x02\x02\x01\0\0\0\0\0\0\0\0\0\0\x02\0\x2B\0\0\0\x01\0\0\0\0\0\x10\0\0\0\0\0\0\0\0\0@\0\0\0\0\0\0\0\0\0\0\0\0\0@\08\0\x01\0\0\0\0\0\0\0\0\0\x01\0\0\0\x05\0\0\0\0\0\0\0x\0\0\0\0\0\x10\0\0\0\0\0\0\0\x10\0\0";

const TEXT: u64 = 0x10_0000;

const STATIC: &[u8] = b"predictor static\nreturn_stack 4\n";

const NOP: u32 = 0x0100_0000;

const SAVE: u32 = 0x9DE3_BF50; // save %sp, -176, %sp

const RESTORE: u32 = 0x81E8_0000;

const FLUSHW: u32 = 0x8158_0000;

const RETL: u32 = 0x81C3_E008; // jmpl %o7 + 8, %g0

const RETURN: u32 = 0x81CF_E008; // return %i7 + 8

const JUMP: u32 = 0x81C0_6000; // jmpl %g1, %g0

#[derive(Drop)]
struct Tested {
    image: Image,
    predictor: Predictor,
    unit: FetchUnit,
    ghost spot: { IsSpot image unit },
}

// What is fetched, with pairs as words behind the beginning of the text.
#[derive(Clone, Copy, PartialEq, Eq)]
struct Seen {
    at: (u64, u64),
    guess: Option<(u64, u64)>,
    micro: Option<u8>,
    window: (u8, u8, u8),
    mark: u64,
}

fn words_of(pair: Pair) -> (u64, u64) {
    (
        pair.pc.wrapping_sub(TEXT) / 4,
        pair.npc.wrapping_sub(TEXT) / 4,
    )
}

fn pair_of(words: (u64, u64)) -> Pair {
    Pair {
        pc: TEXT.wrapping_add(words.0.wrapping_mul(4)),
        npc: TEXT.wrapping_add(words.1.wrapping_mul(4)),
    }
}

fn as_seen(fetched: Fetched) -> Seen {
    Seen {
        at: words_of(fetched.pair),
        guess: fetched.guess.map(words_of),
        micro: fetched.micro,
        window: (
            fetched.window.cwp,
            fetched.window.cansave,
            fetched.window.canrestore,
        ),
        mark: fetched.mark,
    }
}

// A program of these words, and a unit at its first.
fn made(alloc: Global, words: &[u32]) -> Result<Tested, Fail> {
    let size = (words.len() as u64).wrapping_mul(4).to_be_bytes();
    let mut file = Vec::from_slice(alloc, HEADERS)?;
    for part in [size, size, 8u64.to_be_bytes()] {
        file.extend_from_slice(&part)?;
    }
    for word in words {
        file.extend_from_slice(&word.to_be_bytes())?;
    }
    let image = load(alloc, &file)?;
    let config = read(alloc, STATIC)?;
    let predictor = Predictor::make(alloc, &config)?;
    let unit = FetchUnit::make(alloc, &image, &config, Node(0))?;
    Ok(Tested {
        image,
        predictor,
        unit,
    })
}

impl Tested {
    fn fetched(&mut self, rt: &impl Abort) -> Option<Fetched> {
        assert!(rt; self.predictor.mark() < u64::MAX);
        let fetched = self.unit.fetch(&self.image, &mut self.predictor);
        if let Some(fetched) = fetched {
            assert!(rt; fetched.instr == instr_at(&self.image, fetched.pair.pc));
        }
        fetched
    }

    fn fetch(&mut self, rt: &impl Abort) -> Option<Seen> {
        self.fetched(rt).map(as_seen)
    }

    fn redirect(&mut self, rt: &impl Abort, pair: Pair, micro: Option<u8>, window: (u8, u8, u8)) {
        let (cwp, cansave, canrestore) = window;
        assert!(rt; cwp < 8);
        assert!(rt; cansave <= 6 && canrestore == 6 - cansave);
        let window = Window {
            cwp,
            cansave,
            canrestore,
        };
        if let Some(k) = micro {
            assert!(rt; k < 16);
            let effect = window_effect(&instr_at(&self.image, pair.pc));
            assert!(rt; must_spill(effect, window) || must_fill(effect, window));
        }
        self.unit.redirect(pair, micro, window);
    }

    // The steps of a spill or fill at a place, from the first of these on.
    fn check_steps(&mut self, rt: &impl Abort, first: u8, at: (u64, u64), window: (u8, u8, u8)) {
        for k in first..16 {
            let wanted = Seen {
                at,
                guess: Some(at),
                micro: Some(k),
                window,
                mark: self.predictor.mark(),
            };
            assert!(rt; self.fetch(rt) == Some(wanted), "step {k}");
        }
    }

    // An instruction at a place, that leads to another.
    fn check_run(
        &mut self,
        rt: &impl Abort,
        at: (u64, u64),
        guess: Option<(u64, u64)>,
        window: (u8, u8, u8),
    ) {
        let found = self.fetch(rt);
        let wanted = Seen {
            at,
            guess,
            micro: None,
            window,
            mark: self.predictor.mark(),
        };
        assert!(rt; found == Some(wanted));
    }

    // Nothing is fetched, however often it is asked for.
    fn check_none(&mut self, rt: &impl Abort) {
        assert!(rt; self.fetch(rt).is_none());
        assert!(rt; self.fetch(rt).is_none());
    }
}

const FIRST: (u8, u8, u8) = (0, 6, 0);

#[test]
fn straight_on_from_the_entry(rt: HostRuntime) -> Result<(), Fail> {
    laws::guesses_that_are_right_lead_on();
    laws::the_path_is_that_of_the_steps();
    let mut tested = made(rt.alloc(), &[NOP, 0x9002_0009, NOP])?;
    for at in 0..3 {
        tested.check_run(&rt, (at, at + 1), Some((at + 1, at + 2)), FIRST);
    }
    // Behind the text nothing can be fetched.
    tested.check_run(&rt, (3, 4), None, FIRST);
    tested.check_none(&rt);
    assert!(rt; tested.predictor.mark() == 0);
    Ok(())
}

// Words at place 2, whose pair is 2 and 3, and the pair that each is guessed to lead to. Bicc is guessed taken where it goes
// back, and BPcc and BPr by their prediction bits.
const BRANCHES: [(u32, (u64, u64)); 21] = [
    (0x0280_0004, (3, 4)), // be 6
    (0x2280_0004, (4, 5)), // be,a 6
    (0x02BF_FFFE, (3, 0)), // be 0
    (0x22BF_FFFE, (3, 0)), // be,a 0
    (0x1080_0004, (3, 6)), // ba 6
    (0x3080_0004, (6, 7)), // ba,a 6
    (0x30BF_FFFE, (0, 1)), // ba,a 0
    (0x0080_0004, (3, 4)), // bn 6
    (0x2080_0004, (4, 5)), // bn,a 6
    (0x0268_0004, (3, 6)), // be,pt %xcc, 6
    (0x0267_FFFE, (3, 4)), // be,pn %xcc, 0
    (0x3060_0004, (6, 7)), // ba,a,pn %xcc, 6
    (0x2068_0004, (4, 5)), // bn,a,pt %xcc, 6
    (0x02C8_4004, (3, 6)), // brz,pt %g1, 6
    (0x22C8_4004, (3, 6)), // brz,a,pt %g1, 6
    (0x02C0_4004, (3, 4)), // brz,pn %g1, 6
    (0x22C0_4004, (4, 5)), // brz,a,pn %g1, 6
    (0x22F8_7FFE, (3, 0)), // brz,a,pt %g1, 0
    (0x4000_0004, (3, 6)), // call 6
    (0x7FFF_FFFE, (3, 0)), // call 0
    (0x91D0_2010, (3, 4)), // ta 16
];

#[test]
fn branches_are_followed_as_guessed(rt: HostRuntime) -> Result<(), Fail> {
    for &(word, guess) in &BRANCHES {
        let mut tested = made(rt.alloc(), &[NOP, NOP, word, NOP])?;
        tested.check_run(&rt, (0, 1), Some((1, 2)), FIRST);
        tested.check_run(&rt, (1, 2), Some((2, 3)), FIRST);
        let found = tested.fetch(&rt).ok_or("nothing")?;
        assert!(rt;
            found.at == (2, 3) && found.guess == Some(guess),
            "{word:x}"
        );
        let found = tested.fetch(&rt).ok_or("nothing")?;
        assert!(rt; found.at == guess, "{word:x}");
    }
    Ok(())
}

// In a delay slot the next pc is a target: a slot that is annulled is then at the target.
#[test]
fn branches_in_slots_go_by_the_next_pc(rt: HostRuntime) -> Result<(), Fail> {
    for &(word, guess) in &[
        (0x0280_0004, (9, 10)),
        (0x2280_0004, (10, 11)),
        (0x1080_0004, (9, 6)),
        (0x3080_0004, (6, 7)),
        (0x4000_0004, (9, 6)),
        (NOP, (9, 10)),
    ] {
        let mut tested = made(rt.alloc(), &[NOP, NOP, word, NOP])?;
        tested.redirect(&rt, pair_of((2, 9)), None, FIRST);
        tested.check_run(&rt, (2, 9), Some(guess), FIRST);
    }
    // Behind the last words of memory come the first.
    let mut tested = made(rt.alloc(), &[0x2280_0004])?;
    let pair = Pair {
        pc: TEXT,
        npc: u64::MAX - 7,
    };
    tested.redirect(&rt, pair, None, FIRST);
    let fetched = tested.fetched(&rt).ok_or("nothing")?;
    let guess = Pair {
        pc: u64::MAX - 3,
        npc: 0,
    };
    assert!(rt; fetched.guess == Some(guess));
    Ok(())
}

#[test]
fn a_call_returns_behind_its_slot(rt: HostRuntime) -> Result<(), Fail> {
    let mut tested = made(rt.alloc(), &[0x4000_0003, NOP, NOP, RETL, NOP])?;
    // The mark counts the call.
    let found = tested.fetch(&rt);
    let wanted = Seen {
        at: (0, 1),
        guess: Some((1, 3)),
        micro: None,
        window: FIRST,
        mark: 1,
    };
    assert!(rt; found == Some(wanted));
    tested.check_run(&rt, (1, 3), Some((3, 4)), FIRST);
    tested.check_run(&rt, (3, 4), Some((4, 2)), FIRST);
    tested.check_run(&rt, (4, 2), Some((2, 3)), FIRST);
    tested.check_run(&rt, (2, 3), Some((3, 4)), FIRST);
    // No address is left: nothing is known until a redirect.
    tested.check_run(&rt, (3, 4), None, FIRST);
    tested.check_none(&rt);
    tested.redirect(&rt, pair_of((4, 2)), None, (2, 3, 3));
    tested.check_run(&rt, (4, 2), Some((2, 3)), (2, 3, 3));
    assert!(rt; tested.predictor.mark() == 1);
    Ok(())
}

#[test]
fn jumps_and_traps_lead_nowhere(rt: HostRuntime) -> Result<(), Fail> {
    // A jump by %g1, and ILLTRAP.
    for &(word, op) in &[(JUMP, Op::Jmpl), (0, Op::Trap)] {
        let mut tested = made(rt.alloc(), &[NOP, word, NOP])?;
        tested.check_run(&rt, (0, 1), Some((1, 2)), FIRST);
        let fetched = tested.fetched(&rt).ok_or("nothing")?;
        assert!(rt; fetched.instr.op == op && fetched.instr == decode(word));
        assert!(rt; words_of(fetched.pair) == (1, 2) && fetched.guess.is_none());
        tested.check_none(&rt);
        tested.redirect(&rt, pair_of((2, 0)), None, FIRST);
        tested.check_run(&rt, (2, 0), Some((0, 1)), FIRST);
    }
    // An address that is no multiple of 4, and one outside the text: trap 0x008.
    let mut tested = made(rt.alloc(), &[NOP])?;
    for &pc in &[TEXT + 2, TEXT + 4, 0] {
        tested.redirect(&rt, Pair { pc, npc: TEXT }, None, FIRST);
        let fetched = tested.fetched(&rt).ok_or("nothing")?;
        assert!(rt; fetched.instr.op == Op::Trap && fetched.instr.trap == 8);
        assert!(rt; fetched.pair.pc == pc && fetched.guess.is_none());
        tested.check_none(&rt);
    }
    Ok(())
}

#[test]
fn the_seventh_save_spills_first(rt: HostRuntime) -> Result<(), Fail> {
    let words = [SAVE, SAVE, SAVE, SAVE, SAVE, SAVE, SAVE, NOP];
    let mut tested = made(rt.alloc(), &words)?;
    for k in 0..6 {
        let at = u64::from(k);
        tested.check_run(&rt, (at, at + 1), Some((at + 1, at + 2)), (k, 6 - k, k));
    }
    tested.check_steps(&rt, 0, (6, 7), (6, 0, 6));
    tested.check_run(&rt, (6, 7), Some((7, 8)), (6, 1, 5));
    tested.check_run(&rt, (7, 8), Some((8, 9)), (7, 0, 6));
    Ok(())
}

#[test]
fn restores_and_returns_fill_first(rt: HostRuntime) -> Result<(), Fail> {
    let mut tested = made(rt.alloc(), &[0x4000_0003, RESTORE, NOP, RETURN, RESTORE])?;
    assert!(rt; tested.fetch(&rt).is_some());
    tested.check_steps(&rt, 0, (1, 3), FIRST);
    tested.check_run(&rt, (1, 3), Some((3, 4)), (0, 5, 1));
    tested.check_steps(&rt, 0, (3, 4), (7, 6, 0));
    tested.check_run(&rt, (3, 4), Some((4, 2)), (7, 5, 1));
    tested.check_steps(&rt, 0, (4, 2), (6, 6, 0));
    tested.check_run(&rt, (4, 2), Some((2, 3)), (6, 5, 1));
    tested.check_run(&rt, (2, 3), Some((3, 4)), (5, 6, 0));
    // With no address the steps still come first.
    tested.check_steps(&rt, 0, (3, 4), (5, 6, 0));
    tested.check_run(&rt, (3, 4), None, (5, 5, 1));
    tested.check_none(&rt);
    Ok(())
}

#[test]
fn flushw_spills_every_window(rt: HostRuntime) -> Result<(), Fail> {
    let mut tested = made(rt.alloc(), &[FLUSHW, FLUSHW])?;
    tested.redirect(&rt, pair_of((0, 1)), None, (2, 3, 3));
    for &window in &[(2, 3, 3), (2, 4, 2), (2, 5, 1)] {
        tested.check_steps(&rt, 0, (0, 1), window);
    }
    tested.check_run(&rt, (0, 1), Some((1, 2)), (2, 6, 0));
    // Nothing is left to spill.
    tested.check_run(&rt, (1, 2), Some((2, 3)), (2, 6, 0));
    Ok(())
}

#[test]
fn redirects_go_into_spills_and_fills(rt: HostRuntime) -> Result<(), Fail> {
    let mut tested = made(rt.alloc(), &[SAVE, RESTORE])?;
    for &k in &[0, 1, 5, 15] {
        tested.redirect(&rt, pair_of((0, 7)), Some(k), (3, 0, 6));
        tested.check_steps(&rt, k, (0, 7), (3, 0, 6));
        tested.check_run(&rt, (0, 7), Some((7, 8)), (3, 1, 5));
        tested.redirect(&rt, pair_of((1, 7)), Some(k), (3, 6, 0));
        tested.check_steps(&rt, k, (1, 7), (3, 6, 0));
        tested.check_run(&rt, (1, 7), Some((7, 8)), (3, 5, 1));
    }
    // Out of one, and another begins anew.
    tested.redirect(&rt, pair_of((0, 7)), Some(9), (7, 0, 6));
    assert!(rt; tested.fetch(&rt).is_some());
    tested.redirect(&rt, pair_of((1, 2)), None, (7, 6, 0));
    tested.check_steps(&rt, 0, (1, 2), (7, 6, 0));
    Ok(())
}

// The instructions of the script.
#[derive(Clone, Copy)]
enum Word {
    Plain,
    Save,
    Restore,
    Flushw,
    Branch(bool, bool, u64),
    Call(u64),
    Retl,
    Return,
    Jump,
}

// What is expected: the places as words behind the beginning of the text.
#[derive(Drop)]
struct Expected {
    words: Vec<Word>,
    stack: Vec<u64>,
    mark: u64,
    at: Option<(u64, u64)>,
    micro: Option<u8>,
    window: (u8, u8, u8),
}

const WORDS: u64 = 48;

fn word_of(mixed: u64) -> Word {
    let to = mixed / 64 % WORDS;
    match mixed % 16 {
        0..3 => Word::Save,
        3..6 => Word::Restore,
        6 => Word::Flushw,
        7 | 8 => Word::Branch(false, mixed / 16 % 2 == 0, to),
        9 => Word::Branch(true, mixed / 16 % 2 == 0, to),
        10 | 11 => Word::Call(to),
        12 => Word::Retl,
        13 => Word::Return,
        14 => Word::Jump,
        _ => Word::Plain,
    }
}

fn encoded(word: Word, at: u64) -> u32 {
    let away = |to: u64, bits: u64| (to.wrapping_sub(at) & bits) as u32;
    match word {
        Word::Plain => NOP,
        Word::Save => SAVE,
        Word::Restore => RESTORE,
        Word::Flushw => FLUSHW,
        Word::Branch(false, false, to) => 0x0280_0000 | away(to, 0x3F_FFFF),
        Word::Branch(false, true, to) => 0x2280_0000 | away(to, 0x3F_FFFF),
        Word::Branch(true, false, to) => 0x1080_0000 | away(to, 0x3F_FFFF),
        Word::Branch(true, true, to) => 0x3080_0000 | away(to, 0x3F_FFFF),
        Word::Call(to) => 0x4000_0000 | away(to, 0x3FFF_FFFF),
        Word::Retl => RETL,
        Word::Return => RETURN,
        Word::Jump => JUMP,
    }
}

impl Expected {
    fn waits(&self, word: Option<Word>) -> bool {
        match word {
            Some(Word::Save) => self.window.1 == 0,
            Some(Word::Flushw) => self.window.1 != 6,
            Some(Word::Restore | Word::Return) => self.window.2 == 0,
            _ => false,
        }
    }

    fn push(&mut self, address: u64) -> Result<(), AllocError> {
        if self.stack.len() == 4 {
            self.stack.remove(0);
        }
        self.stack.push(address)?;
        self.mark = self.mark.wrapping_add(1);
        Ok(())
    }

    fn guess(
        &mut self,
        word: Option<Word>,
        at: (u64, u64),
    ) -> Result<Option<(u64, u64)>, AllocError> {
        let (pc, npc) = at;
        let straight = (npc, npc.wrapping_add(1));
        let guess = match word {
            None | Some(Word::Jump) => None,
            Some(Word::Branch(true, true, to)) => Some((to, to.wrapping_add(1))),
            Some(Word::Branch(true, false, to)) => Some((npc, to)),
            Some(Word::Branch(false, _, to)) if to < pc => Some((npc, to)),
            Some(Word::Branch(false, true, _)) => Some((straight.1, npc.wrapping_add(2))),
            Some(Word::Call(to)) => {
                self.push(pc.wrapping_add(2))?;
                Some((npc, to))
            }
            Some(Word::Retl | Word::Return) => self.stack.pop().map(|address| (npc, address)),
            _ => Some(straight),
        };
        Ok(guess)
    }

    fn windows_behind(&self, word: Option<Word>, micro: Option<u8>) -> (u8, u8, u8) {
        let (cwp, cansave, canrestore) = self.window;
        let more = (cansave.wrapping_add(1), canrestore.wrapping_sub(1));
        let fewer = (cansave.wrapping_sub(1), canrestore.wrapping_add(1));
        match (micro, word) {
            (Some(15), Some(Word::Save | Word::Flushw)) => (cwp, more.0, more.1),
            (Some(15), _) => (cwp, fewer.0, fewer.1),
            (None, Some(Word::Save)) => (cwp.wrapping_add(1) % 8, fewer.0, fewer.1),
            (None, Some(Word::Restore | Word::Return)) => {
                (cwp.wrapping_sub(1) % 8, more.0, more.1)
            }
            _ => self.window,
        }
    }

    fn fetch(&mut self) -> Result<Option<Seen>, AllocError> {
        let Some(at) = self.at else {
            return Ok(None);
        };
        let word = self.words.get(at.0 as usize).copied();
        let micro = match self.micro {
            None if self.waits(word) => Some(0),
            micro => micro,
        };
        let guess = match micro {
            Some(_) => Some(at),
            None => self.guess(word, at)?,
        };
        let seen = Seen {
            at,
            guess,
            micro,
            window: self.window,
            mark: self.mark,
        };
        self.window = self.windows_behind(word, micro);
        self.micro = micro.filter(|k| *k < 15).map(|k| k.wrapping_add(1));
        self.at = guess;
        Ok(Some(seen))
    }
}

fn mix(mixed: u64) -> u64 {
    mixed
        .wrapping_mul(6_364_136_223_846_793_005)
        .wrapping_add(1)
}

// A program of words that look random, and what is expected of it.
fn made_script(alloc: Global, seed: u64) -> Result<(Tested, Expected), Fail> {
    let mut words = Vec::new(alloc);
    let mut codes = Vec::new(alloc);
    let mut mixed = seed;
    for at in 0..WORDS {
        mixed = mix(mixed);
        let word = word_of(mixed >> 33);
        words.push(word)?;
        codes.push(encoded(word, at))?;
    }
    let tested = made(alloc, &codes)?;
    let all = Expected {
        words,
        stack: Vec::new(alloc),
        mark: 0,
        at: Some((0, 1)),
        micro: None,
        window: FIRST,
    };
    Ok((tested, all))
}

// From where nothing is known the script goes on elsewhere, in the same windows.
#[test]
fn a_script_goes_as_plain_code_does(rt: HostRuntime) -> Result<(), Fail> {
    for seed in 0..8 {
        let (mut tested, mut all) = made_script(rt.alloc(), seed)?;
        let mut mixed = seed;
        for step in 0..400u32 {
            mixed = mix(mixed);
            let wanted = all.fetch()?;
            assert!(rt; tested.fetch(&rt) == wanted, "step {step} of {seed}");
            if wanted.is_none() || mixed >> 59 == 0 {
                let place = (mixed >> 33) % WORDS;
                let at = (place, (mixed >> 40) % WORDS);
                tested.redirect(&rt, pair_of(at), None, all.window);
                (all.at, all.micro) = (Some(at), None);
            }
        }
    }
    Ok(())
}

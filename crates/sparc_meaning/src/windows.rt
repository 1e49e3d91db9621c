//! Register windows, and their spills and fills (SPARC V9, 5.1.1 and 6.4).

ghost use Rattle.std.specs.Prelude.{◌≡◌, ◌≢◌, ◌<◌, ◌≤◌, ◌+◌, IsTrue};
ghost use Rattle.sparc_meaning.specs.Arch.{IsSound};
ghost use Rattle.sparc_meaning.specs.Fetched as part;
ghost use Rattle.sparc_meaning.specs.Windows as spec;

use crate::acts::Act;
use crate::arch::{Arch, ArchPhase, L0, O6, above, below};
use crate::traps::{DATA_ACCESS_EXCEPTION, MEM_ADDRESS_NOT_ALIGNED};
use elf64_load::Image;
use rsim_base::{Addr, Size, Window};
use sparc_decode::{Instr, WindowEffect, window_effect};

// How far above a window's stack pointer its save area lies (H.1.3).
const BIAS: u64 = 2047;

// The last step of a spill or fill.
const LAST: u8 = 15;

/// The windows after a SAVE.
pub(crate) fn window_above(w: Window) -> Window
    requires current { w.cwp < 8 }
    requires room { 1 ≤ w.cansave }
    requires few { w.canrestore ≤ 6 }
    ensures { result ≡ spec.window_above w }
{
    Window {
        cwp: above(w.cwp),
        cansave: w.cansave - 1,
        canrestore: w.canrestore + 1,
    }
}

/// The windows after a RESTORE.
pub(crate) fn window_below(w: Window) -> Window
    requires current { w.cwp < 8 }
    requires kept { 1 ≤ w.canrestore }
    requires few { w.cansave ≤ 6 }
    ensures { result ≡ spec.window_below w }
{
    Window {
        cwp: below(w.cwp),
        cansave: w.cansave + 1,
        canrestore: w.canrestore - 1,
    }
}

/// Whether an instruction of this effect must spill a window before it runs: SAVE has none to save to, or FLUSHW not all
/// of them.
pub fn must_spill(effect: WindowEffect, w: Window) -> bool
    ensures value { result ≡ part.spills_by effect w }
    ensures kept { IsTrue result → w.cansave ≢ 6 }
{
    match effect {
        WindowEffect::Save => w.cansave == 0,
        WindowEffect::Flush => w.cansave != 6,
        WindowEffect::Same | WindowEffect::Restore => false,
    }
}

/// Whether it must fill one: RESTORE or RETURN has none to restore from.
pub fn must_fill(effect: WindowEffect, w: Window) -> bool
    ensures value { result ≡ part.fills_by effect w }
    ensures room { IsTrue result → w.canrestore ≡ 0 }
{
    match effect {
        WindowEffect::Restore => w.canrestore == 0,
        WindowEffect::Same | WindowEffect::Save | WindowEffect::Flush => false,
    }
}

/// The windows after the last step of a spill.
pub(crate) fn one_less_kept(w: Window) -> Window
    requires kept { 1 ≤ w.canrestore }
    requires few { w.cansave ≤ 6 }
    ensures { result ≡ spec.one_less_kept w }
{
    Window {
        cansave: w.cansave + 1,
        canrestore: w.canrestore - 1,
        ..w
    }
}

/// The windows after the last step of a fill.
pub(crate) fn one_more_kept(w: Window) -> Window
    requires room { 1 ≤ w.cansave }
    requires few { w.canrestore ≤ 6 }
    ensures { result ≡ spec.one_more_kept w }
{
    Window {
        cansave: w.cansave - 1,
        canrestore: w.canrestore + 1,
        ..w
    }
}

/// The window that a spill stores: the oldest that can be restored from.
pub(crate) fn oldest(w: Window) -> u8
    requires current { w.cwp < 8 }
    requires few { w.cansave ≤ 6 }
    ensures value { result ≡ spec.oldest w }
    ensures window { result < 8 }
{
    (w.cwp + w.cansave + 2) % 8
}

/// The place in memory of register 16 + `k` of the window with this stack pointer.
pub(crate) fn slot_at(pointer: u64, k: u8) -> u64
    ensures { result ≡ spec.slot_at pointer k }
{
    pointer.wrapping_add(BIAS + 8 * u64::from(k))
}

impl Arch {
    ghost use Rattle.sparc_meaning.specs.Windows.{windows_of, with_windows, saved, restored, spills_first, fills_first, spilled, filled, slot, after_spill, after_fill, spill, fill};

    /// The windows as they stand.
    pub(crate) fn window(&self) -> Window
        ensures { result ≡ windows_of self.now }
    {
        Window {
            cwp: self.cwp,
            cansave: self.cansave,
            canrestore: self.canrestore,
        }
    }

    /// To these windows.
    pub(crate) fn set_window(&mut self, w: Window)
        ensures { self.new ≡ with_windows w self.old }
    {
        self.cwp = w.cwp;
        self.cansave = w.cansave;
        self.canrestore = w.canrestore;
    }

    /// To the window above.
    pub(crate) fn save_window(&mut self)
        requires sound { IsSound self.old }
        requires room { 1 ≤ self.old.cansave }
        ensures { self.new ≡ saved self.old }
    {
        self.set_window(window_above(self.window()));
    }

    /// To the window below.
    pub(crate) fn restore_window(&mut self)
        requires sound { IsSound self.old }
        requires kept { 1 ≤ self.old.canrestore }
        ensures { self.new ≡ restored self.old }
    {
        self.set_window(window_below(self.window()));
    }

    /// Whether an instruction must wait for the spill of a window.
    pub(crate) fn spills_first(&self, i: &Instr) -> bool
        ensures value { result ≡ spills_first i.now.op self.now }
        ensures kept { IsTrue result → self.now.cansave ≢ 6 }
    {
        must_spill(window_effect(i), self.window())
    }

    /// Whether an instruction must wait for the fill of a window.
    pub(crate) fn fills_first(&self, i: &Instr) -> bool
        ensures value { result ≡ fills_first i.now.op self.now }
        ensures room { IsTrue result → self.now.canrestore ≡ 0 }
    {
        must_fill(window_effect(i), self.window())
    }

    // The window that a spill stores.
    fn spilled(&self) -> u8
        requires { IsSound self.now }
        ensures value { result ≡ spilled self.now }
        ensures window { result < 8 }
    {
        oldest(self.window())
    }

    // The place of register 16 + k of a window in memory.
    fn slot(&self, window: u8, k: u8) -> u64
        requires window { window < 8 }
        ensures { result ≡ slot window self.now k }
    {
        slot_at(self.register_of(window, O6), k)
    }

    /// Step `k` of the spill of a window.
    pub(crate) fn spill(&mut self, k: u8, image: &Image) -> Act
        requires sound { IsSound self.old }
        requires step { k ≤ 15 }
        requires kept { 1 ≤ self.old.canrestore }
        ensures { record { state = self.new; act = result } ≡ spill k image.now self.old }
    {
        let window = self.spilled();
        let addr = self.slot(window, k);
        if addr % 8 != 0 {
            return self.trap(MEM_ADDRESS_NOT_ALIGNED);
        }
        if !image.may_write(Addr(addr), Size::B8) {
            return self.trap(DATA_ACCESS_EXCEPTION);
        }
        let value = self.register_of(window, L0 + k);
        self.spill_on(k);
        Act::Store(Addr(addr), Size::B8, value)
    }

    // To the next step of a spill, or behind its last.
    fn spill_on(&mut self, k: u8)
        requires sound { IsSound self.old }
        requires step { k ≤ 15 }
        requires kept { 1 ≤ self.old.canrestore }
        ensures { self.new ≡ after_spill k self.old }
    {
        if k == LAST {
            self.phase = ArchPhase::Run;
            self.set_window(one_less_kept(self.window()));
        } else {
            self.phase = ArchPhase::Spill(k + 1);
        }
    }

    /// Where step `k` of the fill of a window loads from, if that is a place that may be read.
    pub(crate) fn fill_slot(&self, k: u8) -> u64
        requires sound { IsSound self.now }
        ensures { result ≡ slot (filled self.now) self.now k }
    {
        self.slot(below(self.cwp), k)
    }

    /// Step `k` of the fill of a window, with what memory has.
    pub(crate) fn fill(&mut self, k: u8, image: &Image, value: u64) -> Act
        requires sound { IsSound self.old }
        requires step { k ≤ 15 }
        requires room { 1 ≤ self.old.cansave }
        ensures { record { state = self.new; act = result } ≡ fill k image.now self.old value }
    {
        let addr = self.fill_slot(k);
        if addr % 8 != 0 {
            return self.trap(MEM_ADDRESS_NOT_ALIGNED);
        }
        if !image.may_read(Addr(addr), Size::B8) {
            return self.trap(DATA_ACCESS_EXCEPTION);
        }
        self.set_register_of(below(self.cwp), L0 + k, value);
        self.fill_on(k);
        Act::Load(Addr(addr), Size::B8, value)
    }

    // To the next step of a fill, or behind its last.
    fn fill_on(&mut self, k: u8)
        requires window { self.old.canrestore ≤ 6 }
        requires step { k ≤ 15 }
        requires room { 1 ≤ self.old.cansave }
        ensures { self.new ≡ after_fill k self.old }
    {
        if k == LAST {
            self.phase = ArchPhase::Run;
            self.set_window(one_more_kept(self.window()));
        } else {
            self.phase = ArchPhase::Fill(k + 1);
        }
    }
}

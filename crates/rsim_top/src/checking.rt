// The top call of the program that checks orders.
ghost use Rattle.std.specs.Prelude.{◌≡◌, ◌≤◌, length, map, string_bytes};
ghost use Rattle.rsim_top.specs.CheckAnswers.{AnswersCheckFile, ChecksAnswer};
ghost use Rattle.rsim_top.specs.CheckCauses.{IsCompleteCheck, IsExactCheck};
ghost use Rattle.rsim_top.specs.CheckParts.{ChecksOrder, LoadsImage, check_asked_by, outcome_of};
ghost use Rattle.rsim_top.specs.Outside.{outside, shelf_of, sink_of};
ghost use Rattle.rsim_top.specs.Parts.{PutsReport};
ghost use Rattle.rsim_top.specs.VerdictText.{verdict_text};

use crate::command::{MAX_EXE, fetch, write_refusal};
use crate::refusal::{File, Refusal};
use crate::verdict::Verdict;
use command_words::{BadWords, CheckWords, Executable, read_check};
use elf64_load::{ElfFault, Image, load};
use order_checker::{Rejected, check};
use rsim_io::{Shelf, Sink};
use std::alloc::Global;

// The longest order, in bytes.
const MAX_ORDER: u64 = 1_073_741_824;

/// Does all that `rsimcheck EXE ORDER` does, where `words` are the words after the program's name: tells on `out` whether
/// the order in the file ORDER of the shelf is one that a machine may write for the executable, and if not, its first fault.
/// No file is changed.
///
/// # Errors
/// The first refusal of these steps: the words are read; the executable and the order are fetched; the executable is
/// loaded; the order is checked; the verdict is told. Memory may be short at each of them. Up to the last step nothing has
/// been written; where the verdict was not told whole, `out` has a prefix of it.
pub fn check_command<S: Shelf, K: Sink>(
    alloc: Global,
    words: &Vec<String>,
    shelf: &mut S,
    out: &mut K,
) -> Result<Verdict, Refusal>
    ensures answer { ChecksAnswer (map string_bytes words.now.items)
        (outside (shelf_of S.holds S.faults S.sure shelf.old) (sink_of K.written K.faults K.sure out.old))
        (outside (shelf_of S.holds S.faults S.sure shelf.new) (sink_of K.written K.faults K.sure out.new))
        result }
    ensures exactly { IsExactCheck (map string_bytes words.now.items)
        (outside (shelf_of S.holds S.faults S.sure shelf.old) (sink_of K.written K.faults K.sure out.old))
        result }
    ensures complete { IsCompleteCheck (map string_bytes words.now.items)
        (outside (shelf_of S.holds S.faults S.sure shelf.old) (sink_of K.written K.faults K.sure out.old))
        (outside (shelf_of S.holds S.faults S.sure shelf.new) (sink_of K.written K.faults K.sure out.new))
        result }
    ensures shelf_faults { S.faults shelf.old ≤ S.faults shelf.new }
    ensures sink_faults { K.faults out.old ≤ K.faults out.new }
{
    check_words(alloc, words, shelf, out)
}

// As `check_command`.
fn check_words<S: Shelf, K: Sink>(
    alloc: Global,
    words: &Vec<String>,
    shelf: &mut S,
    out: &mut K,
) -> Result<Verdict, Refusal>
    ensures answer { ChecksAnswer (map string_bytes words.now.items)
        (outside (shelf_of S.holds S.faults S.sure shelf.old) (sink_of K.written K.faults K.sure out.old))
        (outside (shelf_of S.holds S.faults S.sure shelf.new) (sink_of K.written K.faults K.sure out.new))
        result }
    ensures shelf_faults { S.faults shelf.old ≤ S.faults shelf.new }
    ensures sink_faults { K.faults out.old ≤ K.faults out.new }
{
    let want = match read_check(alloc, words) {
        Ok(want) => want,
        Err(BadWords::Fault(fault)) => return Err(Refusal::Words(fault)),
        Err(BadWords::Memory) => return Err(Refusal::Memory),
    };
    match want.executable {
        Executable::File(exe) => check_file(alloc, &want, exe, shelf, out),
        Executable::Generated(_) => Err(Refusal::Unbuilt),
    }
}

// What is asked for, with the executable of this name.
fn check_file<S: Shelf, K: Sink>(
    alloc: Global,
    want: &CheckWords,
    exe: &str,
    shelf: &mut S,
    out: &mut K,
) -> Result<Verdict, Refusal>
    ensures answer { AnswersCheckFile
        (outside (shelf_of S.holds S.faults S.sure shelf.old) (sink_of K.written K.faults K.sure out.old))
        (outside (shelf_of S.holds S.faults S.sure shelf.new) (sink_of K.written K.faults K.sure out.new))
        (check_asked_by want.now) exe.now result }
    ensures shelf_faults { S.faults shelf.old ≤ S.faults shelf.new }
    ensures sink_faults { K.faults out.old ≤ K.faults out.new }
{
    let file = fetch(alloc, File::Exe, MAX_EXE, exe, shelf)?;
    let text = fetch(alloc, File::Order, MAX_ORDER, want.order, shelf)?;
    let image = load_image(alloc, &file)?;
    let verdict = check_order(alloc, &image, &text)?;
    tell(alloc, &verdict, out)?;
    Ok(verdict)
}

// The image of an executable.
fn load_image(alloc: Global, file: &[u8]) -> Result<Image, Refusal>
    ensures { LoadsImage file.now result }
{
    match load(alloc, file) {
        Ok(image) => Ok(image),
        Err(ElfFault::Memory) => Err(Refusal::Memory),
        Err(fault) => Err(Refusal::Elf(fault)),
    }
}

// The verdict on an order.
fn check_order(alloc: Global, image: &Image, text: &[u8]) -> Result<Verdict, Refusal>
    ensures { ChecksOrder image.now text.now result }
{
    match check(alloc, image, text) {
        Ok(told) => Ok(Verdict::Accepted(told)),
        Err(why) => rejected(why),
    }
}

// The verdict on an order with a fault; want of memory is none.
fn rejected(why: Rejected) -> Result<Verdict, Refusal>
    ensures { result ≡ outcome_of why }
{
    match why {
        Rejected::Memory => Err(Refusal::Memory),
        _ => Ok(Verdict::Rejected(why)),
    }
}

// Tells a verdict, on a line.
fn tell<K: Sink>(alloc: Global, verdict: &Verdict, out: &mut K) -> Result<(), Refusal>
    ensures put { PutsReport (sink_of K.written K.faults K.sure out.old) (sink_of K.written K.faults K.sure out.new) (verdict_text verdict.now) result }
    ensures faults { K.faults out.old ≤ K.faults out.new }
{
    let Ok(text) = format!(in alloc; "{verdict}\n") else {
        return Err(Refusal::Memory);
    };
    match out.put(text.as_bytes()) {
        Ok(()) => Ok(()),
        Err(fault) => Err(write_refusal(File::Report, fault)),
    }
}

// Cases of whole runs, with their reports and orders.
use crate::executables::{executable, linked};
use crate::fields::field;
use crate::left::Left;
use crate::outcome::Outcome;
use crate::outside::Command;
use crate::setting::Setting;
use crate::told::{Told, count, push_lines};
use anyhow::Result;
use std::alloc::Global;

/// `SETTING | CODE | CYCLES: STEPS ENDING; .. | OUTPUT; .. | ACCESS | ..`, of an executable of one segment.
pub fn run(alloc: Global, case: &str) -> Result<Outcome> {
    let (setting, case) = field(case);
    let (code, told) = field(case);
    let file = executable(alloc, code)?;
    whole(alloc, Setting::read(setting), &file, told)
}

/// `SETTING | CODE | DATA | CYCLES: STEPS ENDING; .. | OUTPUT; .. | ACCESS | ..`, of an executable as a linker lays it
/// out.
pub fn link(alloc: Global, case: &str) -> Result<Outcome> {
    let (setting, case) = field(case);
    let (code, case) = field(case);
    let (data, told) = field(case);
    let file = linked(alloc, code, data)?;
    whole(alloc, Setting::read(setting), &file, told)
}

/// `SETTING | CODE | CYCLES: STEPS ENDING; .. | OUTPUT; .. | COUNT | LINE | ..`: the order has so many accesses, and
/// these lines are among its lines.
pub fn part(alloc: Global, case: &str) -> Result<Outcome> {
    let (setting, case) = field(case);
    let (code, told) = field(case);
    let setting = Setting::read(setting);
    let file = executable(alloc, code)?;
    let found = found(alloc, setting, &file)?;
    let (told, rest) = Told::read(setting, told);
    let (accesses, lines) = field(rest);
    let wanted = told.left(alloc, String::new(alloc), accesses.parse::<usize>()?)?;
    let mut among = String::new(alloc);
    push_lines(&mut among, lines)?;
    Ok(Outcome {
        wanted: part_text(alloc, &wanted, accesses, among.as_str())?,
        found: found_part(alloc, &found, lines)?,
    })
}

// A run whose order is wanted whole.
fn whole(alloc: Global, setting: Setting<'_>, file: &[u8], told: &str) -> Result<Outcome> {
    Ok(Outcome {
        wanted: wanted(alloc, setting, told)?.text(alloc)?,
        found: found(alloc, setting, file)?.text(alloc)?,
    })
}

/// What `CYCLES: STEPS ENDING; .. | OUTPUT; .. | ACCESS | ..` says that a run leaves.
pub fn wanted(alloc: Global, setting: Setting<'_>, told: &str) -> Result<Left> {
    let (told, accesses) = Told::read(setting, told);
    told.left(alloc, told.order(alloc, accesses)?, count(accesses))
}

/// What a run of a file leaves.
pub fn found(alloc: Global, setting: Setting<'_>, file: &[u8]) -> Result<Left> {
    let config = setting.config(alloc)?;
    let words = format!(in alloc; "exe config {} order", setting.bound)?;
    let command = Command {
        words: words.as_str(),
        config: config.as_bytes(),
        exe: file,
        order: "order",
    };
    command.left(alloc)
}

// What a run left, of its order only how many accesses it has, and those of these lines, parted by `|`, that it has.
fn found_part(alloc: Global, left: &Left, lines: &str) -> Result<String> {
    let accesses = format!(in alloc; "{}", left.accesses())?;
    let among = among(alloc, left.order.as_str(), lines)?;
    part_text(alloc, left, accesses.as_str(), among.as_str())
}

fn part_text(alloc: Global, left: &Left, accesses: &str, among: &str) -> Result<String> {
    Ok(format!(in alloc;
        "{}\n{}{accesses} accesses\n{among}check: {}\n",
        left.answer, left.report, left.verdict
    )?)
}

fn among(alloc: Global, order: &str, lines: &str) -> Result<String> {
    let mut among = String::new(alloc);
    for wanted in lines.split('|') {
        let wanted = wanted.trim();
        if order.lines().any(|line| line == wanted) {
            among.push_str(wanted)?;
            among.push('\n')?;
        }
    }
    Ok(among)
}

// Cases of the shapes that a machine may have.
use crate::executables::executable;
use crate::fields::field;
use crate::left::Left;
use crate::outcome::{Outcome, outcome_of};
use crate::runs::{found, wanted};
use crate::setting::Setting;
use anyhow::Result;
use std::alloc::Global;
use std::fmt::Write;

// The most columns that a configuration may name.
const MOST_COLUMNS: u8 = 16;

/// `WIDTH WIDTH .. | SETTING | CODE | CYCLES: STEPS ENDING; .. | OUTPUT; .. | ACCESS | ..`: with each of these widths of
/// the mesh the run is this one, and each other width is refused.
pub fn shapes(alloc: Global, case: &str) -> Result<Outcome> {
    let (widths, case) = field(case);
    let (setting, case) = field(case);
    let (code, told) = field(case);
    let file = executable(alloc, code)?;
    let wanted = wanted(alloc, Setting::read(setting), told)?.text(alloc)?;
    let refusal = refusal(alloc)?.text(alloc)?;
    let mut found_widths = String::new(alloc);
    for width in 1..=MOST_COLUMNS {
        let setting = format!(in alloc; "{setting}, mesh_width {width}")?;
        let left = found(alloc, Setting::read(setting.as_str()), &file)?.text(alloc)?;
        if left == wanted {
            write!(found_widths, " {width}")?;
        } else if left != refusal {
            write!(found_widths, " {width} otherwise: {left}")?;
        }
    }
    outcome_of(alloc, widths, found_widths.trim())
}

// What is left where the mesh has no such shape.
fn refusal(alloc: Global) -> Result<Left> {
    Ok(Left {
        answer: String::from_str(alloc, "3 config: MeshShape")?,
        report: String::new(alloc),
        order: String::from_str(alloc, "none")?,
        verdict: String::from_str(alloc, "none")?,
    })
}

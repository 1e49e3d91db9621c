// From an order's text to the order.
ghost use Rattle.std.specs.Prelude.{◌≡◌, ◌/◌, min, ℕ, ◌<◌, ◌≤◌, ◌⊎◌, ◌++◌, ◌∷◌, [], length, take, sum, IfOk, IfErr, OnOk, None};
ghost use Rattle.order_certificate.specs.Certificate.{IsCertificate, text_of, CertificateView};
ghost use Rattle.rsim_base.specs.Limits.{max_processors, max_steps};
ghost use Rattle.order_certificate.specs.Fields.{access_at, fault_at, HasHeading, HasLines, IsOverfull};
ghost use Rattle.order_certificate.specs.Reading.{pieces, IsRead, IsOrder, Reads};

use crate::certificate::Certificate;
use crate::fault::TextFault;
use crate::fields::after;
use crate::lines::{access_at, ending_at, model_at, processors_at};
use rsim_base::{Access, MAX_STEPS, Model};
use std::alloc::Global;

// The line of the first access, from 1.
const FIRST_ACCESS: u32 = 4;

/// The order that a text tells.
///
/// # Errors
/// The first fault of the text, line by line: `BadLine` of a line that may not stand there, and of the first line
/// behind the end line; `Truncated` where no line feed is left before the end line is read; `TooMany` at an access
/// past 8,000,000 of them, and at an end line whose counts add to more. Where memory is short, `Memory`.
pub fn read(alloc: Global, text: &[u8]) -> Result<Certificate, TextFault>
    ensures found { IfOk result (λ c. IsCertificate c × (text.now ≡ text_of c)) }
    ensures only { (c : CertificateView) → IsCertificate c → text.now ≡ text_of c → Reads (λ r. r ≡ Ok c) result }
    ensures cut { (c : CertificateView) (k : ℕ) → IsCertificate c → k < length (text_of c) → text.now ≡ take k (text_of c)
        → Reads (λ r. r ≡ Err TextFault.Truncated) result }
    ensures exact { Reads (IsRead text.now) result }
{
    let (model, processors, rest) = read_heading(text)?;
    read_order(alloc, model, processors, rest)
}

// The model and the number of processors, and the text behind the heading.
fn read_heading(text: &[u8]) -> Result<(Model, u8, &[u8]), TextFault>
    ensures heading { IfOk result (λ x. HasHeading text.now x.0 x.1 x.2.now) }
    ensures fault { IfErr result (λ f. IsRead text.now (Err f)) }
{
    let Some(behind_version) = after(text, b"rsim order 1\n") else {
        return Err(fault_at(text, 1));
    };
    let Some((model, behind_model)) = model_at(behind_version) else {
        return Err(fault_at(behind_version, 2));
    };
    let Some((processors, rest)) = processors_at(behind_model) else {
        return Err(fault_at(behind_model, 3));
    };
    Ok((model, processors, rest))
}

// What stands behind the heading.
fn read_order(
    alloc: Global,
    model: Model,
    processors: u8,
    text: &[u8],
) -> Result<Certificate, TextFault>
    requires { processors ≤ max_processors }
    ensures { Reads (IsOrder model processors (pieces text.now)) result }
{
    let (lines, rest) = read_lines(alloc, text)?;
    let end = FIRST_ACCESS + lines.len() as u32;
    let Ok(ending) = ending_at(alloc, rest, u32::from(processors)) else {
        return Err(TextFault::Memory);
    };
    let Some((counts, left)) = ending else {
        return Err(fault_at(rest, end));
    };
    if steps(&counts) > u64::from(MAX_STEPS) {
        return Err(TextFault::TooMany);
    }
    if !left.is_empty() {
        return Err(TextFault::BadLine(end + 1));
    }
    Ok(Certificate {
        model,
        processors,
        lines,
        counts,
    })
}

// The accesses whose lines stand at the front, and the text behind them.
fn read_lines(alloc: Global, text: &[u8]) -> Result<(Vec<Access>, &[u8]), TextFault>
    ensures lines { IfOk result (λ x. HasLines text.now x.0.items x.1.now) }
    ensures all { IfOk result (λ x. access_at x.1.now ≡ None) }
    ensures fault { IfErr result (λ f. (f ≡ TextFault.Memory) ⊎ ((f ≡ TextFault.TooMany) × IsOverfull text.now)) }
{
    let Ok(mut lines) = Vec::with_capacity(alloc, room_for(text)) else {
        return Err(TextFault::Memory);
    };
    let mut rest = text;
    while let Some((access, behind)) = access_at(rest) {
        keep(&mut lines, access)?;
        rest = behind;
    }
    Ok((lines, rest))
}

// The shortest line of an access is `0 0 L 1 0000000000200000 00 -` and a line feed.
const SHORTEST_LINE: usize = 30;

// At least as many as there are accesses, as far as there may be so many.
fn room_for(text: &[u8]) -> usize
    ensures { result ≡ min (length text.now / 30) max_steps }
{
    (text.len() / SHORTEST_LINE).min(MAX_STEPS as usize)
}

// Puts one more access behind the others.
fn keep(lines: &mut Vec<Access>, access: Access) -> Result<(), TextFault>
    ensures kept { OnOk result (lines.new.items ≡ lines.old.items ++ access ∷ []) }
    ensures room { OnOk result (length lines.old.items < max_steps) }
    ensures fault { IfErr result (λ f. (f ≡ TextFault.Memory) ⊎ ((f ≡ TextFault.TooMany) × (max_steps ≤ length lines.old.items))) }
{
    if lines.len() >= MAX_STEPS as usize {
        return Err(TextFault::TooMany);
    }
    lines.push(access).map_err(|_| TextFault::Memory)
}

fn steps(counts: &Vec<u32>) -> u64
    requires { length counts.now.items ≤ max_processors }
    ensures { result ≡ sum counts.now.items }
{
    counts.iter().map(|count| u64::from(*count)).sum()
}

// The fault of a text that begins with no good line, its first line being this one.
fn fault_at(text: &[u8], line: u32) -> TextFault
    ensures { result ≡ fault_at line text.now }
{
    if text.contains(&b'\n') {
        TextFault::BadLine(line)
    } else {
        TextFault::Truncated
    }
}

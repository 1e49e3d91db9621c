// The lines of an order's text, read from the front of a text: each gives what it tells and the text behind it.
ghost use Rattle.std.specs.Prelude.{◌≡◌, ◌≤◌, ◌++◌, ◌∷◌, [], length, option_map, IfOk, IfSome};
ghost use Rattle.rsim_base.specs.Limits.{max_processors, max_steps};
ghost use Rattle.order_certificate.specs.Fields.{model_in, model_at, processors_at, access_at, count_at, counts_from, ending_at};

use crate::fields::{
    after, after_byte, decimal_at, decimal_then, hex_then, kind_then, size_then, value_then,
};
use rsim_base::{Access, Addr, MAX_PROCESSORS, MAX_STEPS, Model, NoMemory, Node};
use std::alloc::Global;

/// The line of the model.
#[tactic(auto, unfolding(crate::specs::Fields::model_at))]
pub fn model_at(text: &[u8]) -> Option<(Model, &[u8])>
    ensures { option_map (λ x. (x.0, x.1.now)) result ≡ model_at text.now }
{
    model_in(after(text, b"model ")?)
}

fn model_in(text: &[u8]) -> Option<(Model, &[u8])>
    ensures { option_map (λ x. (x.0, x.1.now)) result ≡ model_in text.now }
{
    if let Some(rest) = after(text, b"sc\n") {
        return Some((Model::Sc, rest));
    }
    if let Some(rest) = after(text, b"pc\n") {
        return Some((Model::Pc, rest));
    }
    Some((Model::Rc, after(text, b"rc\n")?))
}

/// The line of the number of processors.
#[tactic(auto, unfolding(crate::specs::Fields::processors_at))]
pub fn processors_at(text: &[u8]) -> Option<(u8, &[u8])>
    ensures value { option_map (λ x. (x.0, x.1.now)) result ≡ processors_at text.now }
    ensures few { IfSome result (λ x. x.0 ≤ max_processors) }
{
    let (processors, rest) = decimal_then(
        after(text, b"processors ")?,
        u32::from(MAX_PROCESSORS) + 1,
        b'\n',
    )?;
    if processors == 0 {
        None
    } else {
        Some((processors as u8, rest))
    }
}

/// The line of an access.
#[tactic(auto, unfolding(crate::specs::Fields::access_at))]
pub fn access_at(text: &[u8]) -> Option<(Access, &[u8])>
    ensures { option_map (λ x. (x.0, x.1.now)) result ≡ access_at text.now }
{
    let (node, rest) = decimal_then(text, 256, b' ')?;
    let (index, rest) = decimal_then(rest, MAX_STEPS, b' ')?;
    let (kind, rest) = kind_then(rest, b' ')?;
    let (size, rest) = size_then(rest, b' ')?;
    let (addr, rest) = hex_then(rest, 16, b' ')?;
    let (loaded, rest) = value_then(rest, kind.loads(), size, b' ')?;
    let (stored, rest) = value_then(rest, kind.stores(), size, b'\n')?;
    let access = Access {
        node: Node(node as u8),
        kind,
        size,
        index,
        addr: Addr(addr),
        loaded,
        stored,
    };
    Some((access, rest))
}

/// The end line, with the counts of so many processors.
///
/// # Errors
/// Where memory is short.
#[tactic(auto, unfolding(crate::specs::Fields::ending_at))]
pub fn ending_at(
    alloc: Global,
    text: &[u8],
    processors: u32,
) -> Result<Option<(Vec<u32>, &[u8])>, NoMemory>
    ensures { IfOk result (λ o. option_map (λ x. (x.0.items, x.1.now)) o ≡ ending_at processors text.now) }
{
    let Some(rest) = after(text, b"end") else {
        return Ok(None);
    };
    counts_at(alloc, rest, processors)
}

// So many counts, and the end of their line.
fn counts_at(
    alloc: Global,
    text: &[u8],
    processors: u32,
) -> Result<Option<(Vec<u32>, &[u8])>, NoMemory>
    ensures { IfOk result (λ o. option_map (λ x. (x.0.items, x.1.now)) o ≡ counts_from processors [] text.now) }
{
    let mut counts = Vec::new(alloc);
    let mut rest = text;
    for _ in 0..processors {
        let Some((count, behind)) = count_at(rest) else {
            return Ok(None);
        };
        counts.push(count).map_err(|_| NoMemory)?;
        rest = behind;
    }
    let Some(rest) = after_byte(rest, b'\n') else {
        return Ok(None);
    };
    Ok(Some((counts, rest)))
}

// A blank and a count.
#[tactic(auto, unfolding(crate::specs::Fields::count_at))]
fn count_at(text: &[u8]) -> Option<(u32, &[u8])>
    ensures { option_map (λ x. (x.0, x.1.now)) result ≡ count_at text.now }
{
    decimal_at(after(text, b" ")?, MAX_STEPS + 1)
}

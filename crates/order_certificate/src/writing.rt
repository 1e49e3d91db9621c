// An order's text, part by part.
ghost use Rattle.std.specs.Prelude.{◌≡◌, ◌++◌, ◌∷◌, [], OnOk, OnErr, codes, decimal, take};
ghost use Rattle.std.specs.List.{concat, flat_map};
ghost use Rattle.rsim_base.specs.Accesses.{loads, stores};
ghost use Rattle.rsim_base.specs.Texts.{Extends};
ghost use Rattle.order_certificate.specs.OrderText.{model_name, kind_letter, value_text, value_or_dash, line, heading, ending};

use itoa::Buffer;
use rsim_base::texts::{push, push_byte, push_decimal};
use rsim_base::{Access, Kind, Model, NoMemory, Size};

/// Puts what stands before the accesses behind these bytes: the format's name, the model and the number of processors.
///
/// # Errors
/// Where memory is short. The bytes are then as before.
pub fn begin(into: &mut Vec<u8>, m: Model, processors: u8) -> Result<(), NoMemory>
    ensures put { OnOk result (into.new.items ≡ into.old.items ++ heading m processors) }
    ensures refused { OnErr result (into.new.items ≡ into.old.items) }
{
    let before = into.len();
    let put = push_heading(into, m, processors);
    whole_or_none(into, before, put)
}

/// Puts the line of an access behind these bytes.
///
/// # Errors
/// Where memory is short. The bytes are then as before.
pub fn entry(into: &mut Vec<u8>, a: &Access) -> Result<(), NoMemory>
    ensures put { OnOk result (into.new.items ≡ into.old.items ++ line a.now) }
    ensures refused { OnErr result (into.new.items ≡ into.old.items) }
{
    let before = into.len();
    let put = push_line(into, a);
    whole_or_none(into, before, put)
}

/// Puts what stands behind the accesses: by processor, how many steps it retired.
///
/// # Errors
/// Where memory is short. The bytes are then as before.
pub fn finish(into: &mut Vec<u8>, counts: &Vec<u32>) -> Result<(), NoMemory>
    ensures put { OnOk result (into.new.items ≡ into.old.items ++ ending counts.now.items) }
    ensures refused { OnErr result (into.new.items ≡ into.old.items) }
{
    let before = into.len();
    let put = push_ending(into, counts);
    whole_or_none(into, before, put)
}

// What was put behind the first bytes, or, where that was not put whole, these bytes alone.
fn whole_or_none(
    text: &mut Vec<u8>,
    before: usize,
    put: Result<(), NoMemory>,
) -> Result<(), NoMemory>
    ensures same { result ≡ put }
    ensures whole { OnOk put (text.new.items ≡ text.old.items) }
    ensures none { OnErr put (text.new.items ≡ take before text.old.items) }
{
    if put.is_err() {
        text.truncate(before);
    }
    put
}

// What stands before the accesses.
fn push_heading(text: &mut Vec<u8>, model: Model, processors: u8) -> Result<(), NoMemory>
    ensures put { OnOk result (text.new.items ≡ text.old.items ++ heading model processors) }
    ensures kept { Extends text.old.items text.new.items }
{
    push(text, b"rsim order 1\nmodel ")?;
    push(text, name(model))?;
    push(text, b"\nprocessors ")?;
    push_decimal(text, processors as u64, b'\n')
}

// The line of an access.
fn push_line(text: &mut Vec<u8>, access: &Access) -> Result<(), NoMemory>
    ensures put { OnOk result (text.new.items ≡ text.old.items ++ line access.now) }
    ensures kept { Extends text.old.items text.new.items }
{
    push_decimal(text, access.node.0 as u64, b' ')?;
    push_decimal(text, access.index as u64, b' ')?;
    push(text, letter(access.kind))?;
    push_byte(text, b' ')?;
    push_decimal(text, access.size.count(), b' ')?;
    push_hex(text, Size::B8, access.addr.0)?;
    push_byte(text, b' ')?;
    push_values(text, access)
}

// What stands behind the accesses.
fn push_ending(text: &mut Vec<u8>, counts: &Vec<u32>) -> Result<(), NoMemory>
    ensures put { OnOk result (text.new.items ≡ text.old.items ++ ending counts.now.items) }
    ensures kept { Extends text.old.items text.new.items }
{
    push(text, b"end")?;
    for count in counts {
        push_count(text, *count)?;
    }
    push_byte(text, b'\n')
}

// A blank, and a number in decimal.
fn push_count(text: &mut Vec<u8>, count: u32) -> Result<(), NoMemory>
    ensures put { OnOk result (text.new.items ≡ text.old.items ++ (codes " " ++ decimal count)) }
    ensures kept { Extends text.old.items text.new.items }
{
    push_byte(text, b' ')?;
    push(text, Buffer::new().format(count).as_bytes())
}

// The loaded and the stored value, with which a line ends.
fn push_values(text: &mut Vec<u8>, access: &Access) -> Result<(), NoMemory>
    ensures put { OnOk result (text.new.items ≡ text.old.items ++ concat (value_or_dash (loads access.now.kind) access.now.size access.now.loaded
        ∷ codes " " ∷ value_or_dash (stores access.now.kind) access.now.size access.now.stored ∷ codes "\n" ∷ [])) }
    ensures kept { Extends text.old.items text.new.items }
{
    push_value(text, access.kind.loads(), access.size, access.loaded)?;
    push_byte(text, b' ')?;
    push_value(text, access.kind.stores(), access.size, access.stored)?;
    push_byte(text, b'\n')
}

// A value, or a dash where there is none.
fn push_value(text: &mut Vec<u8>, has: bool, size: Size, value: u64) -> Result<(), NoMemory>
    ensures put { OnOk result (text.new.items ≡ text.old.items ++ value_or_dash has size value) }
    ensures kept { Extends text.old.items text.new.items }
{
    if has {
        push_hex(text, size, value)
    } else {
        push_byte(text, b'-')
    }
}

// The low bytes of a value in hexadecimal, two digits for each.
fn push_hex(text: &mut Vec<u8>, size: Size, value: u64) -> Result<(), NoMemory>
    ensures put { OnOk result (text.new.items ≡ text.old.items ++ value_text size value) }
    ensures kept { Extends text.old.items text.new.items }
{
    let mut digits = [0; 16];
    let Ok(()) = hex::encode_to_slice(value.to_be_bytes(), &mut digits) else {
        unreachable!()
    };
    let unwanted = 16 - 2 * size.count() as usize;
    push(text, &digits[unwanted..])
}

fn name(model: Model) -> &'static [u8]
    ensures { result.now ≡ model_name model }
{
    match model {
        Model::Sc => b"sc",
        Model::Pc => b"pc",
        Model::Rc => b"rc",
    }
}

fn letter(kind: Kind) -> &'static [u8]
    ensures { result.now ≡ kind_letter kind }
{
    match kind {
        Kind::Load => b"L",
        Kind::Store => b"S",
        Kind::Atomic => b"A",
    }
}

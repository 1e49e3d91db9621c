// The parts of a line, read from the front of a text: each gives its value and the text behind it.
ghost use Rattle.std.specs.Prelude.{◌≡◌, ◌*◌, ◌<◌, ◌≤◌, ◌∷◌, [], length, option_map, IfSome};
ghost use Rattle.rsim_base.specs.Bytes.{count_of};
ghost use Rattle.order_certificate.specs.Fields.{after, digit_at, with_digit, with_digits, digits_at, decimal_at, decimal_then, hex_digit, hex_from, hex_then, value_then, letter_then, kind_of, size_of};

use rsim_base::{Kind, Size};

/// The text behind a word that it begins with.
#[tactic(auto, unfolding(crate::specs::Fields::after))]
pub fn after<'a>(text: &'a [u8], word: &[u8]) -> Option<&'a [u8]>
    ensures { option_map (λ rest. rest.now) result ≡ after word.now text.now }
{
    text.strip_prefix(word)
}

/// The text behind a byte that it begins with.
#[tactic(auto, unfolding(crate::specs::Fields::after))]
pub fn after_byte(text: &[u8], byte: u8) -> Option<&[u8]>
    ensures { option_map (λ rest. rest.now) result ≡ after (byte ∷ []) text.now }
{
    let (first, rest) = text.split_first()?;
    if *first == byte { Some(rest) } else { None }
}

/// A decimal number below a limit, without leading zeros.
#[tactic(auto, unfolding(crate::specs::Fields::decimal_at))]
pub fn decimal_at(text: &[u8], limit: u32) -> Option<(u32, &[u8])>
    requires { limit ≤ 100000000 }
    ensures value { option_map (λ x. (x.0, x.1.now)) result ≡ decimal_at limit text.now }
    ensures below { IfSome result (λ x. x.0 < limit) }
{
    let (number, rest) = digits_at(text, limit)?;
    if number < limit {
        Some((number, rest))
    } else {
        None
    }
}

/// Such a number, and the byte that stands behind it.
#[tactic(auto, unfolding(crate::specs::Fields::decimal_then))]
pub fn decimal_then(text: &[u8], limit: u32, behind: u8) -> Option<(u32, &[u8])>
    requires { limit ≤ 100000000 }
    ensures value { option_map (λ x. (x.0, x.1.now)) result ≡ decimal_then limit behind text.now }
    ensures below { IfSome result (λ x. x.0 < limit) }
{
    let (number, rest) = decimal_at(text, limit)?;
    Some((number, after_byte(rest, behind)?))
}

// The digit 0 alone, or digits that begin with another one: all of them, as long as their number is below the limit.
#[tactic(auto, unfolding(crate::specs::Fields::digits_at))]
fn digits_at(text: &[u8], limit: u32) -> Option<(u32, &[u8])>
    requires { limit ≤ 100000000 }
    ensures { option_map (λ x. (x.0, x.1.now)) result ≡ digits_at limit text.now }
{
    let (first, rest) = digit_at(text)?;
    if first == 0 {
        Some((first, rest))
    } else {
        Some(with_digits(first, rest, limit))
    }
}

// A number with the digits that follow it, as long as it is below the limit.
fn with_digits(first: u32, text: &[u8], limit: u32) -> (u32, &[u8])
    requires { limit ≤ 100000000 }
    ensures number { result.0 ≡ (with_digits limit first text.now).0 }
    ensures rest { result.1.now ≡ (with_digits limit first text.now).1 }
{
    let mut number = first;
    let mut rest = text;
    while let Some((longer, behind)) = with_digit(number, rest, limit) {
        number = longer;
        rest = behind;
    }
    (number, rest)
}

// A number that is below the limit, with the next digit.
#[tactic(auto, unfolding(crate::specs::Fields::with_digit))]
fn with_digit(number: u32, text: &[u8], limit: u32) -> Option<(u32, &[u8])>
    requires { limit ≤ 100000000 }
    ensures { option_map (λ x. (x.0, x.1.now)) result ≡ with_digit limit number text.now }
{
    if number >= limit {
        return None;
    }
    let (digit, rest) = digit_at(text)?;
    Some((10 * number + digit, rest))
}

#[tactic(auto, unfolding(crate::specs::Fields::digit_at))]
fn digit_at(text: &[u8]) -> Option<(u32, &[u8])>
    ensures value { option_map (λ x. (x.0, x.1.now)) result ≡ digit_at text.now }
    ensures small { IfSome result (λ x. x.0 ≤ 9) }
{
    let (first, rest) = text.split_first()?;
    match *first {
        b'0'..=b'9' => Some((u32::from(*first - b'0'), rest)),
        _ => None,
    }
}

/// A hexadecimal number of so many lower-case digits, and the byte that stands behind it.
#[tactic(auto, unfolding(crate::specs::Fields::hex_then))]
pub fn hex_then(text: &[u8], width: usize, behind: u8) -> Option<(u64, &[u8])>
    requires { width ≤ 16 }
    ensures { option_map (λ x. (x.0, x.1.now)) result ≡ hex_then width behind text.now }
{
    if text.len() < width {
        return None;
    }
    let number = hex(&text[..width])?;
    Some((number, after_byte(&text[width..], behind)?))
}

// The number of hexadecimal digits.
fn hex(digits: &[u8]) -> Option<u64>
    requires { length digits.now ≤ 16 }
    ensures { result ≡ hex_from 0 digits.now }
{
    let mut number = 0;
    for digit in digits {
        number = 16 * number + hex_digit(*digit)?;
    }
    Some(number)
}

// One computation serves digits and letters, so that the only branch is on whether it is one of them: which of the
// two it is cannot be foretold.
fn hex_digit(digit: u8) -> Option<u64>
    ensures value { result ≡ hex_digit digit }
    ensures small { IfSome result (λ d. d ≤ 15) }
{
    match digit {
        b'0'..=b'9' | b'a'..=b'f' => Some(u64::from(digit % 16 + digit / 64 * 9)),
        _ => None,
    }
}

/// A value of this size in hexadecimal, or the dash of one that is not there, which is 0; and the byte that stands
/// behind it.
#[tactic(auto, unfolding(crate::specs::Fields::value_then))]
pub fn value_then(text: &[u8], has: bool, size: Size, behind: u8) -> Option<(u64, &[u8])>
    ensures { option_map (λ x. (x.0, x.1.now)) result ≡ value_then has size behind text.now }
{
    if has {
        return hex_then(text, 2 * size.count() as usize, behind);
    }
    Some((0, after(text, &[b'-', behind])?))
}

/// The letter of a kind, and the byte that stands behind it.
#[tactic(auto, unfolding(crate::specs::Fields::letter_then))]
pub fn kind_then(text: &[u8], behind: u8) -> Option<(Kind, &[u8])>
    ensures { option_map (λ x. (x.0, x.1.now)) result ≡ letter_then kind_of behind text.now }
{
    let (first, rest) = text.split_first()?;
    let kind = kind_of(*first)?;
    Some((kind, after_byte(rest, behind)?))
}

fn kind_of(letter: u8) -> Option<Kind>
    ensures { result ≡ kind_of letter }
{
    match letter {
        b'L' => Some(Kind::Load),
        b'S' => Some(Kind::Store),
        b'A' => Some(Kind::Atomic),
        _ => None,
    }
}

/// The digit of a size in bytes, and the byte that stands behind it.
#[tactic(auto, unfolding(crate::specs::Fields::letter_then))]
pub fn size_then(text: &[u8], behind: u8) -> Option<(Size, &[u8])>
    ensures { option_map (λ x. (x.0, x.1.now)) result ≡ letter_then size_of behind text.now }
{
    let (first, rest) = text.split_first()?;
    let size = size_of(*first)?;
    Some((size, after_byte(rest, behind)?))
}

fn size_of(digit: u8) -> Option<Size>
    ensures { result ≡ size_of digit }
{
    match digit {
        b'1' => Some(Size::B1),
        b'2' => Some(Size::B2),
        b'4' => Some(Size::B4),
        b'8' => Some(Size::B8),
        _ => None,
    }
}

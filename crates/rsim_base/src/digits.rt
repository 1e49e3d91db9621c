//! Numbers that are written in decimal digits.
ghost use Rattle.std.specs.Prelude.{◌≡◌, ◌≤◌, IsTrue, length};
ghost use Rattle.std.specs.Str.{all_ascii_digits};
ghost use Rattle.std.specs.Str.Parse.{digits_value};
ghost use Rattle.rsim_base.specs.Decimals.{number_of};

// The most digits that a number has.
const MAX_DIGITS: usize = 10;

/// The number that one to ten decimal digits write. `None` where the text is not just these.
pub fn decimal(text: &[u8]) -> Option<u64>
    ensures { result ≡ number_of text.now }
{
    if text.is_empty() || text.len() > MAX_DIGITS || !are_digits(text) {
        return None;
    }
    Some(digits_value(text))
}

fn are_digits(text: &[u8]) -> bool
    ensures { result ≡ all_ascii_digits text.now }
{
    text.iter().all(|byte| byte.is_ascii_digit())
}

fn digits_value(digits: &[u8]) -> u64
    requires short { length digits.now ≤ 10 }
    requires digits { IsTrue (all_ascii_digits digits.now) }
    ensures { result ≡ digits_value 10 digits.now }
{
    let mut number = 0;
    for digit in digits {
        number = 10 * number + u64::from(*digit - b'0');
    }
    number
}

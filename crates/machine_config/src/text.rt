// The lines of a configuration and the words on them.
ghost use Rattle.std.specs.Prelude.{◌≡◌, ◌==◌, ◌≤◌, not, length, position, reverse};
ghost use Rattle.std.specs.List.{position_or_len};
ghost use Rattle.machine_config.specs.Text.{is_text, is_blank, blanks, trimmed_end, trimmed, key_of, value_of};

/// The place of the first byte that is no text.
pub fn place_of_no_text(bytes: &[u8]) -> Option<usize>
    ensures { result ≡ position (λ b. not (is_text b)) bytes.now }
{
    bytes.iter().position(|byte| !is_text(*byte))
}

// Whether the byte is text.
fn is_text(byte: u8) -> bool
    ensures { result ≡ is_text byte }
{
    matches!(byte, b'\n' | b'\r' | b'\t' | 0x20..=0x7E)
}

// Whether the byte parts words.
fn is_blank(byte: u8) -> bool
    ensures { result ≡ is_blank byte }
{
    matches!(byte, b' ' | b'\t' | b'\r')
}

/// The key and the value of a line, both empty where it has no words.
pub fn split_key(line: &[u8]) -> (&[u8], &[u8])
    ensures key { result.0.now ≡ key_of line.now }
    ensures value { result.1.now ≡ value_of line.now }
{
    let said = trimmed(&line[..place_of_byte(line, b'#')]);
    let (key, value) = said.split_at(place_of_blank(said));
    (key, trimmed(value))
}

// Without the blanks at both ends.
fn trimmed(bytes: &[u8]) -> &[u8]
    ensures { result.now ≡ trimmed bytes.now }
{
    trimmed_end(&bytes[blanks_in_front(bytes)..])
}

fn trimmed_end(bytes: &[u8]) -> &[u8]
    ensures { result.now ≡ trimmed_end bytes.now }
{
    &bytes[..bytes.len() - blanks_at_end(bytes)]
}

// The place of the first such byte, or the length.
fn place_of_byte(bytes: &[u8], wanted: u8) -> usize
    ensures place { result ≡ position_or_len (λ b. b == wanted) bytes.now }
    ensures bound { result ≤ length bytes.now }
{
    let place = bytes.iter().position(|byte| *byte == wanted);
    place.unwrap_or(bytes.len())
}

// The place of the first blank, or the length.
fn place_of_blank(bytes: &[u8]) -> usize
    ensures place { result ≡ position_or_len is_blank bytes.now }
    ensures bound { result ≤ length bytes.now }
{
    let place = bytes.iter().position(|byte| is_blank(*byte));
    place.unwrap_or(bytes.len())
}

fn blanks_in_front(bytes: &[u8]) -> usize
    ensures place { result ≡ blanks bytes.now }
    ensures bound { result ≤ length bytes.now }
{
    let place = bytes.iter().position(|byte| !is_blank(*byte));
    place.unwrap_or(bytes.len())
}

fn blanks_at_end(bytes: &[u8]) -> usize
    ensures place { result ≡ blanks (reverse bytes.now) }
    ensures bound { result ≤ length bytes.now }
{
    let place = bytes.iter().rev().position(|byte| !is_blank(*byte));
    place.unwrap_or(bytes.len())
}

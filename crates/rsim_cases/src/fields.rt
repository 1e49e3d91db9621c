// The fields of a line.

/// What stands before the first space, and behind it.
pub fn halves(text: &str) -> (&str, &str) {
    text.split_once(' ').unwrap_or((text, ""))
}

/// The first field of a line, and the fields behind it.
pub fn field(line: &str) -> (&str, &str) {
    match line.split_once('|') {
        Some((field, rest)) => (field.trim(), rest),
        None => (line.trim(), ""),
    }
}

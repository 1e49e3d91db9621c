// Which of a processor's accesses a change is of.
ghost use Rattle.std.specs.Prelude.{◌≡◌};
ghost use Rattle.order_log.specs.Spans.{includes};

/// Accesses of one processor, by their numbers.
#[derive(Clone, Copy, Debug, PartialEq, Eq)]
pub(crate) enum Span {
    /// The access of this number.
    Only(u32),
    /// Those from this number on.
    From(u32),
}

impl Span {
    /// Whether the access of this number is one of them.
    pub(crate) fn includes(self, index: u32) -> bool
        ensures { result ≡ includes self index }
    {
        match self {
            Span::Only(only) => index == only,
            Span::From(first) => first <= index,
        }
    }
}

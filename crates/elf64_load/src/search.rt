// Which segment has an address, found in the spans from the lowest address up.
ghost use Rattle.std.specs.Prelude.{◌≡◌, ℕ, ◌<◌, ◌≤◌, count_by};
ghost use Rattle.std.specs.List.{All, find};
ghost use Rattle.std.specs.List.Sorted.{IsNonDecreasingBy};
ghost use Rattle.std.specs.Option.{option_copied};
ghost use Rattle.elf64_load.specs.Layout.{AreApart, has, spans, spans_of_segments};

use crate::segment::Segment;
use crate::span::Span;

/// The segment that the `count` bytes from `addr` on all lie in.
pub fn holder<'a>(
    segments: &'a [Segment],
    order: &[Span],
    addr: u64,
    count: u64,
) -> Option<&'a Segment>
    requires apart { AreApart (spans_of_segments segments.now) order.now }
    requires some { 0 < count }
    ensures { option_copied result ≡ find (has addr count) segments.now }
{
    let place = span_at(order, addr)?.place as usize;
    let segment = &segments[place];
    segment.has(addr, count).then_some(segment)
}

/// The span with the byte at `addr`.
pub fn span_at<'a>(order: &'a [Span], addr: u64) -> Option<&'a Span>
    requires rising { IsNonDecreasingBy (λ (s : Span). s.first) order.now }
    requires once { (a : ℕ) → count_by (spans a) order.now ≤ 1 }
    requires some { All (λ (s : Span). 0 < s.len) order.now }
    ensures { option_copied result ≡ find (spans addr) order.now }
{
    let after = order.partition_point(|span| span.first <= addr);
    let span = order[..after].last()?;
    span.has(addr).then_some(span)
}

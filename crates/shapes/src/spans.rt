//! Whether a span is empty, and whether it is inside the columns.
ghost use Rattle.std.specs.Prelude.{◌≡◌};
ghost use Rattle.shapes.specs.Spans.{is_empty, is_span_sound};

use crate::Span;
use whole::inner::within;

/// Whether a span has no column: its end is not above its start.
#[tactic(auto, unfolding(crate::specs::Spans::is_empty))]
pub fn is_empty(span: Span) -> bool
    ensures { result ≡ is_empty span }
{
    span.end <= span.start
}

/// Whether all columns of a span are from `-limit` to `limit`; so it is where there is none.
#[tactic(auto, unfolding(crate::specs::Spans::is_span_sound))]
pub fn is_sound(span: Span, limit: u32) -> bool
    ensures { result ≡ is_span_sound limit span }
{
    is_empty(span) || within(span.start, limit) && within(span.end - 1, limit)
}

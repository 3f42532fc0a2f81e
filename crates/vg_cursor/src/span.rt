//! What an image and a screen have in common along one axis.

ghost use Rattle.std.specs.Prelude.{◌≡◌, ◌<◌};
ghost use Rattle.vg_cursor.specs.SpanWithin.{IsSpan, sides};

/// How many places of a screen an image covers, which of them is the first, and the image's place over that one.
#[derive(Clone, Copy, Debug)]
pub(crate) struct Span {
    pub(crate) first: u32,
    pub(crate) from: u32,
    pub(crate) count: u32,
}

/// The span of an image of 64 places whose hot spot stands at this position of an axis with `size` places.
pub(crate) fn span_of(position: i32, hot: u32, size: u32) -> Span
    requires { hot < 64 }
    ensures { IsSpan position hot size result }
{
    let (right, left) = sides(position);
    let left = left + hot;
    let first = right.saturating_sub(left).min(size);
    let from = left.saturating_sub(right).min(64);
    Span {
        first,
        from,
        count: (64 - from).min(size - first),
    }
}

/// How far a position lies to the right of 0, and how far to the left.
fn sides(position: i32) -> (u32, u32)
    ensures { result ≡ sides position }
{
    if position < 0 {
        (0, position.unsigned_abs())
    } else {
        (position as u32, 0)
    }
}

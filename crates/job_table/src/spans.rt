//! Between which numbers the items of a job stand.
ghost use Rattle.std.specs.Prelude.{◌≡◌, ◌+◌, ◌<◌, ◌^◌};
ghost use Rattle.job_table.specs.Spans.{no_span as empty_span, grown_span};

/// Where the items of a job stand: the least of their numbers, a number past all of them, and one past those of its
/// unhandled ones.
#[derive(Clone, Copy)]
pub struct Span {
    pub first: u32,
    pub end: u32,
    pub left: u32,
}

/// The span of a job without items.
pub fn no_span() -> Span
    ensures { result ≡ empty_span }
{
    Span {
        first: 0,
        end: 0,
        left: 0,
    }
}

/// The span with this number, which is past all others.
pub fn grown(span: &Span, n: u32) -> Span
    requires { n + 1 < 2 ^ 32 }
    ensures { result ≡ grown_span n span.now }
{
    Span {
        first: if span.end == 0 { n } else { span.first },
        end: n + 1,
        left: n + 1,
    }
}

//! Slices by their start, end and step, each of which may be left out (RFC 9535, 2.3.4).
ghost use Rattle.std.specs.Prelude.{◌≡◌, Some, None};

use jsonpath_parser::model::SliceParts;

/// The parts of `:`.
pub fn slice_all() -> SliceParts
    ensures { result ≡ (None, None, None) }
{
    (None, None, None)
}

/// The parts of `start:`.
pub fn slice_start(start: i64) -> SliceParts
    ensures { result ≡ (Some start, None, None) }
{
    (Some(start), None, None)
}

/// The parts of `start:end`.
pub fn slice_start_end(start: i64, end: i64) -> SliceParts
    ensures { result ≡ (Some start, Some end, None) }
{
    (Some(start), Some(end), None)
}

/// The parts of `start::step`.
pub fn slice_start_step(start: i64, step: i64) -> SliceParts
    ensures { result ≡ (Some start, None, Some step) }
{
    (Some(start), None, Some(step))
}

/// The parts of `::step`.
pub fn slice_step(step: i64) -> SliceParts
    ensures { result ≡ (None, None, Some step) }
{
    (None, None, Some(step))
}

/// The parts of `:end`.
pub fn slice_end(end: i64) -> SliceParts
    ensures { result ≡ (None, Some end, None) }
{
    (None, Some(end), None)
}

/// The parts of `:end:step`.
pub fn slice_end_step(end: i64, step: i64) -> SliceParts
    ensures { result ≡ (None, Some end, Some step) }
{
    (None, Some(end), Some(step))
}

/// The parts of `start:end:step`.
pub fn slice_full(start: i64, end: i64, step: i64) -> SliceParts
    ensures { result ≡ (Some start, Some end, Some step) }
{
    (Some(start), Some(end), Some(step))
}

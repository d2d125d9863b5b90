//! The events of the walk, one by one. A serializer's error is set aside in `error`, so that no level of the walk needs room for one.

ghost use Rattle.std.specs.Prelude.{OnOk, Some, None};
ghost use Rattle.serde.specs.Event.{Logs, boolean, field_key, map_begins, map_ends, nothing, seq_begins, seq_ends, text as text_event, unsigned};
ghost use Rattle.serde.specs.declared.name.Case.TheVariants.{AsIs};

use serde::Serializer;
use std::alloc::AllocError;

/// Something was refused, and `error` says what: the error of the serializer, or the one that stood there from the start, of memory for a
/// value.
pub struct SerializeRefused;

impl From<AllocError> for SerializeRefused {
    /// Refused memory, as a refusal whose error stands there from the start.
    fn from(_refused: AllocError) -> SerializeRefused {
        SerializeRefused
    }
}

/// Keeps the serializer's error where the caller looks for it, and answers the refusal.
#[cold]
#[inline(never)]
fn keep_error<E: Drop>(found: E, error: &mut E) -> SerializeRefused {
    *error = found;
    SerializeRefused
}

/// Begins an object.
#[inline(never)]
pub(crate) fn begin_object<S: Serializer>(
    out: &mut S,
    error: &mut S::Error,
) -> Result<(), SerializeRefused>
    ensures { OnOk result (Logs (S.written out.old) (S.written out.new) (map_begins None)) }
{
    match out.begin_map(None) {
        Ok(()) => Ok(()),
        Err(found) => Err(keep_error(found, error)),
    }
}

/// Ends an object.
#[inline(never)]
pub(crate) fn end_object<S: Serializer>(
    out: &mut S,
    error: &mut S::Error,
) -> Result<(), SerializeRefused>
    ensures { OnOk result (Logs (S.written out.old) (S.written out.new) map_ends) }
{
    match out.end_map() {
        Ok(()) => Ok(()),
        Err(found) => Err(keep_error(found, error)),
    }
}

/// A key of an object.
#[inline(always)]
pub(crate) fn serialize_key<S: Serializer>(
    out: &mut S,
    error: &mut S::Error,
    name: &str,
) -> Result<(), SerializeRefused>
    ensures { OnOk result (Logs (S.written out.old) (S.written out.new) (field_key name.now AsIs)) }
{
    match out.key(name) {
        Ok(()) => Ok(()),
        Err(found) => Err(keep_error(found, error)),
    }
}

/// Begins an array of `count` items.
#[inline(never)]
pub(crate) fn begin_array<S: Serializer>(
    out: &mut S,
    error: &mut S::Error,
    count: usize,
) -> Result<(), SerializeRefused>
    ensures { OnOk result (Logs (S.written out.old) (S.written out.new) (seq_begins (Some count))) }
{
    match out.begin_seq(Some(count)) {
        Ok(()) => Ok(()),
        Err(found) => Err(keep_error(found, error)),
    }
}

/// Ends an array.
#[inline(never)]
pub(crate) fn end_array<S: Serializer>(
    out: &mut S,
    error: &mut S::Error,
) -> Result<(), SerializeRefused>
    ensures { OnOk result (Logs (S.written out.old) (S.written out.new) seq_ends) }
{
    match out.end_seq() {
        Ok(()) => Ok(()),
        Err(found) => Err(keep_error(found, error)),
    }
}

/// Null.
#[inline(never)]
pub(crate) fn serialize_null<S: Serializer>(
    out: &mut S,
    error: &mut S::Error,
) -> Result<(), SerializeRefused>
    ensures { OnOk result (Logs (S.written out.old) (S.written out.new) nothing) }
{
    match out.unit() {
        Ok(()) => Ok(()),
        Err(found) => Err(keep_error(found, error)),
    }
}

/// A boolean.
#[inline(always)]
pub(crate) fn serialize_boolean<S: Serializer>(
    out: &mut S,
    error: &mut S::Error,
    value: bool,
) -> Result<(), SerializeRefused>
    ensures { OnOk result (Logs (S.written out.old) (S.written out.new) (boolean value)) }
{
    match out.bool(value) {
        Ok(()) => Ok(()),
        Err(found) => Err(keep_error(found, error)),
    }
}

/// A number.
#[inline(always)]
pub(crate) fn serialize_number<S: Serializer>(
    out: &mut S,
    error: &mut S::Error,
    value: usize,
) -> Result<(), SerializeRefused>
    ensures { OnOk result (Logs (S.written out.old) (S.written out.new) (unsigned value)) }
{
    match out.u64(value as u64) {
        Ok(()) => Ok(()),
        Err(found) => Err(keep_error(found, error)),
    }
}

/// A text.
#[inline(always)]
pub(crate) fn serialize_text<S: Serializer>(
    out: &mut S,
    error: &mut S::Error,
    value: &str,
) -> Result<(), SerializeRefused>
    ensures { OnOk result (Logs (S.written out.old) (S.written out.new) (text_event value.now)) }
{
    match out.str(value) {
        Ok(()) => Ok(()),
        Err(found) => Err(keep_error(found, error)),
    }
}

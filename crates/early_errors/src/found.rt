//! The least early error found so far.

ghost use Rattle.std.specs.Prelude.{◌≡◌, [], ◌∷◌};
ghost use Rattle.early_errors.specs.Early.{each, number};
ghost use Rattle.early_errors.specs.Names.{when};
ghost use Rattle.early_errors.specs.Walk.{after, listed, sooner};

use crate::{EarlyError, number_of};

/// The number and the place of the least early error found so far, by place, then by number.
pub(crate) type FirstError = Option<(u8, usize)>;

/// With one more error at a place.
pub(crate) fn with_error(found: FirstError, error: EarlyError, at: usize) -> FirstError
    ensures { result ≡ after found ((number error, at) ∷ []) }
{
    earlier_error(found, Some((number_of(error), at)))
}

/// With one more error at a place, where it is one.
pub(crate) fn with_error_if(
    is_one: bool,
    found: FirstError,
    error: EarlyError,
    at: usize,
) -> FirstError
    ensures { result ≡ after found (each error (when is_one (at ∷ []))) }
{
    if is_one {
        with_error(found, error, at)
    } else {
        found
    }
}

/// With one more error, where it has a place.
pub(crate) fn with_place(found: FirstError, error: EarlyError, place: Option<usize>) -> FirstError
    ensures { result ≡ after found (each error (listed place)) }
{
    match place {
        Some(at) => with_error(found, error, at),
        None => found,
    }
}

/// The lesser of two.
pub(crate) fn earlier_error(first: FirstError, second: FirstError) -> FirstError
    ensures { result ≡ sooner first second }
{
    let Some((first_number, first_at)) = first else {
        return second;
    };
    let Some((second_number, second_at)) = second else {
        return first;
    };
    if first_at < second_at || (first_at == second_at && first_number <= second_number) {
        first
    } else {
        second
    }
}

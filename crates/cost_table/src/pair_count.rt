//! Numbers of pairs, none where there is no spelling.

ghost use Rattle.std.specs.Prelude.{◌≡◌, true, Some};
ghost use Rattle.language.specs.Cost.{lesser as lesser_cost};
ghost use Rattle.language.specs.Layout.{exceeds as exceeds_cost};
ghost use Rattle.cost_table.specs.Costs.{capped_sum, is_free};

/// The sum of both, at most 4,294,967,295; none where one is none.
#[tactic(auto, unfolding(crate::specs::Costs::capped_sum, crate::specs::Costs::capped, language::specs::Cost::add_cost))]
pub fn sum(first: Option<u32>, second: Option<u32>) -> Option<u32>
    ensures { result ≡ capped_sum first second }
{
    match (first, second) {
        (Some(first), Some(second)) => Some(first.saturating_add(second)),
        _ => None,
    }
}

/// The lesser of both: none is greater than any number.
#[tactic(auto, unfolding(language::specs::Cost::lesser))]
pub(crate) fn lesser(first: Option<u32>, second: Option<u32>) -> Option<u32>
    ensures { result ≡ lesser_cost first second }
{
    match (first, second) {
        (Some(first), Some(second)) => Some(first.min(second)),
        (Some(first), None) => Some(first),
        (None, second) => second,
    }
}

/// Whether the first is greater: none is greater than anything.
pub fn exceeds(first: Option<u32>, second: Option<u32>) -> bool
    ensures { result ≡ exceeds_cost first second }
{
    match (first, second) {
        (Some(first), Some(second)) => first > second,
        (Some(_), None) => false,
        (None, _) => true,
    }
}

/// Whether it is 0.
pub fn is_zero(number: Option<u32>) -> bool
    ensures zero { result ≡ true → number ≡ Some 0 }
    ensures is { result ≡ is_free number }
{
    matches!(number, Some(0))
}

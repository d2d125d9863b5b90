//! Numbers of groups, in order.

ghost use Rattle.std.specs.Prelude.{◌≡◌, ◌≤◌, true, false, leb, length};
ghost use Rattle.std.specs.List.Sorted.{IsNonDecreasing, IsPartitionPoint};
ghost use Rattle.pattern_analysis.specs.ReadReferences.{IsFront};
ghost use Rattle.pattern_analysis.specs.UselessReferences.{is_among, up_to};

/// Whether a number is one of these.
pub(crate) fn is_among(number: usize, numbers: &[usize]) -> bool
    ensures { IsNonDecreasing numbers.now → result ≡ is_among number numbers.now }
{
    numbers.binary_search(&number).is_ok()
}

/// How many of the numbers aren't greater than this one.
fn count_up_to(last: usize, numbers: &[usize]) -> usize
    ensures { IsNonDecreasing numbers.now → IsPartitionPoint (λ n. leb n last ≡ true) (λ n. leb n last ≡ false) numbers.now result }
{
    numbers.partition_point(|number| *number <= last)
}

/// Leaves out those that are greater than this one.
pub(crate) fn keep_up_to(last: usize, numbers: &mut Vec<usize>)
    ensures same { IsNonDecreasing numbers.old.items → numbers.new.items ≡ up_to last numbers.old.items }
    ensures front { IsFront numbers.new.items numbers.old.items }
{
    let count = count_up_to(last, numbers);
    numbers.truncate(count);
}

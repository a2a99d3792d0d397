// The search: the place of the element that comes first.
ghost use Rattle.std.specs.Prelude.{◌≡◌, ◌<◌, Bool, length, MatchOption};
ghost use Rattle.search.specs.First.{First, FirstAmong, FirstOfAll, TellsBefore, up_to};

use super::order::TotalOrder;

// The place of the element that comes first, where a test tells whether one comes strictly before another: the earliest of those that tie, or none in an empty slice.
// The order need only hold among the elements of the slice. Whatever the test answers, none stands for an empty slice alone, and anything else is a place in the slice.
pub fn first_by<T, F: Fn(&T, &T) -> bool>(items: &[T], comes_before: F) -> Option<usize>
    requires { F.IsAlwaysCallable comes_before }
    ensures place { MatchOption result (length items.now ≡ 0) (λ k. k < length items.now) }
    ensures first { (upto : T → T → Bool) → TellsBefore (F.post comes_before) upto → FirstAmong upto items.now result }
{
    if items.is_empty() {
        return None;
    }
    let mut best = 0;
    for (i, item) in items[1..].iter().enumerate() {
        if comes_before(item, &items[best]) {
            best = i + 1;
        }
    }
    Some(best)
}

// The place of the element that comes first by its order, the earliest of those that tie, or none in an empty slice.
// Where an element is not sound, the answer is still a place in the slice.
pub fn first<T: TotalOrder>(items: &[T]) -> Option<usize>
    ensures { First T.TotalOrder.sound T.TotalOrder.upto items.now result }
{
    first_by(items, |a, b| a.comes_before(b))
}

// The place of the element that comes first by the library's order of its kind.
pub fn least<T: Ord>(items: &[T]) -> Option<usize>
    ensures { FirstOfAll (up_to T.cmp) items.now result }
{
    first_by(items, |a, b| a < b)
}

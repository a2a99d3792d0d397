// Numbers in the order of their size: the smallest comes first.
ghost use Rattle.std.specs.Prelude.{nat_le};
ghost use Rattle.search.specs.Sizes.{sizes_total, sizes_transitive};

use super::order::TotalOrder;

// Every number is sound, and the smaller of two comes before the other.
impl TotalOrder for u32 {
    ghost sound = { λ _. Unit {0} };

    ghost upto = { nat_le };

    ghost total = { λ x y s t. sizes_total x y };

    ghost transitive = { λ x y z s t u. sizes_transitive x y z };

    fn comes_before(&self, other: &u32) -> bool {
        *self < *other
    }
}

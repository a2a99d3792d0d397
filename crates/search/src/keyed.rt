// Entries in the order of their keys: entries with one key tie, whatever else they hold.
ghost use Rattle.std.specs.Prelude.{◌==◌, nat_le};
ghost use Rattle.search.specs.Sizes.{sizes_total, sizes_transitive};
ghost use Rattle.std.proofs.Common.{rules};
ghost use Rattle.std.specs.Cmp.Rules.{comparing};
ghost use Rattle.std.specs.Cmp.{partial_order_from_own_ties};
ghost use Rattle.std.specs.Ordering.{as_partial_cmp, nat_cmp, on};

use super::order::TotalOrder;
use std::cmp::Ordering;

// A number under a key.
#[derive(Clone, Copy)]
pub struct Entry {
    pub key: u32,
    pub value: u32,
}

// Written out, since a derive compares the values too, and entries with one key would no longer tie.
impl PartialEq for Entry {
    ghost eq = { on (λ e. e.key) ◌==◌ };

    ghost laws = { Prim.search (comparing, rules) };

    fn eq(&self, other: &Entry) -> bool {
        self.key == other.key
    }
}

impl Eq for Entry {
    ghost laws = { Prim.search (comparing, rules) };
}

impl PartialOrd for Entry {
    ghost partial_cmp = { as_partial_cmp (on (λ e. e.key) nat_cmp) };

    ghost laws = { partial_order_from_own_ties (Prim.search (comparing, rules)) (Prim.search (comparing, rules)) };

    fn partial_cmp(&self, other: &Entry) -> Option<Ordering> {
        Some(self.cmp(other))
    }
}

impl Ord for Entry {
    ghost cmp = { on (λ e. e.key) nat_cmp };

    ghost total = { Prim.search (comparing, rules) };

    ghost matches_partial_cmp = { Prim.search (comparing, rules) };

    ghost matches_eq = { Prim.search (comparing, rules) };

    fn cmp(&self, other: &Entry) -> Ordering {
        self.key.cmp(&other.key)
    }
}

// Every entry is sound, and the one with the smaller key comes before the other.
impl TotalOrder for Entry {
    ghost sound = { λ _. Unit {0} };

    ghost upto = { λ x y. nat_le x.key y.key };

    ghost total = { λ x y s t. sizes_total x.key y.key };

    ghost transitive = { λ x y z s t u. sizes_transitive x.key y.key z.key };

    fn comes_before(&self, other: &Entry) -> bool {
        self.key < other.key
    }
}

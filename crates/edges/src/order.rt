// The order of sides on a sweep line: by floor, then by ceil, then by binary64 place. Sides with one place are equal.
ghost use Rattle.std.proofs.Common.{rules};
ghost use Rattle.std.specs.Cmp.{eq_by_cmp_equiv, partial_equiv_from_equiv, partial_order_from_total};
ghost use Rattle.std.specs.Ordering.{as_partial_cmp, eq_by_cmp};
ghost use Rattle.edges.specs.Side.{Sound};
ghost use Rattle.edges.specs.Order.{edge_order};
ghost use Rattle.edges.specs.Orders.{sides_total};
ghost use Rattle.search.specs.First.{up_to};
ghost use Rattle.search.specs.Orders.{up_to_total, up_to_transitive};

use super::side::Edge;
use search::order::TotalOrder;
use std::cmp::{OrderedFloat, Ordering};

impl PartialEq for Edge {
    ghost eq = { eq_by_cmp edge_order };

    ghost laws = { partial_equiv_from_equiv (eq_by_cmp_equiv sides_total) };

    fn eq(&self, other: &Edge) -> bool {
        self.cmp(other).is_eq()
    }
}

impl Eq for Edge {
    ghost laws = { eq_by_cmp_equiv sides_total };
}

impl PartialOrd for Edge {
    ghost partial_cmp = { as_partial_cmp edge_order };

    ghost laws = { partial_order_from_total sides_total };

    fn partial_cmp(&self, other: &Edge) -> Option<Ordering> {
        Some(self.cmp(other))
    }
}

impl Ord for Edge {
    ghost cmp = { edge_order };

    ghost total = { sides_total };

    ghost matches_partial_cmp = { Prim.search rules };

    ghost matches_eq = { Prim.search rules };

    fn cmp(&self, other: &Edge) -> Ordering {
        let places = || OrderedFloat(self.get_slave_pos()).cmp(&OrderedFloat(
            other.get_slave_pos(),
        ));
        self.floor()
            .cmp(&other.floor())
            .then_with(|| self.ceil().cmp(&other.ceil()))
            .then_with(places)
    }
}

// Sound sides in the order of their places: the one with the smaller floor comes first, then the smaller ceil, then the smaller place.
impl TotalOrder for Edge {
    ghost sound = { Sound };

    ghost upto = { up_to edge_order };

    // any two sides compare
    ghost total = { λ x y s t. up_to_total edge_order sides_total x y };

    // the order is transitive
    ghost transitive = { λ x y z s t u. up_to_transitive edge_order sides_total x y z };

    fn comes_before(&self, other: &Edge) -> bool {
        self.cmp(other).is_lt()
    }
}

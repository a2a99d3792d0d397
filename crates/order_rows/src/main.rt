// Sides, their places and their order, and the search, on small examples. The file stdout is written by hand.
#![tactic(auto)]

ghost use Rattle.std.specs.Prelude.{nat_le};
ghost use Rattle.search.specs.Sizes.{sizes_total, sizes_transitive};

use edges::Edge;
use search::keyed::Entry;
use search::{TotalOrder, first};
use std::io;

// A lot by its weight. It has no `Ord`, since a share is a float, but an order of its own.
#[derive(Clone, Copy)]
struct Lot {
    weight: u32,
    share: f64,
}

impl TotalOrder for Lot {
    ghost sound = { λ _. Unit {0} };

    ghost upto = { λ x y. nat_le x.weight y.weight };

    ghost total = { λ x y s t. sizes_total x.weight y.weight };

    ghost transitive = { λ x y z s t u. sizes_transitive x.weight y.weight z.weight };

    fn comes_before(&self, other: &Lot) -> bool {
        self.weight < other.weight
    }
}

// A side from begin to end in `total` steps, of which `epoch` are done.
fn side(begin: i32, end: i32, epoch: u32, total: u32) -> Edge {
    Edge {
        epoch,
        total_epoch: total,
        slave_begin: begin,
        slave_end: end,
    }
}

// Prints floor and ceil of a side's place.
fn print_side(rt: &HostRuntime, name: &str, side: Edge) -> io::Result<()> {
    let floor = side.floor();
    let ceil = side.ceil();
    println!(rt; "{name}: {floor} {ceil}")
}

// Prints the answer of a search.
fn print_first(rt: &HostRuntime, name: &str, place: Option<usize>) -> io::Result<()> {
    match place {
        Some(k) => println!(rt; "{name}: {k}"),
        None => println!(rt; "{name}: none"),
    }
}

fn main(rt: HostRuntime) -> io::Result<()> {
    print_side(&rt, "a third of the way from -7 to 4", side(-7, 4, 1, 3))?;
    print_side(&rt, "two fifths of the way from 5 to -5", side(5, -5, 2, 5))?;
    print_side(&rt, "no step", side(9, 9, 0, 0))?;
    print_side(&rt, "past the end", side(9, 9, 3, 2))?;
    print_first(&rt, "5 2 9 2", first(&[5u32, 2, 9, 2]))?;
    print_first(&rt, "one number", first(&[4u32]))?;
    let none: [u32; 0] = [];
    print_first(&rt, "no number", first(&none))?;
    let entries = [
        Entry { key: 7, value: 1 },
        Entry { key: 3, value: 9 },
        Entry { key: 3, value: 0 },
    ];
    print_first(&rt, "tied keys", first(&entries))?;
    let lots = [
        Lot {
            weight: 9,
            share: 0.5,
        },
        Lot {
            weight: 4,
            share: 0.25,
        },
        Lot {
            weight: 4,
            share: 0.75,
        },
    ];
    print_first(&rt, "an order of its own", first(&lots))?;
    let sides = [
        side(0, 1, 1, 2),
        side(0, 1, 1, 3),
        side(-1, 0, 1, 1),
        side(0, 2, 1, 6),
    ];
    print_first(&rt, "places 1/2 1/3 0 1/3", first(&sides))?;
    print_first(
        &rt,
        "places 1/3 1/2 1/3",
        first(&[side(0, 1, 1, 3), side(0, 1, 1, 2), side(0, 1, 1, 3)]),
    )
}

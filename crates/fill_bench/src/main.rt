// Fills 1,000 outlines of 64 corners on a panel of 1,000 by 1,000, and prints how many pixels that took.
// The file stdout was worked out by tools/fill_count.py, which follows docs/RULES.md with exact fractions.
#![tactic(auto)]

use edges::side::Edge;
use outline::sweep::Side;
use panel::panel::Panel;
use plotters_backend::style::BackendColor;
use polygon::fill_polygon;
use std::io;

mod counted;

use counted::Counted;

// The corners of an outline, the side of the panel, and how many outlines there are.
const CORNERS: usize = 64;

const SIDE: u32 = 1000;

const OUTLINES: u32 = 1000;

// A row of numbers that look like chance, by the last of them.
#[derive(Clone, Copy)]
struct Chance {
    number: u32,
}

impl Chance {
    fn next(&mut self) -> u32 {
        self.number = self.number.wrapping_mul(1664525).wrapping_add(1013904223);
        self.number
    }

    // The next place along a side of the panel.
    fn along(&mut self) -> i32 {
        ((self.next() >> 8) % SIDE) as i32
    }
}

fn main(rt: HostRuntime) -> io::Result<()> {
    let mut bytes = vec![in rt.alloc(); 0u8; 3000000]?;
    let color = BackendColor {
        alpha: 1.0,
        rgb: (40, 120, 80),
    };
    let mut back = Counted::new(Panel::new((SIDE, SIDE), bytes.as_mut_slice()));
    let mut points = [(0, 0); CORNERS];
    let mut sides = [Side {
        m0: 0,
        s0: 0,
        m1: 0,
        s1: 0,
    }; CORNERS];
    let mut live = [Edge {
        epoch: 0,
        total_epoch: 0,
        slave_begin: 0,
        slave_end: 0,
    }; CORNERS];
    let mut marks = [0u8; 65536];
    let mut chance = Chance { number: 1 };
    for _ in 0..OUTLINES {
        for point in &mut points {
            *point = (chance.along(), chance.along());
        }
        let _ = fill_polygon(
            &mut back, &points, &color, &mut sides, &mut live, &mut marks,
        );
    }
    let count = back.count();
    println!(rt; "{count}")
}

// The pixels of a family of lines, printed as the Rust's are. The file stdout is what plotters-backend 0.3.7 itself lays, recorded by tools/oracle/record.
// The Rust drops the last end of a slanting line: it is looked at here, and not printed.
#![tactic(auto)]

ghost use Rattle.rust_lines.specs.Recorded.{nothing, nothing_lawful};

use plotters_backend::BackendCoord;
use plotters_backend::backend::DrawingBackend;
use plotters_backend::error::DrawingErrorKind;
use plotters_backend::style::BackendColor;
use rasterizer::draw_line;
use std::convert::Infallible;
use std::io;

const FROM: BackendCoord = (5, 6);

const COLOR: BackendColor = BackendColor {
    alpha: 0.7,
    rgb: (0, 0, 0),
};

// The bits of a number; what is not a number has many patterns, and is noted as 0.
fn bits_of(x: f64) -> u64 {
    if x.is_nan() { 0 } else { x.to_bits() }
}

// A surface of no size, which notes what is handed to it.
#[derive(Drop)]
struct Recorder {
    log: Vec<(BackendCoord, u64)>,
}

impl DrawingBackend for Recorder {
    type ErrorType = Infallible;

    ghost surface = { nothing };

    ghost held = { λ _. tt };

    ghost lawful = { nothing_lawful };

    fn get_size(&self) -> (u32, u32) {
        (0, 0)
    }

    fn draw_pixel(
        &mut self,
        point: BackendCoord,
        color: BackendColor,
    ) -> Result<(), DrawingErrorKind<Infallible>> {
        let _ = self.log.push((point, bits_of(color.alpha)));
        Ok(())
    }
}

// Prints the first n pixels: x, y and the bits of alpha.
fn print_pixels(rt: &HostRuntime, pixels: &[(BackendCoord, u64)], n: usize) -> io::Result<()> {
    for (point, bits) in pixels.iter().take(n) {
        let x = point.0;
        let y = point.1;
        print!(rt; " {x} {y} {bits}")?;
    }
    Ok(())
}

// How many pixels of a line the Rust lays too: all but the last end of a slanting line.
fn shared(log: &[(BackendCoord, u64)], to: BackendCoord) -> usize {
    if to.0 == FROM.0 || to.1 == FROM.1 {
        return log.len();
    }
    match log.last() {
        Some((point, bits)) if (*point == to || *point == FROM) && *bits == bits_of(COLOR.alpha) =>
            log.len() - 1,
        _ => 0,
    }
}

fn print_line(rt: &HostRuntime, to: BackendCoord) -> io::Result<()> {
    let mut back = Recorder {
        log: Vec::new(rt.alloc()),
    };
    let _ = draw_line(&mut back, FROM, to, &COLOR);
    let x = to.0;
    let y = to.1;
    print!(rt; "{x} {y}:")?;
    let n = shared(back.log.as_slice(), to);
    print_pixels(rt, back.log.as_slice(), n)?;
    println!(rt; "")
}

fn main(rt: HostRuntime) -> io::Result<()> {
    for y in 0..13 {
        for x in 0..13 {
            print_line(&rt, (x, y))?;
        }
    }
    Ok(())
}

// Laying a colour over a cell.
ghost use Rattle.std.specs.Prelude.{◌≡◌, ◌+◌, ◌≤◌, length};
ghost use Rattle.panel.specs.Blend.{blend, channel, weight};
ghost use Rattle.panel.specs.Picture.{blended, three};

use plotters_backend::style::BackendColor;
use std::num::saturating_f64_to_u32;

// How much an alpha counts, in parts of 256.
fn weight_of(alpha: f64) -> u32
    ensures value { result ≡ weight alpha }
    ensures most { result ≤ 256 }
{
    if alpha >= 1.0 {
        return 256;
    }
    if alpha > 0.0 {
        return saturating_f64_to_u32(alpha * 256.0);
    }
    0
}

// One channel laid over another, where the new one has a share of so many parts in 256.
fn channel_of(share: u32, old: u8, new: u8) -> u8
    requires { share ≤ 256 }
    ensures { result ≡ channel share old new }
{
    ((u32::from(old) * (256 - share) + u32::from(new) * share) / 256) as u8
}

// A colour laid over a cell.
fn blend_of(cell: (u8, u8, u8), color: BackendColor) -> (u8, u8, u8)
    ensures { result ≡ blend cell color }
{
    let share = weight_of(color.alpha);
    let red = channel_of(share, cell.0, color.rgb.0);
    let green = channel_of(share, cell.1, color.rgb.1);
    let blue = channel_of(share, cell.2, color.rgb.2);
    (red, green, blue)
}

// The three bytes from `at` on.
pub fn three_of(bytes: &[u8], at: usize) -> (u8, u8, u8)
    requires { at + 3 ≤ length bytes.now }
    ensures { result ≡ three bytes.now at }
{
    (bytes[at], bytes[at + 1], bytes[at + 2])
}

// A colour laid over the three bytes from `at` on.
pub fn lay(bytes: &mut [u8], at: usize, color: BackendColor)
    requires { at + 3 ≤ length bytes.old }
    ensures { bytes.new ≡ blended bytes.old at color }
{
    let (red, green, blue) = blend_of(three_of(bytes, at), color);
    bytes[at] = red;
    bytes[at + 1] = green;
    bytes[at + 2] = blue;
}

// Colours and styles.
ghost use Rattle.std.specs.Prelude.{◌≡◌, ℕ};
ghost use Rattle.plotters_backend.specs.Color.{mixed};
ghost use Rattle.plotters_backend.specs.declared.style.BackendColor.{BackendColor};

#[derive(Clone, Copy)]
pub struct BackendColor {
    pub alpha: f64,
    pub rgb: (u8, u8, u8),
}

impl BackendColor {
    // Opaque black and white.
    pub const BLACK: BackendColor = BackendColor {
        alpha: 1.0,
        rgb: (0, 0, 0),
    };

    pub const WHITE: BackendColor = BackendColor {
        alpha: 1.0,
        rgb: (255, 255, 255),
    };

    // The colour with its alpha multiplied.
    pub fn mix(&self, alpha: f64) -> BackendColor
        ensures { result ≡ mixed self.now alpha }
    {
        BackendColor {
            alpha: self.alpha * alpha,
            rgb: self.rgb,
        }
    }
}

// A colour and a stroke width, the same at each call.
pub trait BackendStyle {
    ghost ink: { Self → BackendColor };

    ghost width: { Self → ℕ };

    fn color(&self) -> BackendColor
        ensures { result ≡ ink self.now };

    fn stroke_width(&self) -> u32
        ensures { result ≡ width self.now };
}

// A colour alone is a style of width 1.
impl BackendStyle for BackendColor {
    ghost ink = { λ c. c };

    ghost width = { λ _. 1 };

    fn color(&self) -> BackendColor {
        *self
    }

    fn stroke_width(&self) -> u32 {
        1
    }
}

// A style of any width.
#[derive(Clone, Copy)]
pub struct Pen {
    pub color: BackendColor,
    pub stroke_width: u32,
}

impl BackendStyle for Pen {
    ghost ink = { λ p. p.color };

    ghost width = { λ p. p.stroke_width };

    fn color(&self) -> BackendColor {
        self.color
    }

    fn stroke_width(&self) -> u32 {
        self.stroke_width
    }
}

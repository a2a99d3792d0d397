// What a draw answers where it does not succeed.
ghost use Rattle.std.specs.Prelude.{◌≡◌};
ghost use Rattle.plotters_backend.specs.Refusals.{number, number_of, OwnNumber, Refuses};
ghost use Rattle.plotters_backend.specs.declared.error.DrawingErrorKind.TheVariants.{Refused};

// Why a call is refused. Each case has a number of its own, which is what a program reports.
#[derive(Clone, Copy)]
pub enum Refusal {
    // a coordinate below -16,384 or above 16,384
    Far = 1,
    // a stroke width above 1,024
    Thick,
    // a radius above 8,192, or a side of a bitmap above 16,384
    Big,
    // an outline or a path of more than 1,024 points
    Many,
    // lent memory, or the buffer for a written sheet, that is shorter than is asked for
    Pool,
    // a bitmap of fewer bytes than three times its width times its height
    Short,
    // a side of a surface that is 0 or above 16,384, or a panel of too few bytes
    Size,
    // a corner worked out for a path that lies beyond 32,767 on either side of 0
    Stray,
    // a wide line whose four corners share one x or one y
    Knot,
    // a pixel that would leave a sheet with 4,097 pairs
    Full,
    // a line of a script that is not in its form, or a script above 32,768 bytes
    Line,
}

// The Rust's error kind, with a refusal in the place of its font errors.
#[derive(Clone, Copy)]
pub enum DrawingErrorKind<E> {
    // the surface's own fault
    DrawingError(E),
    Refused(Refusal),
}

impl Refusal {
    // The number that is reported.
    pub fn number(self) -> u32
        ensures value { result ≡ number self }
        ensures own { OwnNumber self result }
    {
        self as u32
    }
}

// A call that is refused before any work passes its refusal on by `?`.
impl<E> From<Refusal> for DrawingErrorKind<E> {
    ghost from_gives = { λ refusal kind. kind ≡ Refused refusal };

    fn from(refusal: Refusal) -> DrawingErrorKind<E> {
        DrawingErrorKind::Refused(refusal)
    }
}

// A surface's own fault that is a refusal makes every error one.
impl<E: Into<Refusal>> From<DrawingErrorKind<E>> for Refusal {
    ghost from_gives = { Refuses E.converts };

    fn from(kind: DrawingErrorKind<E>) -> Refusal {
        match kind {
            DrawingErrorKind::DrawingError(fault) => fault.into(),
            DrawingErrorKind::Refused(refusal) => refusal,
        }
    }
}

// The number that is reported of an answer: 0 for success.
pub fn number_of(answer: Result<(), Refusal>) -> u32
    ensures { result ≡ number_of answer }
{
    match answer {
        Ok(()) => 0,
        Err(refusal) => refusal.number(),
    }
}

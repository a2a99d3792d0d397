// The sheet's own fault.
ghost use Rattle.std.specs.Prelude.{◌≡◌};
ghost use Rattle.dots.specs.Faults.{fault_number, fault_refusal};

use plotters_backend::error::Refusal;

#[derive(Clone, Copy)]
pub enum SheetFault {
    // a 4,097th pair would be needed
    Full,
}

impl SheetFault {
    // The number that is reported.
    pub fn number(self) -> u32
        ensures { result ≡ fault_number self }
    {
        Refusal::from(self).number()
    }
}

// The sheet's fault is one of the refusals.
impl From<SheetFault> for Refusal {
    ghost from_gives = { λ fault refusal. refusal ≡ fault_refusal fault };

    fn from(fault: SheetFault) -> Refusal {
        match fault {
            SheetFault::Full => Refusal::Full,
        }
    }
}

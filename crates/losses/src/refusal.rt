// Why a table refuses: one variant for each refusal number.
ghost use Rattle.std.specs.Prelude.{◌≡◌};
ghost use Rattle.losses.specs.Refusals.{number_of};

#[derive(Clone, Copy, PartialEq, Eq, Debug)]
pub enum TableRefusal {
    // noting: the key has no row, and all are taken
    NoRowLeft,
    // looking up: the key has no row
    NoSuchRow,
}

impl TableRefusal {
    pub fn number(self) -> u8
        ensures { result ≡ number_of self }
    {
        match self {
            TableRefusal::NoRowLeft => 31,
            TableRefusal::NoSuchRow => 32,
        }
    }
}

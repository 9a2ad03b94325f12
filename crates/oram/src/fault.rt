// Why an Oram refuses a call.
ghost use Rattle.oram.specs.Faults.{oram_number, oram_row};
ghost use Rattle.oram.specs.declared.fault.OramFault.TheVariants.{Front};
ghost use Rattle.posmap.specs.declared.fault.LevelFault.TheVariants.{Below};
ghost use Rattle.std.specs.Prelude.{◌≡◌};

use card::cause::Cause;
use card::fault::CardFault;
use posmap::fault::LevelFault;

// What an Oram refuses by itself, and what its row 0 and the map below it refuse, held whole.
#[derive(Clone, Copy, PartialEq, Eq, Debug, Drop)]
pub enum OramFault<F> {
    // Not all records are opened yet.
    NotOpened,
    // All records are opened already.
    AllOpened,
    // What a row in front of a map refuses, or the map below it.
    Front(LevelFault<F>),
}

impl<F: CardFault> CardFault for OramFault<F> {
    ghost number_of = { oram_number F.CardFault.number_of };

    ghost row_of = { oram_row F.CardFault.row_of };

    fn cause(&self) -> Cause {
        match self {
            OramFault::NotOpened => Cause::NotOpened,
            OramFault::AllOpened => Cause::AllOpened,
            OramFault::Front(fault) => fault.cause(),
        }
    }

    fn row(&self) -> u8 {
        match self {
            OramFault::Front(fault) => fault.row(),
            _ => 0,
        }
    }
}

// A fault of the row in front of the map as a fault of the Oram, whose row 0 it is.
impl<F> From<LevelFault<F>> for OramFault<F> {
    ghost from_gives = { λ fault r. r ≡ Front fault };

    fn from(own: LevelFault<F>) -> OramFault<F>
        ensures { result ≡ Front own }
    {
        OramFault::Front(own)
    }
}

// A fault of the map below as a fault of the Oram: the cause is passed up, not made up again.
impl<F> From<F> for OramFault<F> {
    ghost from_gives = { λ fault r. r ≡ Front (Below fault) };

    fn from(lower: F) -> OramFault<F>
        ensures { result ≡ Front (Below lower) }
    {
        OramFault::Front(LevelFault::from(lower))
    }
}

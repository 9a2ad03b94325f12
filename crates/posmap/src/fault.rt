// Why a map refuses a call: each fault has a number and a row on the card of refusals.
ghost use Rattle.std.specs.Prelude.{◌≡◌};
ghost use Rattle.posmap.specs.Faults.{flat_number, flat_row, level_number, level_row};
ghost use Rattle.posmap.specs.declared.fault.LevelFault.TheVariants.{Below};

use card::cause::Cause;
use card::fault::CardFault;

// What a flat map refuses. It has no row of its own, so only a question about an entry names one.
#[derive(Clone, Copy, PartialEq, Eq, Debug)]
pub enum FlatFault {
    NoNumber,
    WrongCoins,
    WideLeaf,
    NoEntry(u8),
}

impl CardFault for FlatFault {
    ghost number_of = { flat_number };

    ghost row_of = { flat_row };

    fn cause(&self) -> Cause {
        match self {
            FlatFault::NoNumber => Cause::NoNumber,
            FlatFault::WrongCoins => Cause::WrongCoins,
            FlatFault::WideLeaf => Cause::NoLeaf,
            FlatFault::NoEntry(_) => Cause::NoEntry,
        }
    }

    fn row(&self) -> u8 {
        match self {
            FlatFault::NoEntry(row) => *row,
            _ => 0,
        }
    }
}

// What a row in front of a map refuses by itself, as a level is and an Oram's row 0, and what the map below refuses, held whole.
#[derive(Clone, Copy, PartialEq, Eq, Debug, Drop)]
pub enum LevelFault<F> {
    Unfit,
    NoNumber,
    WrongCoins,
    NoLeaf,
    LogFull,
    QueueFull,
    NoEntry(u8),
    Below(F),
}

impl<F: CardFault> CardFault for LevelFault<F> {
    ghost number_of = { level_number F.CardFault.number_of };

    ghost row_of = { level_row F.CardFault.row_of };

    fn cause(&self) -> Cause {
        match self {
            LevelFault::Unfit => Cause::Unfit,
            LevelFault::NoNumber => Cause::NoNumber,
            LevelFault::WrongCoins => Cause::WrongCoins,
            LevelFault::NoLeaf => Cause::NoLeaf,
            LevelFault::LogFull => Cause::LogFull,
            LevelFault::QueueFull => Cause::QueueFull,
            LevelFault::NoEntry(_) => Cause::NoEntry,
            LevelFault::Below(fault) => fault.cause(),
        }
    }

    // A row is one byte: of a fault from deeper than row 255 the row stays 255.
    fn row(&self) -> u8 {
        match self {
            LevelFault::NoEntry(row) => *row,
            LevelFault::Below(fault) => fault.row().saturating_add(1),
            _ => 0,
        }
    }
}

// A fault of the map below as a fault of the level above: the cause is passed up, not made up again.
impl<F> From<F> for LevelFault<F> {
    ghost from_gives = { λ fault r. r ≡ Below fault };

    fn from(fault: F) -> LevelFault<F>
        ensures { result ≡ Below fault }
    {
        LevelFault::Below(fault)
    }
}

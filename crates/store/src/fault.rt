// Why a store refuses a call.
ghost use Rattle.store.specs.Faults.{number_of, row_of};

use card::cause::Cause;
use card::fault::CardFault;

#[derive(Clone, Copy, PartialEq, Eq, Debug)]
pub enum StoreFault {
    // The log has fewer free entries than the call makes.
    Full,
    // The store has no such bucket.
    NoBucket,
    // The log has no such entry.
    NoEntry,
}

impl CardFault for StoreFault {
    ghost number_of = { number_of };

    ghost row_of = { row_of };

    fn cause(&self) -> Cause {
        match self {
            StoreFault::Full => Cause::LogFull,
            StoreFault::NoBucket => Cause::NoBucket,
            StoreFault::NoEntry => Cause::NoEntry,
        }
    }

    // A store by itself is row 0.
    fn row(&self) -> u8 {
        0
    }
}

// Why a step of a row is refused.
ghost use Rattle.row.specs.Faults.{number_of, row_of};

use card::cause::Cause;
use card::fault::CardFault;

#[derive(Clone, Copy, PartialEq, Eq, Debug)]
pub enum RowFault {
    // There is no tree of that depth, or the store has too few buckets for it.
    Unfit,
    // The tree has no such leaf.
    NoLeaf,
    // The log has fewer free entries than the step makes.
    LogFull,
    // The queue has no room for what arrives.
    QueueFull,
}

impl CardFault for RowFault {
    ghost number_of = { number_of };

    ghost row_of = { row_of };

    fn cause(&self) -> Cause {
        match self {
            RowFault::Unfit => Cause::Unfit,
            RowFault::NoLeaf => Cause::NoLeaf,
            RowFault::LogFull => Cause::LogFull,
            RowFault::QueueFull => Cause::QueueFull,
        }
    }

    // A row by itself is row 0.
    fn row(&self) -> u8 {
        0
    }
}

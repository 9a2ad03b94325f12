// Why a call is refused, and where.
ghost use Rattle.std.specs.Prelude.{◌≡◌, ℕ};
ghost use Rattle.card.specs.Causes.{number_of as numbered};

use crate::cause::Cause;

// A fault by its place on the card: the number of its cause, and a row.
pub trait CardFault {
    ghost number_of: { Self → ℕ };

    ghost row_of: { Self → ℕ };

    // The cause. Code tells faults apart by it, and not by number.
    fn cause(&self) -> Cause
        ensures { numbered result ≡ number_of self.now };

    fn row(&self) -> u8
        ensures { result ≡ row_of self.now };

    // The cause's number on the card.
    fn number(&self) -> u8
        ensures { result ≡ number_of self.now }
    {
        self.cause().number()
    }
}

// How a calibration record is laid out in eight words.
ghost use Rattle.std.specs.Prelude.{◌≡◌, ℕ, List, [], ◌∷◌, ◌++◌, take};
ghost use Rattle.record.specs.Calibration.{calibration_of, calibration_words};
ghost use Rattle.record.specs.Made;
ghost use Rattle.record.specs.Packing.{high_part, low_part, packed};
ghost use Rattle.std.proofs.Common.{rules, arith};

use crate::calibration::CalibrationRecord;
use crate::kind::{RECORD_WORDS, RecordKind};

// The word that has these two halves.
fn pack(low: u16, high: u16) -> u32
    ensures { result ≡ packed 16 low high }
{
    u32::from(low) + (u32::from(high) << 16)
}

// The two halves of a word, the low one first.
fn halves(word: u32) -> (u16, u16)
    ensures low { result.0 ≡ low_part 16 word }
    ensures high { result.1 ≡ high_part 16 word }
{
    ((word & 0xffff) as u16, (word >> 16) as u16)
}

impl RecordKind for CalibrationRecord {
    ghost laid = { calibration_words };

    ghost made = { calibration_of };

    ghost eight = { first_of (Prim.search rules, Prim.grind (arith, Self.row.coded.inj)) };

    ghost again = { Made.again };

    fn to_words(&self) -> [u32; RECORD_WORDS]
        ensures { result ≡ calibration_words self.now }
    {
        let (low, high) = (self.tag & 0xffff_ffff, self.tag >> 32);
        [
            low as u32,
            high as u32,
            pack(self.coefficient, self.constant),
            pack(self.circumference, self.bay),
            self.odometer,
            self.day,
            0,
            0,
        ]
    }

    // The last two words are ignored, and of the others no bit is lost.
    fn from_words(words: [u32; RECORD_WORDS]) -> CalibrationRecord
        ensures value { result ≡ calibration_of words }
        ensures ignored { (ws : List ℕ) → take 6 ws ≡ take 6 words → result ≡ calibration_of ws }
        ensures whole { calibration_words result ≡ take 6 words ++ (0 ∷ 0 ∷ []) }
    {
        let [low, high, rates, wheel, odometer, day, _, _] = words;
        let (coefficient, constant) = halves(rates);
        let (circumference, bay) = halves(wheel);
        CalibrationRecord {
            tag: u64::from(low) + (u64::from(high) << 32),
            coefficient,
            constant,
            circumference,
            bay,
            odometer,
            day,
        }
    }
}

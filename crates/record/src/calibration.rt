// A calibration record: how one vehicle was calibrated, when and where.
ghost use Rattle.std.specs.Prelude.{◌^◌, ◌<◌};

mod methods;

// In the logic a number has no bound. A field that shares a word, or that is split over two, states its own,
// so that laying out loses nothing of any record.
#[derive(Clone, Copy, PartialEq, Eq, Debug)]
pub struct CalibrationRecord {
    // of the vehicle
    pub tag: u64,
    // in pulses per kilometre
    pub coefficient: u16,
    // in pulses per kilometre
    pub constant: u16,
    // of a tyre, in eighths of a millimetre
    pub circumference: u16,
    // the bay's number
    pub bay: u16,
    // in kilometres
    pub odometer: u32,
    // day 0 is 1 January 1970
    pub day: u32,
    ghost tag_fits: { tag < 2 ^ 64 },
    ghost coefficient_fits: { coefficient < 2 ^ 16 },
    ghost constant_fits: { constant < 2 ^ 16 },
    ghost circumference_fits: { circumference < 2 ^ 16 },
    ghost bay_fits: { bay < 2 ^ 16 },
}

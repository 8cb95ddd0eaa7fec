//! Why a text gives no values.

use std::alloc::AllocError;

/// Why a text gives no values.
#[derive(Clone, Copy, Debug, PartialEq, Eq)]
pub enum SensorFault {
    /// The line with this number, counted from 1, is the first of another form.
    Line(u64),
    /// Out of memory.
    Memory,
}

impl From<AllocError> for SensorFault {
    ghost use Rattle.std.specs.Prelude.{◌≡◌};
    ghost use Rattle.p10_sensors.specs.declared.fault.SensorFault.TheVariants.{Memory};

    ghost from_gives = { λ _ fault. fault ≡ Memory };

    fn from(_: AllocError) -> SensorFault {
        SensorFault::Memory
    }
}

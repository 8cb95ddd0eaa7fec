//! The values of a text.

ghost use Rattle.std.specs.Prelude.{◌≡◌, ◌≤◌, ℕ, ◌++◌, [], ◌∷◌, Err, length, IfOk, OnOk};
ghost use Rattle.p10_sensors.specs.Texts.{IsTextOf, IsFirstOther};
ghost use Rattle.p10_sensors.specs.declared.fault.SensorFault.TheVariants.{Line};

use crate::fault::SensorFault;
use crate::lines::first_value;
use std::alloc::{AllocError, Global};

/// The values of a text of at most 8,388,608 bytes, in its order.
///
/// # Errors
///
/// The first line of another form, by its number; or out of memory.
pub fn sensor_values(alloc: Global, text: &[u8]) -> Result<Vec<i128>, SensorFault>
    requires { length text.now ≤ 8388608 }
    ensures values { IfOk result (λ values. IsTextOf text.now values.items) }
    ensures other { (line : ℕ) → result ≡ Err (Line line) → IsFirstOther text.now line }
{
    let mut values = Vec::new(alloc);
    let mut rest = text;
    while !rest.is_empty() {
        match first_value(rest) {
            Some((value, after)) => {
                keep(&mut values, value)?;
                rest = after;
            }
            None => return Err(SensorFault::Line(values.len() as u64 + 1)),
        }
    }
    Ok(values)
}

/// Puts a value after the others.
fn keep(values: &mut Vec<i128>, value: i128) -> Result<(), AllocError>
    ensures { OnOk result (values.new.items ≡ values.old.items ++ value ∷ []) }
{
    values.push(value)?;
    Ok(())
}

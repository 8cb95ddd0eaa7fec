//! Recorded values of sensors, as a file has them: one whole number a line.
//!
//!     300
//!     -7
//!
//! Entry point: [`sensor_values`]. A value is a number from -2^63 to 2^64 - 1 in decimal digits, without a leading zero, and with `-`
//! before it where it is below zero; each line ends with LF (`specs/Texts.antt`). A text of another form is answered with the number of
//! its first line that has it. So each text has one answer, and each list of values one text.
#![tactic(auto)]

mod fault;
pub mod laws;
mod lines;
mod numbers;
mod values;

pub use fault::SensorFault;
pub use values::sensor_values;

// Logged analog records: 1 to 700 signed samples of one unit, taken at one sample period.
#![tactic(auto)]

pub mod kind;
pub mod reading;
mod record;
mod samples;
pub mod setting;

pub use kind::Analog;
pub use reading::{AnalogReading, read_analog};
pub use setting::{SamplePeriod, Unit};

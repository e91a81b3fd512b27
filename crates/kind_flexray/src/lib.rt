// FlexRay records: cycle, frame ID and a payload of up to 254 bytes; then logged two CRCs, in replay the cycle repetition and a CRC.
#![tactic(auto)]

mod frame;
pub mod kind;

pub use frame::USE_HEADER_CRC;
pub use kind::{LoggedFlexRay, ReplayFlexRay};

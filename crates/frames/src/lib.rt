// Records whose data is a frame: a header, the payload length in one byte, the payload, a trailer.
// A kind of frames says what differs as a `Frame`; checking and writing are the same for all.
#![tactic(auto)]

pub mod frame;
pub mod kind;
mod number;
pub mod record;

pub use frame::Frame;
pub use kind::{FrameKind, Framed};
pub use record::{check_frame, write_frame};

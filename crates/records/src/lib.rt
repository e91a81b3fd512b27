// What records are: codes, record kinds and registries of them, and the refusals of every call.
#![tactic(auto)]

pub mod bits;
pub mod code;
pub mod kind;
pub mod refusal;
pub mod registry;

pub use code::{Code, MessageType};
pub use kind::RecordKind;
pub use refusal::{Numbered, RecordRefusal, Refusal, WriteRefusal};
pub use registry::Registry;

// TECMP packets: the head, the entries, and the packet reader.
#![tactic(auto)]

pub mod entries;
pub mod entry;
pub mod head;
pub mod packet;
pub mod reader;
mod rest;

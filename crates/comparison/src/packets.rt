// Comparing two packets, entry by entry.
ghost use Rattle.std.specs.Prelude.{Some};
ghost use Rattle.comparison.specs.Words.{words_of};

use records::refusal::Refusal;
use std::fmt;

pub mod compare;

// What two entries at one place differ in first; the fields are compared in this order.
#[derive(Clone, Copy, PartialEq, Eq, Debug)]
pub enum Field {
    // one packet has no entry at this place
    Presence,
    Code,
    Interface,
    Time,
    // what the record says
    Content,
}

// In words, as of an entry.
impl fmt::Display for Field {
    ghost output = { λ field. Some (words_of field) };

    fn fmt<W: fmt::Write>(&self, f: &mut fmt::Formatter<W>) -> fmt::Result {
        f.write_str(match self {
            Field::Presence => "only one of the packets has it",
            Field::Code => "the code differs",
            Field::Interface => "the interface differs",
            Field::Time => "the time differs",
            Field::Content => "what the record says differs",
        })
    }
}

#[derive(Clone, Copy, PartialEq, Eq, Debug)]
pub enum Comparison {
    Same { entries: usize },
    // the first entry that differs, counted from 0
    Different { entry: usize, field: Field },
}

#[derive(Clone, Copy, PartialEq, Eq, Debug)]
pub enum RefusedPacket {
    First(Refusal),
    Second(Refusal),
}

// What a word of a copy begins: a packet with its filling, or the end.
ghost use Rattle.std.specs.Prelude.{◌≡◌, ◌<◌, ◌^◌};
ghost use Rattle.copy_format.specs.ReadingBack.{filled, part_of};
ghost use Rattle.tecmp.specs.Layout.{zeros};
ghost use Rattle.copy_reader.specs.Parts.{Shows, ShowsAfter};

use copy_format::filling_of;
use records::refusal::Refusal;

// The top four bits of a word are its kind, the others a number below this one.
const NUMBER_LIMIT: u32 = 1 << 28;

const PACKET_KIND: u32 = 1;

const CLOSING_KIND: u32 = 2;

#[derive(Clone, Copy)]
pub(crate) enum Part<'c> {
    Packet(&'c [u8]),
    // the closing word, with the number of entries that it says
    Closing(u32),
}

// The part that begins with the first word of what is left of a copy.
pub(crate) fn part_of(rest: &[u8]) -> Result<Part<'_>, Refusal>
    ensures { Shows (part_of rest.now) rest.now result }
{
    let [w0, w1, w2, w3, after @ ..] = rest else {
        return Err(Refusal::MalformedCopy);
    };
    let word = u32::from_be_bytes([*w0, *w1, *w2, *w3]);
    let number = word % NUMBER_LIMIT;
    match word / NUMBER_LIMIT {
        PACKET_KIND => packet_of(number as usize, after),
        CLOSING_KIND => Ok(Part::Closing(number)),
        _ => Err(Refusal::MalformedCopy),
    }
}

// A packet of so many bytes, with zeros after it up to a multiple of four.
fn packet_of(size: usize, after: &[u8]) -> Result<Part<'_>, Refusal>
    requires { size < 2 ^ 28 }
    ensures { ShowsAfter (filled size after.now) after.now result }
{
    let end = size + filling_of(size);
    if end > after.len() || !is_filling(&after[size..end]) {
        return Err(Refusal::MalformedCopy);
    }
    Ok(Part::Packet(&after[..size]))
}

fn is_filling(bytes: &[u8]) -> bool
    ensures { result ≡ zeros bytes.now }
{
    bytes.iter().all(|byte| *byte == 0)
}

// Heads, words and filling as bytes, and writing them into the output.
ghost use Rattle.std.specs.Prelude.{◌≡◌, ◌+◌, ◌*◌, ◌^◌, ◌<◌, ◌≤◌, length, replicate};
ghost use Rattle.copy_format.specs.Image.{entry_head, packet_head, counter_of, device_flags_of, word, filling};
ghost use Rattle.canonical.specs.States.{spliced};
ghost use Rattle.canonical.specs.Words.{kind_number};

use copy_format::filling_of;
use records::code::MessageType;
use tecmp::head::{Stream, VERSION};

// The device flags of a logged packet: a whole message, of a module that is in order.
const DEVICE_FLAGS: u16 = 0x000F;

const COUNTERS: u32 = 65_536;

// The kinds of words in a copy, in their top four bits.
#[derive(Clone, Copy)]
pub(crate) enum WordKind {
    Packet = 1 << 28,
    Closing = 2 << 28,
}

impl WordKind {
    // A word of this kind, with a number below the kind's bits.
    #[tactic(auto, unfolding(copy_format::specs::Image::word))]
    pub(crate) fn word(self, number: u32) -> [u8; 4]
        requires { number < 2 ^ 28 }
        ensures { result ≡ word (kind_number self) number }
    {
        (self as u32 + number).to_be_bytes()
    }
}

// The counter of a packet and its device flags: both are 0 in replay.
fn counter_and_flags(message_type: MessageType, number: u32) -> (u16, u16)
    ensures counter { result.0 ≡ counter_of message_type number }
    ensures flags { result.1 ≡ device_flags_of message_type }
{
    match message_type {
        MessageType::LoggingStream => ((number % COUNTERS) as u16, DEVICE_FLAGS),
        MessageType::ReplayData => (0, 0),
    }
}

#[tactic(auto, unfolding(copy_format::specs::Image::packet_head))]
pub(crate) fn packet_head(stream: Stream, number: u32, data_type: u16) -> [u8; 12]
    ensures { result ≡ packet_head stream number data_type }
{
    let (counter, flags) = counter_and_flags(stream.message_type, number);
    let [m0, m1] = stream.module.to_be_bytes();
    let [c0, c1] = counter.to_be_bytes();
    let [t0, t1] = data_type.to_be_bytes();
    let [f0, f1] = flags.to_be_bytes();
    let message_type = u8::from(stream.message_type);
    [m0, m1, c0, c1, VERSION, message_type, t0, t1, 0, 0, f0, f1]
}

#[tactic(auto, unfolding(copy_format::specs::Image::entry_head))]
pub(crate) fn entry_head(interface: u32, time: u64, length: u16, flags: u16) -> [u8; 16]
    ensures { result ≡ entry_head interface time length flags }
{
    let [i0, i1, i2, i3] = interface.to_be_bytes();
    let [w0, w1, w2, w3, w4, w5, w6, w7] = time.to_be_bytes();
    let [l0, l1] = length.to_be_bytes();
    let [f0, f1] = flags.to_be_bytes();
    [
        i0, i1, i2, i3, w0, w1, w2, w3, w4, w5, w6, w7, l0, l1, f0, f1,
    ]
}

// Writes bytes at an offset.
pub(crate) fn put(out: &mut [u8], at: usize, bytes: &[u8])
    requires { at + length bytes.now ≤ length out.old }
    ensures { out.new ≡ spliced out.old at bytes.now }
{
    out[at..at + bytes.len()].copy_from_slice(bytes);
}

pub(crate) fn put_filling(out: &mut [u8], at: usize, size: usize)
    requires { at + filling size ≤ length out.old }
    ensures { out.new ≡ spliced out.old at (replicate (filling size) 0) }
{
    out[at..at + filling_of(size)].fill(0);
}

// What is left of a packet from an offset on.
ghost use Rattle.std.specs.Prelude.{◌≡◌, ◌+◌, ◌^◌, ◌<◌, ◌≤◌, length};
ghost use Rattle.tecmp.specs.Layout.{data_length, zeros};
ghost use Rattle.tecmp.specs.Reading.{entry_of};
ghost use Rattle.tecmp.specs.Views.{viewed};

use crate::entry::{EntryView, time_of};
use records::code::Code;

#[derive(Clone, Copy)]
pub(crate) struct Rest<'p> {
    pub(crate) offset: usize,
    pub(crate) bytes: &'p [u8],
    ghost fits: { offset + length bytes.now < 2 ^ 64 },
}

impl<'p> Rest<'p> {
    // Whether all of it is padding.
    pub(crate) fn is_padding(self) -> bool
        ensures { result ≡ zeros self.entry.bytes.now }
    {
        self.bytes.iter().all(|byte| *byte == 0)
    }

    // The entry that it begins with, and the offset after it. It fits: this call cannot refuse.
    pub(crate) fn entry(self, code: Code) -> (EntryView<'p>, usize)
        requires { 16 + data_length self.bytes.now ≤ length self.bytes.now }
        ensures view { viewed result.0 ≡ entry_of code self.entry.offset self.entry.bytes.now }
        ensures next { result.1 ≡ self.entry.offset + 16 + data_length self.entry.bytes.now }
    {
        let Rest { offset, bytes } = self;
        let interface = u32::from_be_bytes([bytes[0], bytes[1], bytes[2], bytes[3]]);
        let word = u64::from_be_bytes([
            bytes[4], bytes[5], bytes[6], bytes[7], bytes[8], bytes[9], bytes[10], bytes[11],
        ]);
        let length = usize::from(u16::from_be_bytes([bytes[12], bytes[13]]));
        let view = EntryView {
            code,
            interface,
            time: time_of(code.message_type, word),
            flags: u16::from_be_bytes([bytes[14], bytes[15]]),
            data: &bytes[16..16 + length],
            data_offset: offset + 16,
        };
        (view, offset + 16 + length)
    }
}

// What differs between kinds of frames.
ghost use Rattle.std.specs.Prelude.{◌≡◌, ◌≤◌, Ok};
ghost use Rattle.records.specs.Tests.{tested};
ghost use Rattle.frames.specs.Frames.{Shape, Shapely};

use records::RecordRefusal;

// Each method takes those of flags, payload length, header and trailer that it reads.
// That both lengths are at most 8 is a clause of each: a type with the bound would be turned back into a number at every use.
pub trait Frame {
    ghost shape: { Self → Shape };

    // The flags that are kept.
    fn mask(&self) -> u16
        ensures { result ≡ (shape self.now).mask };

    fn head_length(&self) -> usize
        ensures length { result ≡ (shape self.now).head_length }
        ensures bound { result ≤ 8 };

    fn tail_length(&self) -> usize
        ensures length { result ≡ (shape self.now).tail_length }
        ensures bound { result ≤ 8 };

    // Whether an entry with these flags carries no frame.
    fn is_empty(&self, flags: u16) -> bool
        ensures { result ≡ (shape self.now).empty flags };

    // Whether a frame may have so many bytes of payload.
    fn allows(&self, flags: u16, count: u8) -> bool
        ensures { result ≡ (shape self.now).allows flags count };

    // What header and trailer are read as.
    fn head_as(&self, flags: u16, head: u64) -> u64
        ensures { result ≡ (shape self.now).head_as flags head };

    fn tail_as(&self, flags: u16, count: u8, tail: u64) -> u64
        ensures { result ≡ (shape self.now).tail_as flags count tail };

    // Settings, identifier, slot and checksum of a frame as read.
    fn check_fields(&self, flags: u16, count: u8, head: u64, tail: u64) -> Result<(), RecordRefusal>
        ensures { result ≡ tested ((shape self.now).field_tests flags count head tail) (Ok tt) };

    ghost shapely: { (k : Self) → Shapely (shape k) };
}

// Checking and writing records that are frames.
ghost use Rattle.std.specs.Prelude.{◌≡◌, ◌+◌, ◌-◌, ◌≤◌, length, take, drop, Ok, slice_index_or};
ghost use Rattle.records.specs.Codecs.{verdict_of};
ghost use Rattle.records.specs.Tests.{tested};
ghost use Rattle.records.specs.Verdicts.{checked, written, canonical_flags, canonical_data, Filled};
ghost use Rattle.frames.specs.Frames.{Sized, laid, count, head_read, tail_read, framed_on, size_tests, frame_tests, bytes_of, codec, verdict_on};

use crate::frame::Frame;
use crate::number::{read_number, write_number};
use records::{RecordRefusal, WriteRefusal};

// Frame, flags and data stay three parameters, and what is of two of them (`Sized`, the part's length, the verdict written out) a clause: each is read by itself in every clause.

// The lengths of the data: shorter than without payload, a payload length that is not allowed, any other wrong length.
fn check_size<F: Frame>(frame: &F, flags: u16, data: &[u8]) -> Result<u8, RecordRefusal>
    ensures { result ≡ tested (size_tests (F.Frame.shape frame.now) flags «data».now) (Ok (count (F.Frame.shape frame.now) «data».now)) }
{
    let fixed = frame.head_length() + 1 + frame.tail_length();
    if data.len() < fixed {
        return Err(RecordRefusal::Length);
    }
    let count = data[frame.head_length()];
    let allowed = if frame.is_empty(flags) {
        count == 0
    } else {
        frame.allows(flags, count)
    };
    if !allowed {
        return Err(RecordRefusal::PayloadLength);
    }
    if data.len() != fixed + usize::from(count) {
        return Err(RecordRefusal::Length);
    }
    Ok(count)
}

// Header and trailer as read: 0, as a rule of the format, in an entry that carries no frame.
fn read_fields<F: Frame>(frame: &F, flags: u16, data: &[u8]) -> (u64, u64)
    requires { Sized (F.Frame.shape frame.now) «data».now }
    ensures head { result.0 ≡ head_read (F.Frame.shape frame.now) flags «data».now }
    ensures tail { result.1 ≡ tail_read (F.Frame.shape frame.now) flags «data».now }
{
    if frame.is_empty(flags) {
        return (0, 0);
    }
    let head = frame.head_length();
    let count = data[head];
    let end = head + 1 + usize::from(count);
    let head = frame.head_as(flags, read_number(&data[0..head]));
    let tail = frame.tail_as(flags, count, read_number(&data[end..]));
    (head, tail)
}

// What `check` of a kind of frames answers: the length of the canonical data, or the refusal.
pub fn check_frame<F: Frame>(frame: &F, flags: u16, data: &[u8]) -> Result<usize, RecordRefusal>
    ensures { result ≡ checked (verdict_of (codec (F.Frame.shape frame.now)) flags «data».now) }
{
    check_masked(frame, flags & frame.mask(), data)
}

// The same, given the flags that are kept.
fn check_masked<F: Frame>(frame: &F, flags: u16, data: &[u8]) -> Result<usize, RecordRefusal>
    ensures { result ≡ checked (verdict_on (F.Frame.shape frame.now) flags «data».now) }
{
    let count = check_size(frame, flags, data)?;
    check_read(frame, flags, count, data)?;
    Ok(data.len())
}

// The fields of a frame with so many bytes of payload. An entry that carries no frame has none to check.
fn check_read<F: Frame>(
    frame: &F,
    flags: u16,
    payload_length: u8,
    data: &[u8],
) -> Result<(), RecordRefusal>
    requires { (Sized (F.Frame.shape frame.now) «data».now) × (payload_length ≡ count (F.Frame.shape frame.now) «data».now) }
    ensures { result ≡ tested (frame_tests (F.Frame.shape frame.now) flags «data».now) (Ok tt) }
{
    if frame.is_empty(flags) {
        return Ok(());
    }
    let (head, tail) = read_fields(frame, flags, data);
    frame.check_fields(flags, payload_length, head, tail)
}

// What `write` of a kind of frames does: the canonical data into a part of just its length; the canonical flags, or the refusal.
pub fn write_frame<F: Frame>(
    frame: &F,
    flags: u16,
    data: &[u8],
    part: &mut [u8],
) -> Result<u16, WriteRefusal>
    ensures answer { result ≡ written (verdict_of (codec (F.Frame.shape frame.now)) flags «data».now) (length part.old) }
    ensures part { Filled result (canonical_data (verdict_of (codec (F.Frame.shape frame.now)) flags «data».now)) part.old part.new }
{
    // Each family of kinds has these lines: a shared `write` would ask of its last call that the record is accepted, and public calls ask nothing.
    if check_frame(frame, flags, data)? != part.len() {
        return Err(WriteRefusal::PartLength);
    }
    Ok(write_canonical(frame, flags, data, part))
}

// Writes the canonical data of an accepted record, and answers its canonical flags. This call cannot refuse.
fn write_canonical<F: Frame>(frame: &F, flags: u16, data: &[u8], part: &mut [u8]) -> u16
    requires { checked (verdict_of (codec (F.Frame.shape frame.now)) flags «data».now) ≡ Ok (length part.old) }
    ensures answer { result ≡ canonical_flags (verdict_of (codec (F.Frame.shape frame.now)) flags «data».now) }
    ensures part { part.new ≡ canonical_data (verdict_of (codec (F.Frame.shape frame.now)) flags «data».now) }
{
    let flags = flags & frame.mask();
    write_read(frame, flags, data, part);
    flags
}

// Writes a frame as it was read, given the flags that are kept.
fn write_read<F: Frame>(frame: &F, flags: u16, data: &[u8], part: &mut [u8])
    requires { (Sized (F.Frame.shape frame.now) «data».now) × (length part.old ≡ length «data».now) }
    ensures { part.new ≡ bytes_of (F.Frame.shape frame.now) (framed_on (F.Frame.shape frame.now) flags «data».now) }
{
    let (head, tail) = read_fields(frame, flags, data);
    write_parts(data, frame.head_length(), head, tail, part);
}

// Writes a frame with this header and trailer, and the payload length and payload of `data`.
fn write_parts(data: &[u8], head_length: usize, head: u64, tail: u64, part: &mut [u8])
    requires fits { (head_length ≤ 8) × (length «data».now ≤ head_length + 1 + slice_index_or «data».now head_length 0 + 8) }
    requires sizes { (head_length + 1 + slice_index_or «data».now head_length 0 ≤ length «data».now) × (length part.old ≡ length «data».now) }
    ensures { part.new ≡ laid head_length head (take (slice_index_or «data».now head_length 0) (drop (head_length + 1) «data».now)) (length «data».now - (head_length + 1 + slice_index_or «data».now head_length 0)) tail }
{
    let count = data[head_length];
    let end = head_length + 1 + usize::from(count);
    write_number(head, &mut part[0..head_length]);
    part[head_length] = count;
    part[head_length + 1..end].copy_from_slice(&data[head_length + 1..end]);
    write_number(tail, &mut part[end..]);
}

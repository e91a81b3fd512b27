// Record kinds whose records are frames.
ghost use Rattle.std.specs.Prelude.{◌≡◌, ℕ, Bool};
ghost use Rattle.records.specs.Codecs.{verdict_of};
ghost use Rattle.records.specs.declared.code.MessageType.{MessageType as MessageTypeOf};
ghost use Rattle.frames.specs.Frames.{codec};
ghost use Rattle.frames.specs.Law.{frame_lawful};

use crate::frame::Frame;
use crate::record::{check_frame, write_frame};
use records::{MessageType, RecordKind, RecordRefusal, WriteRefusal};

// What a kind of frames states of itself: its code, whether its entries may share a packet, and its frame.
pub trait FrameKind {
    type Frame: Frame + Copy;

    const MESSAGE_TYPE: MessageType;

    const DATA_TYPE: u16;

    const SHARES: bool;

    const FRAME: Self::Frame;

    ghost MESSAGE_TYPE: { MessageTypeOf };

    ghost DATA_TYPE: { ℕ };

    ghost SHARES: { Bool };

    ghost FRAME: { Self.Frame };
}

// The record kind of such frames.
#[derive(Clone, Copy)]
pub struct Framed<K>(pub K);

impl<K: FrameKind> RecordKind for Framed<K> {
    const MESSAGE_TYPE: MessageType = K::MESSAGE_TYPE;

    const DATA_TYPE: u16 = K::DATA_TYPE;

    const SHARES: bool = K::SHARES;

    ghost MESSAGE_TYPE = { K.FrameKind.MESSAGE_TYPE };

    ghost DATA_TYPE = { K.FrameKind.DATA_TYPE };

    ghost SHARES = { K.FrameKind.SHARES };

    ghost verdict = { λ _. verdict_of (codec (K.Frame.Frame.shape K.FrameKind.FRAME)) };

    ghost lawful = { λ k. frame_lawful (K.Frame.Frame.shape K.FrameKind.FRAME) (K.Frame.Frame.shapely K.FrameKind.FRAME) };

    fn check(&self, flags: u16, data: &[u8]) -> Result<usize, RecordRefusal> {
        check_frame(&K::FRAME, flags, data)
    }

    fn write(&self, flags: u16, data: &[u8], part: &mut [u8]) -> Result<u16, WriteRefusal> {
        write_frame(&K::FRAME, flags, data, part)
    }
}

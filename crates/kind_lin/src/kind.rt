// The record kinds of LIN: logged and replay.
ghost use Rattle.std.specs.Prelude.{true, false};
ghost use Rattle.records.specs.declared.code.MessageType.TheVariants.{LoggingStream, ReplayData};
ghost use Rattle.kind_lin.specs.Lin.{lin_code};

use crate::frame::LinFrame;
use frames::FrameKind;
use records::MessageType;

const LIN: u16 = 0x0004;

const LOGGED: LinFrame = LinFrame {
    direction: MessageType::LoggingStream,
};

const REPLAY: LinFrame = LinFrame {
    direction: MessageType::ReplayData,
};

#[derive(Clone, Copy)]
pub struct LoggedLin;

impl FrameKind for LoggedLin {
    type Frame = LinFrame;

    const MESSAGE_TYPE: MessageType = MessageType::LoggingStream;

    const DATA_TYPE: u16 = LIN;

    const SHARES: bool = true;

    const FRAME: LinFrame = LOGGED;

    ghost MESSAGE_TYPE = { (lin_code LoggingStream).message_type };

    ghost DATA_TYPE = { (lin_code LoggingStream).data_type };

    ghost SHARES = { true };

    ghost FRAME = { record { direction = LoggingStream } };
}

#[derive(Clone, Copy)]
pub struct ReplayLin;

impl FrameKind for ReplayLin {
    type Frame = LinFrame;

    const MESSAGE_TYPE: MessageType = MessageType::ReplayData;

    const DATA_TYPE: u16 = LIN;

    const SHARES: bool = false;

    const FRAME: LinFrame = REPLAY;

    ghost MESSAGE_TYPE = { (lin_code ReplayData).message_type };

    ghost DATA_TYPE = { (lin_code ReplayData).data_type };

    ghost SHARES = { false };

    ghost FRAME = { record { direction = ReplayData } };
}

// The record kinds of CAN and CAN-FD frames, logged and replay.
ghost use Rattle.std.specs.Prelude.{true, false};
ghost use Rattle.kind_can.specs.Can.{code_of, logged_can, replay_can, logged_can_fd, replay_can_fd};

use crate::frame::{CanFrame, Protocol};
use frames::FrameKind;
use records::MessageType;

// The data types.
const CAN: u16 = 0x0002;

const CAN_FD: u16 = 0x0003;

const LOGGED_CAN: CanFrame = CanFrame {
    protocol: Protocol::Classic,
    direction: MessageType::LoggingStream,
};

const REPLAY_CAN: CanFrame = CanFrame {
    protocol: Protocol::Classic,
    direction: MessageType::ReplayData,
};

const LOGGED_CAN_FD: CanFrame = CanFrame {
    protocol: Protocol::Fd,
    direction: MessageType::LoggingStream,
};

const REPLAY_CAN_FD: CanFrame = CanFrame {
    protocol: Protocol::Fd,
    direction: MessageType::ReplayData,
};

#[derive(Clone, Copy)]
pub struct LoggedCan;

impl FrameKind for LoggedCan {
    type Frame = CanFrame;

    const MESSAGE_TYPE: MessageType = MessageType::LoggingStream;

    const DATA_TYPE: u16 = CAN;

    const SHARES: bool = true;

    const FRAME: CanFrame = LOGGED_CAN;

    ghost MESSAGE_TYPE = { (code_of logged_can).message_type };

    ghost DATA_TYPE = { (code_of logged_can).data_type };

    ghost SHARES = { true };

    ghost FRAME = { logged_can };
}

#[derive(Clone, Copy)]
pub struct ReplayCan;

impl FrameKind for ReplayCan {
    type Frame = CanFrame;

    const MESSAGE_TYPE: MessageType = MessageType::ReplayData;

    const DATA_TYPE: u16 = CAN;

    const SHARES: bool = false;

    const FRAME: CanFrame = REPLAY_CAN;

    ghost MESSAGE_TYPE = { (code_of replay_can).message_type };

    ghost DATA_TYPE = { (code_of replay_can).data_type };

    ghost SHARES = { false };

    ghost FRAME = { replay_can };
}

#[derive(Clone, Copy)]
pub struct LoggedCanFd;

impl FrameKind for LoggedCanFd {
    type Frame = CanFrame;

    const MESSAGE_TYPE: MessageType = MessageType::LoggingStream;

    const DATA_TYPE: u16 = CAN_FD;

    const SHARES: bool = true;

    const FRAME: CanFrame = LOGGED_CAN_FD;

    ghost MESSAGE_TYPE = { (code_of logged_can_fd).message_type };

    ghost DATA_TYPE = { (code_of logged_can_fd).data_type };

    ghost SHARES = { true };

    ghost FRAME = { logged_can_fd };
}

#[derive(Clone, Copy)]
pub struct ReplayCanFd;

impl FrameKind for ReplayCanFd {
    type Frame = CanFrame;

    const MESSAGE_TYPE: MessageType = MessageType::ReplayData;

    const DATA_TYPE: u16 = CAN_FD;

    const SHARES: bool = false;

    const FRAME: CanFrame = REPLAY_CAN_FD;

    ghost MESSAGE_TYPE = { (code_of replay_can_fd).message_type };

    ghost DATA_TYPE = { (code_of replay_can_fd).data_type };

    ghost SHARES = { false };

    ghost FRAME = { replay_can_fd };
}

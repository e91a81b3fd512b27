// The record kinds of FlexRay: logged and replay.
ghost use Rattle.std.specs.Prelude.{true};
ghost use Rattle.records.specs.declared.code.MessageType.TheVariants.{LoggingStream, ReplayData};
ghost use Rattle.kind_flexray.specs.FlexRay.{flex_ray_code};

use crate::frame::FlexRayFrame;
use frames::FrameKind;
use records::MessageType;

const FLEXRAY: u16 = 0x0008;

const LOGGED: FlexRayFrame = FlexRayFrame {
    direction: MessageType::LoggingStream,
};

const REPLAY: FlexRayFrame = FlexRayFrame {
    direction: MessageType::ReplayData,
};

#[derive(Clone, Copy)]
pub struct LoggedFlexRay;

impl FrameKind for LoggedFlexRay {
    type Frame = FlexRayFrame;

    const MESSAGE_TYPE: MessageType = MessageType::LoggingStream;

    const DATA_TYPE: u16 = FLEXRAY;

    const SHARES: bool = true;

    const FRAME: FlexRayFrame = LOGGED;

    ghost MESSAGE_TYPE = { (flex_ray_code LoggingStream).message_type };

    ghost DATA_TYPE = { (flex_ray_code LoggingStream).data_type };

    ghost SHARES = { true };

    ghost FRAME = { record { direction = LoggingStream } };
}

#[derive(Clone, Copy)]
pub struct ReplayFlexRay;

impl FrameKind for ReplayFlexRay {
    type Frame = FlexRayFrame;

    const MESSAGE_TYPE: MessageType = MessageType::ReplayData;

    const DATA_TYPE: u16 = FLEXRAY;

    const SHARES: bool = true;

    const FRAME: FlexRayFrame = REPLAY;

    ghost MESSAGE_TYPE = { (flex_ray_code ReplayData).message_type };

    ghost DATA_TYPE = { (flex_ray_code ReplayData).data_type };

    ghost SHARES = { true };

    ghost FRAME = { record { direction = ReplayData } };
}

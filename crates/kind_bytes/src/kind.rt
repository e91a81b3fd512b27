// The record kinds of plain bytes: logged UART and Ethernet records.
ghost use Rattle.std.specs.Prelude.{◌≡◌, ℕ, true};
ghost use Rattle.records.specs.Codecs.{verdict_of};
ghost use Rattle.records.specs.declared.code.MessageType.TheVariants.{LoggingStream};
ghost use Rattle.kind_bytes.specs.declared.content.Content.{Content as ContentOf};
ghost use Rattle.kind_bytes.specs.declared.content.Content.TheVariants.{Uart, Ethernet};
ghost use Rattle.kind_bytes.specs.Layouts.{codec, layout_of, uart_code, ethernet_code};
ghost use Rattle.kind_bytes.specs.Law.{bytes_lawful};

use crate::content::Content;
use crate::record::{check_bytes, write_bytes};
use records::{MessageType, RecordKind, RecordRefusal, WriteRefusal};

// What a kind of plain bytes states of itself: its data type and its content. All are logged, and share packets. `Content` can be named only in this crate, so all such kinds stand here.
pub trait BytesKind {
    const DATA_TYPE: u16;

    const CONTENT: Content;

    ghost DATA_TYPE: { ℕ };

    ghost CONTENT: { ContentOf };
}

// The record kind of such bytes.
#[derive(Clone, Copy)]
pub struct PlainBytes<K>(pub K);

impl<K: BytesKind> RecordKind for PlainBytes<K> {
    const MESSAGE_TYPE: MessageType = MessageType::LoggingStream;

    const DATA_TYPE: u16 = K::DATA_TYPE;

    const SHARES: bool = true;

    ghost MESSAGE_TYPE = { LoggingStream };

    ghost DATA_TYPE = { K.BytesKind.DATA_TYPE };

    ghost SHARES = { true };

    ghost verdict = { λ _. verdict_of (codec (layout_of K.BytesKind.CONTENT)) };

    ghost lawful = { λ k. bytes_lawful K.BytesKind.CONTENT };

    fn check(&self, flags: u16, data: &[u8]) -> Result<usize, RecordRefusal> {
        check_bytes(K::CONTENT, flags, data)
    }

    fn write(&self, flags: u16, data: &[u8], part: &mut [u8]) -> Result<u16, WriteRefusal> {
        write_bytes(K::CONTENT, flags, data, part)
    }
}

#[derive(Clone, Copy)]
pub struct LoggedUart;

impl BytesKind for LoggedUart {
    const DATA_TYPE: u16 = 0x0010;

    const CONTENT: Content = Content::Uart;

    ghost DATA_TYPE = { uart_code.data_type };

    ghost CONTENT = { Uart };
}

#[derive(Clone, Copy)]
pub struct LoggedEthernet;

impl BytesKind for LoggedEthernet {
    const DATA_TYPE: u16 = 0x0080;

    const CONTENT: Content = Content::Ethernet;

    ghost DATA_TYPE = { ethernet_code.data_type };

    ghost CONTENT = { Ethernet };
}

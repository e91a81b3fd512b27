// Testing a copy, and the calls on its reader.
ghost use Rattle.std.specs.Prelude.{◌≡◌};
ghost use Rattle.std.specs.Iterator.{item_count};
ghost use Rattle.copy_format.specs.ReadingBack.{ByWords};
ghost use Rattle.copy_reader.specs.Readers.{Back, Steps, left, stream_of};

use super::CopyReader;
use crate::cursor::Cursor;
use crate::pass::{first_stream, test_words};
use copy_format::LARGEST_COPY;
use records::refusal::Refusal;
use records::registry::Registry;
use tecmp::entry::EntryView;
use tecmp::head::Stream;

// Tests a whole copy, and hands its entries out one by one, however its packets are cut.
pub fn read_back<'r, 'c, R: Registry>(
    registry: &'r R,
    copy: &'c [u8],
) -> Result<CopyReader<'r, 'c, R>, Refusal>
    ensures back { Back registry.now copy.now result }
    ensures words { ByWords }
{
    if copy.len() > LARGEST_COPY {
        return Err(Refusal::OutputLength);
    }
    let stream = first_stream(registry, copy)?;
    test_words(registry, stream, copy)?;
    let cursor = Cursor {
        registry,
        stream,
        copy,
        place: None,
        next: 0,
        handed: 0,
    };
    Ok(CopyReader { cursor })
}

impl<'r, 'c, R: Registry> CopyReader<'r, 'c, R> {
    // The direction and module of the copy.
    pub fn stream(&self) -> Stream
        ensures { result ≡ stream_of self.now }
    {
        self.cursor.stream
    }

    // A reader of the same entries.
    pub fn again(&self) -> Self
        ensures left { left result ≡ left self.now }
        ensures stream { stream_of result ≡ stream_of self.now }
    {
        CopyReader {
            cursor: self.cursor,
        }
    }
}

impl<'r, 'c, R: Registry> Iterator for CopyReader<'r, 'c, R> {
    type Item = EntryView<'c>;

    ghost next_gives = { Steps };

    ghost remaining = { item_count left };

    fn next(&mut self) -> Option<EntryView<'c>> {
        let (entry, cursor) = self.cursor.read()?;
        *self = CopyReader { cursor };
        Some(entry)
    }
}

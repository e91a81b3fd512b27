// A copy that has passed, and its entries.
ghost use Rattle.copy_reader.specs.Cursors.{Sound};

use crate::cursor::Cursor;
use records::registry::Registry;

mod calls;

pub use calls::read_back;

// Hands the entries out one by one. Nothing in the copy is refused any more, as its type says.
#[derive(Drop)]
pub struct CopyReader<'r, 'c, R: Registry> {
    cursor: Cursor<'r, 'c, R>,
    ghost sound: { Sound R.Registry.services cursor },
}

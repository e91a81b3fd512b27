// A table over rows that the caller lends: the rows taken stand first, in key order, and the free ones behind them.
ghost use Rattle.std.specs.Prelude.{◌≡◌, ◌+◌, ◌<◌, ◌≤◌, List, [], ◌++◌, length, take, drop, insert, IfErr, IfOk, MatchResult};
ghost use Rattle.std.specs.Option.{ok_or};
ghost use Rattle.losses.specs.Log.{Log, row_told, AnyLog};
ghost use Rattle.losses.specs.Order.{Ascending};
ghost use Rattle.losses.specs.Places.{PlaceOf};
ghost use Rattle.losses.specs.Rows.{row_with, Notes, NotesIn};
ghost use Rattle.losses.specs.Tables.{rows_of};
ghost use Rattle.losses.specs.declared.refusal.TableRefusal.TheVariants.{NoSuchRow as Unknown};

use crate::refusal::TableRefusal;
use crate::row::{Row, Tally, search};

// The place of the key's row, or the place where it would go.
fn place<R: Row>(rows: &[R], key: u32) -> Result<usize, usize>
    ensures { PlaceOf R.key_of rows.now key result }
{
    let at = search(rows, key);
    if at < rows.len() && rows[at].key() == key {
        Ok(at)
    } else {
        Err(at)
    }
}

// A new row at a place among the rows taken; those behind it move up, over the first free row.
fn open_row<R: Row>(rows: &mut [R], taken: usize, at: usize, row: R)
    requires at_most { at ≤ taken }
    requires room { taken < length rows.old }
    ensures { rows.new ≡ insert (take taken rows.old) at row ++ drop (taken + 1) rows.old }
{
    rows[taken] = row;
    rows[at..taken + 1].rotate_right(1);
}

// The rows taken.
fn first_rows<R: Row>(rows: &[R], taken: usize) -> &[R]
    ensures { result.now ≡ take taken rows.now }
{
    &rows[..taken.min(rows.len())]
}

// Notes in rows of which some are taken, and answers how many are taken then.
fn note_in<R: Tally>(rows: &mut [R], taken: usize, noting: R::Noting) -> Result<usize, TableRefusal>
    ensures { NotesIn R.key_of R.row_of R.next_of rows.old taken noting result rows.new }
{
    let first = R::first(noting);
    match place(first_rows(rows, taken), first.key()) {
        Ok(at) => {
            rows[at] = rows[at].next(noting);
            Ok(taken)
        }
        Err(at) => {
            if taken >= rows.len() {
                return Err(TableRefusal::NoRowLeft);
            }
            open_row(rows, taken, at, first);
            Ok(taken + 1)
        }
    }
}

// Not `Clone`: the rows are lent to one table.
#[derive(Drop)]
pub struct Table<'a, R> {
    rows: &'a mut [R],
    taken: usize,
}

impl<'a, R: Tally> Table<'a, R> {
    // A table over these rows, whatever they hold: none is taken.
    pub fn new(rows: &'a mut [R]) -> Table<'a, R>
        ensures rows { rows_of result ≡ record { taken = []; free = rows.entry.now } }
        ensures lent { result.rows.ghost_name ≡ rows.entry.ghost_name }
    {
        Table { rows, taken: 0 }
    }

    // Notes under the key of what is noted: in the key's row, or in a new one, or 31 where all rows are taken.
    pub fn note(&mut self, noting: R::Noting) -> Result<(), TableRefusal>
        ensures noted { Ascending R.key_of (rows_of self.old).taken → Notes R.key_of R.row_of R.next_of (rows_of self.old) noting result (rows_of self.new) }
        ensures order { Ascending R.key_of (rows_of self.old).taken → Ascending R.key_of (rows_of self.new).taken }
        ensures refused { IfErr result (λ refusal. rows_of self.new ≡ rows_of self.old) }
        ensures lent { self.new.rows.ghost_name ≡ self.old.rows.ghost_name }
    {
        self.taken = note_in(self.rows, self.taken, noting)?;
        Ok(())
    }

    // The rows taken, in key order.
    pub fn rows(&self) -> &[R]
        ensures rows { result.now ≡ (rows_of self.now).taken }
        ensures law { AnyLog R.key_of R.row_of R.next_of (rows_of self.now) }
    {
        first_rows(self.rows, self.taken)
    }

    // The row of a key, or 32.
    pub fn look_up(&self, key: u32) -> Result<R, TableRefusal>
        ensures found { Ascending R.key_of (rows_of self.now).taken → result ≡ ok_or (row_with R.key_of key (rows_of self.now).taken) Unknown }
        ensures law { (notings : List R.Noting) → Log R.key_of R.row_of R.next_of (rows_of self.now) notings → result ≡ ok_or (row_told R.key_of R.row_of key notings) Unknown }
    {
        let rows = self.rows();
        match place(rows, key) {
            Ok(at) => Ok(rows[at]),
            Err(_) => Err(TableRefusal::NoSuchRow),
        }
    }
}

// Rows that tell their key, and the one search that serves all of them.
ghost use Rattle.std.specs.Prelude.{◌≡◌, ℕ, ◌≤◌, List, [], length};
ghost use Rattle.losses.specs.Order.{InOrder, IsFirstFrom};
ghost use Rattle.losses.specs.Rows.{GoesOn};

pub trait Row: Copy {
    ghost key_of: { Self → ℕ };

    fn key(&self) -> u32
        ensures { result ≡ key_of self.now };
}

// Rows that sum up what is noted under their key.
pub trait Tally: Row {
    type Noting: Copy;

    // the row of a first noting and of the later ones under its key: these alone tell it
    ghost row_of: { Self.Noting → List Self.Noting → Self };

    // any row after one more noting
    ghost next_of: { Self → Self.Noting → Self };

    fn first(noting: Self::Noting) -> Self
        ensures { result ≡ row_of noting [] };

    fn next(&self, noting: Self::Noting) -> Self
        ensures { result ≡ next_of self.now noting };

    ghost goes_on: { GoesOn Self.key_of row_of next_of };
}

// For rows in key order the first index whose key is not below the key, or how many rows there are.
pub fn search<R: Row>(rows: &[R], key: u32) -> usize
    ensures within { result ≤ length rows.now }
    ensures first { InOrder R.key_of rows.now → IsFirstFrom R.key_of rows.now key result }
{
    let mut low = 0;
    let mut high = rows.len();
    while low < high {
        let middle = low + (high - low) / 2;
        if rows[middle].key() < key {
            low = middle + 1;
        } else {
            high = middle;
        }
    }
    low
}

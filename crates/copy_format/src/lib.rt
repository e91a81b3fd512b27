// The format of a copy: its bytes as a function of the entries it holds, and the rule of reading it back.
#![tactic(auto)]

ghost use Rattle.std.specs.Prelude.{◌≡◌};
ghost use Rattle.copy_format.specs.Image.{filling};

// The bytes of a word.
pub const WORD: usize = 4;

pub const LARGEST_COPY: usize = 16_777_216;

// The zeros after so many bytes, up to a multiple of four.
pub fn filling_of(size: usize) -> usize
    ensures { result ≡ filling size }
{
    (4 - size % 4) % 4
}

// Fields inside a word of flags.
ghost use Rattle.std.specs.Prelude.{◌≡◌, ◌/◌, ◌%◌, ◌^◌, ◌==◌};

// The word without its lowest bits.
fn shifted(word: u16, low: u32) -> u16
    ensures { result ≡ word / 2 ^ low }
{
    if low < u16::BITS { word >> low } else { 0 }
}

// The lowest bits of a word alone.
fn lowest(word: u16, width: u32) -> u16
    ensures { result ≡ word % 2 ^ width }
{
    if width < u16::BITS {
        word & ((1 << width) - 1)
    } else {
        word
    }
}

// The `width` bits of a word from bit `low` on, as a number; bits above the word are 0.
pub fn field(word: u16, low: u32, width: u32) -> u16
    ensures { result ≡ word / 2 ^ low % 2 ^ width }
{
    lowest(shifted(word, low), width)
}

// Whether a bit of a word is set; bits above the word are not.
pub fn bit(word: u16, at: u32) -> bool
    ensures { result ≡ (word / 2 ^ at % 2 == 1) }
{
    field(word, at, 1) == 1
}

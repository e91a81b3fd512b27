// Numbers of up to eight bytes, the highest byte first.
ghost use Rattle.std.specs.Prelude.{◌≡◌, ◌≤◌, length};
ghost use Rattle.records.specs.BigEndian.{big, low};

// The bytes of a whole word: as a rule of the project the numbers' own methods read and write them. The bound is a clause of both functions, since no slice has it by its type.
const WIDEST: usize = 8;

pub(crate) fn read_number(bytes: &[u8]) -> u64
    requires { length bytes.now ≤ 8 }
    ensures { result ≡ big bytes.now }
{
    let mut whole = [0; WIDEST];
    whole[WIDEST - bytes.len()..].copy_from_slice(bytes);
    u64::from_be_bytes(whole)
}

// Writes the lowest bytes of a number, as many as the part has.
pub(crate) fn write_number(number: u64, part: &mut [u8])
    requires { length part.old ≤ 8 }
    ensures { part.new ≡ low (length part.old) number }
{
    let whole = number.to_be_bytes();
    part.copy_from_slice(&whole[WIDEST - part.len()..]);
}

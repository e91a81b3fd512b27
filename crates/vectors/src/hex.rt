// Bytes in hexadecimal: pieces joined by `,`, each may be repeated: `00*3,ff` is 00 00 00 ff; `-` is no bytes.
ghost use Rattle.std.specs.Prelude.{◌≤◌, IfOk, vec_len};

use std::alloc::{AllocError, Global};

// What is no digit counts as 0.
fn digit(byte: u8) -> u8 {
    char::from(byte).to_digit(16).unwrap_or(0) as u8
}

fn push_piece(bytes: &mut Vec<u8>, text: &[u8]) -> Result<(), AllocError>
    ensures { IfOk result (λ _. vec_len bytes.old ≤ vec_len bytes.new) }
{
    for pair in text.chunks_exact(2) {
        bytes.push((digit(pair[0]) & 15) << 4 | digit(pair[1]))?;
    }
    Ok(())
}

// The same so many times over. The digits are read once, and a piece without a byte costs nothing, however often it stands.
fn push_repeated(bytes: &mut Vec<u8>, text: &[u8], times: u16) -> Result<(), AllocError> {
    if times == 0 || text.len() < 2 {
        return Ok(());
    }
    let start = bytes.len();
    push_piece(bytes, text)?;
    let end = bytes.len();
    for _ in 1..times {
        bytes.extend_from_within(start..end)?;
    }
    Ok(())
}

pub(crate) fn read_bytes(heap: Global, text: &str) -> Result<Vec<u8>, AllocError> {
    let mut bytes = Vec::new(heap);
    if text == "-" {
        return Ok(bytes);
    }
    for piece in text.split(',') {
        match piece.split_once('*') {
            None => push_piece(&mut bytes, piece.as_bytes())?,
            // what is no number counts as 0
            Some((once, times)) => {
                push_repeated(
                    &mut bytes,
                    once.as_bytes(),
                    times.parse::<u16>().unwrap_or(0),
                )?;
            }
        }
    }
    Ok(bytes)
}

pub(crate) fn read_word(text: &str) -> u16 {
    text.bytes()
        .fold(0, |word, byte| word << 4 | u16::from(digit(byte)))
}

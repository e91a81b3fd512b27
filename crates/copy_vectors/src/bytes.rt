// Bytes as text. Read: pieces of hexadecimal joined by `,`, each may be repeated: `00*3,ff` is 00 00 00 ff; `-` is no bytes.
use std::alloc::Global;

pub(crate) fn read_bytes(alloc: Global, text: &str) -> anyhow::Result<Vec<u8>> {
    let mut bytes = Vec::new(alloc);
    if text == "-" {
        return Ok(bytes);
    }
    for piece in text.split(',') {
        let (once, times) = match piece.split_once('*') {
            None => (piece, 1),
            Some((once, times)) => (once, times.parse::<u16>()?),
        };
        let once = hex::decode(alloc, once)?;
        for _ in 0..times {
            bytes.extend_from_slice(&once)?;
        }
    }
    Ok(bytes)
}

// A number in hexadecimal. What is no digit counts as 0.
pub(crate) fn read_number(text: &str) -> u64 {
    text.chars().fold(0, |number, digit| {
        number << 4 | u64::from(digit.to_digit(16).unwrap_or(0))
    })
}

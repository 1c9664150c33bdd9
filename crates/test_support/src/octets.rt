//! Octets from hexadecimal digits.
ghost use Rattle.std.specs.Prelude.{◌≤◌};

use std::alloc::{AllocError, Global};

/// The octets of pieces as `1b0147` or `00*125`, which is the octet 00, 125 times.
pub fn octets_of(alloc: Global, pieces: &str) -> Result<Vec<u8>, AllocError> {
    let mut octets = Vec::new(alloc);
    for piece in pieces.split(' ') {
        add_piece(&mut octets, piece)?;
    }
    Ok(octets)
}

fn add_piece(octets: &mut Vec<u8>, piece: &str) -> Result<(), AllocError> {
    let (text, count) = match piece.split_once('*') {
        Some((text, count)) => (text, count.parse::<u32>().unwrap_or(0)),
        None => (piece, 1),
    };
    for _ in 0..count {
        for pair in text.as_bytes().chunks_exact(2) {
            octets.push(16 * digit(pair[0]) + digit(pair[1]))?;
        }
    }
    Ok(())
}

fn digit(octet: u8) -> u8
    ensures { result ≤ 15 }
{
    match octet {
        b'0'..=b'9' => octet - b'0',
        b'a'..=b'f' => octet - b'a' + 10,
        _ => 0,
    }
}

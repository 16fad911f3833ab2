//! Moves pieces through a ScrubBuf or a plain Vec, for `bench/secret_buf.sh`, which takes the time.

use secret_buf::ScrubBuf;
use std::alloc::{AllocError, Global};

/// The bytes of a piece: what the agent reads at once.
const PIECE: usize = 16384;

/// The pieces that a buffer holds before the first is consumed.
const BACKLOG: u64 = 64;

/// The sum of the first bytes of the pieces, as they leave a buffer.
pub fn through_a_buffer(alloc: Global, pieces: u64) -> Result<u64, AllocError> {
    let mut buffer = ScrubBuf::new(alloc);
    let mut piece = [0; PIECE];
    let mut sum: u64 = 0;
    for number in 0..pieces {
        piece[0] = (number % 251) as u8;
        buffer.push_slice(&piece)?;
        if number >= BACKLOG {
            sum = sum.wrapping_add(taken_from(&mut buffer));
        }
    }
    for _ in 0..pieces.min(BACKLOG) {
        sum = sum.wrapping_add(taken_from(&mut buffer));
    }
    Ok(sum)
}

// The first byte of the next piece, which leaves the buffer; 0 where there is none.
fn taken_from(buffer: &mut ScrubBuf) -> u64 {
    if buffer.live().len() < PIECE {
        return 0;
    }
    let first = buffer.live()[0];
    buffer.consume(PIECE);
    first as u64
}

/// The sum of the first bytes of the pieces, each copied to the end of a vector, which is emptied
/// once it holds a backlog.
pub fn through_a_vector(alloc: Global, pieces: u64) -> Result<u64, AllocError> {
    let mut vector = Vec::new(alloc);
    let mut piece = [0; PIECE];
    let mut sum: u64 = 0;
    for number in 0..pieces {
        piece[0] = (number % 251) as u8;
        if number % BACKLOG == 0 {
            vector.clear();
        }
        let start = vector.len();
        vector.extend_from_slice(&piece)?;
        sum = sum.wrapping_add(vector[start] as u64);
    }
    Ok(sum)
}

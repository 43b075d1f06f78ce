// What lent slices hold, as one word: a polynomial in their bits, modulo a prime. A sum goes on from the one before it.
use crate::words::Value;

// What no word was added to.
const NONE: u32 = 1;

const FACTOR: u64 = 1000003;

// 2^32 - 5.
const PRIME: u64 = 4294967291;

fn add(sum: u32, word: u32) -> u32 {
    ((u64::from(sum) * FACTOR + u64::from(word)) % PRIME) as u32
}

fn sum_of<T: Value>(before: u32, xs: &[T]) -> u32 {
    xs.iter().fold(before, |sum, x| add(sum, x.to_word()))
}

// Of positions and channels.
pub fn of_stops(positions: &[f32], channels: &[f32]) -> u32 {
    sum_of(sum_of(NONE, positions), channels)
}

pub fn of_record(rows: &[f32], counts: &[u8], marks: &[u32]) -> u32 {
    sum_of(sum_of(sum_of(NONE, rows), counts), marks)
}

// Files with every number padded to five bytes, and written back short.
use crate::round_trip::{ROOM, front};
use crate::show;
use std::io;
use std::io::Write;

// How many bytes each number takes.
const FIVE: usize = 5;

// The byte at a position of one-byte numbers that are padded: a number's first byte, then bytes that only go on, then a zero.
fn padded_byte(numbers: &[u8], at: usize) -> u8 {
    let index = at / FIVE;
    if at % FIVE == FIVE - 1 {
        return 0;
    }
    if index < numbers.len() {
        if at % FIVE == 0 {
            return 128 + numbers[index] % 128;
        }
    }
    128
}

// Pads one-byte numbers, as many as there is room for, and answers how many bytes they take.
fn pad(numbers: &[u8], out: &mut [u8]) -> usize {
    for at in 0..out.len() {
        if numbers.len() <= at / FIVE {
            return at;
        }
        out[at] = padded_byte(numbers, at);
    }
    out.len()
}

// Pads a file of one-byte numbers, writes its problem into the room, and shows the refusal, or the bytes read and written and whether they are the file again.
pub fn rewrite(out: &mut impl Write, name: &[u8], file: &[u8], room: &mut [u8]) -> io::Result<()> {
    let mut wide = [0u8; ROOM];
    let length = pad(file, &mut wide);
    let mut answer = [0u64; 4];
    let status = examiner::examiner_write(front(&wide, length), room, &mut answer);
    if status != 0 {
        return show::refusal(out, name, status, answer[0]);
    }
    let same = file == front(room, answer[0] as usize);
    show::rewritten(out, name, length as u64, answer[0], same)
}

//! The stack of a run.

use std::io;
use std::random::RandomSource;

/// Takes 96 KiB of the stack, three times as much as a run uses beyond `answer_script`. The system
/// gives a program a page of its stack at the first write to that page, and ends the program if no
/// memory is left then. So these pages are written before a script is read, whose rows may fill all
/// memory. The source gives 16 bytes that nobody uses: what is handed to it has to be written.
#[inline(never)]
pub fn take_stack<R: RandomSource>(source: &R) -> io::Result<()> {
    let mut room = [[0u8; 16]; 6144];
    source.fill_bytes(&mut room[0])
}

//! The stack of a service.

use std::io;
use std::random::RandomSource;

/// Takes 448 KiB of the stack, a quarter more than a service uses. The system gives a program a page
/// of its stack at the first write to that page, and ends the program if no memory is left then. So
/// these pages are written before a store is read, which may fill all memory. The source gives 16
/// bytes that nobody uses: what is handed to it has to be written.
#[inline(never)]
pub fn take_stack<R: RandomSource>(source: &R) -> io::Result<()> {
    let mut room = [[0u8; 16]; 28672];
    source.fill_bytes(&mut room[0])
}

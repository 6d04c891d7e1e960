//! Standard input, with a hint at a terminal.

use std::io;
use std::io::{IsTerminal, Read, Write};

/// Standard input. Before its first read a terminal gets the program's line that says how an input ends.
#[derive(Drop)]
pub struct StandardInput<'r> {
    rt: &'r HostRuntime,
    hint: &'r [u8],
    is_read: bool,
}

impl<'r> StandardInput<'r> {
    pub fn new(rt: &'r HostRuntime, hint: &'r [u8]) -> StandardInput<'r> {
        StandardInput {
            rt,
            hint,
            is_read: false,
        }
    }
}

impl Read for StandardInput<'_> {
    fn read(&mut self, block: &mut [u8]) -> io::Result<usize> {
        let mut input = self.rt.stdin();
        if !self.is_read && input.is_terminal() {
            let _ = self.rt.stderr().write(self.hint);
        }
        self.is_read = true;
        input.read(block)
    }
}

//! Reading files and the first call.

use std::alloc::{AllocError, Global};
use std::io;
use std::io::{ErrorKind, Read};

const BLOCK_LEN: usize = 65_536;

/// A reader, and how many bytes it has given.
#[derive(Drop)]
pub struct Counted<I> {
    pub input: I,
    pub count: u64,
}

impl<I: Read> Read for Counted<I> {
    ghost remaining = { λ c. I.remaining c.input };

    fn read(&mut self, block: &mut [u8]) -> io::Result<usize> {
        let count = self.input.read(block)?;
        self.count = self.count.saturating_add(count as u64);
        Ok(count)
    }
}

// Out of memory, as an error of reading.
fn no_memory(_: AllocError) -> io::Error {
    ErrorKind::OutOfMemory.into()
}

/// Reads all bytes, up to so many.
pub fn read_all<I: Read>(alloc: Global, input: &mut I, most: usize) -> io::Result<Vec<u8>> {
    let mut bytes = Vec::new(alloc);
    let mut block = [0u8; BLOCK_LEN];
    for _ in 0..u64::MAX {
        let count = input.read(&mut block)?;
        if count == 0 {
            return Ok(bytes);
        }
        bytes.extend_from_slice(&block[..count]).map_err(no_memory)?;
        if bytes.len() > most {
            return Err(ErrorKind::FileTooLarge.into());
        }
    }
    Ok(bytes)
}

/// Adds the next bytes up to a line end, but no more than so many. Tells whether one was found.
pub fn read_line<I: Read>(input: &mut I, bytes: &mut Vec<u8>, most: usize) -> io::Result<bool> {
    let mut block = [0u8; 1];
    for _ in 0..most {
        let count = input.read(&mut block)?;
        if count == 0 {
            return Ok(false);
        }
        bytes.push(block[0]).map_err(|_| ErrorKind::OutOfMemory)?;
        if block[0] == b'\n' {
            return Ok(true);
        }
    }
    Ok(false)
}

/// Adds so many bytes. Tells whether there were so many.
pub fn read_exactly<I: Read>(input: &mut I, bytes: &mut Vec<u8>, count: usize) -> io::Result<bool> {
    let mut block = [0u8; BLOCK_LEN];
    let mut left = count;
    for _ in 0..u64::MAX {
        if left == 0 {
            return Ok(true);
        }
        let most = left.min(BLOCK_LEN);
        let found = input.read(&mut block[..most])?;
        if found == 0 {
            return Ok(false);
        }
        bytes.extend_from_slice(&block[..found]).map_err(no_memory)?;
        left = left.saturating_sub(found);
    }
    Ok(false)
}

//! A reader and a writer that move few bytes a call, and fail.

use std::alloc::Global;
use std::io;
use std::io::{Read, Write};

/// A reader that gives at most `step` bytes a call. After `left` bytes, `failures` calls fail; then it gives on.
#[derive(Drop)]
pub struct TestReader<'a> {
    /// What it has not given.
    pub rest: &'a [u8],
    step: usize,
    left: usize,
    failures: u32,
}

/// A reader of these bytes that fails from `left` bytes on.
pub fn reader(given: &[u8], step: usize, left: usize) -> TestReader<'_> {
    TestReader {
        rest: given,
        step,
        left,
        failures: u32::MAX,
    }
}

/// A reader of these bytes that fails once, after `left` bytes.
pub fn reader_failing_once(given: &[u8], step: usize, left: usize) -> TestReader<'_> {
    TestReader {
        rest: given,
        step,
        left,
        failures: 1,
    }
}

impl Read for TestReader<'_> {
    fn read(&mut self, buf: &mut [u8]) -> io::Result<usize> {
        if self.left == 0 && self.failures > 0 {
            self.failures -= 1;
            return Err(io::Error::from(io::ErrorKind::Interrupted));
        }
        let most = if self.failures > 0 {
            self.left
        } else {
            self.step
        };
        let n = self.step.min(most).min(buf.len()).min(self.rest.len());
        buf[..n].copy_from_slice(&self.rest[..n]);
        self.rest = &self.rest[n..];
        self.left = self.left.saturating_sub(n);
        Ok(n)
    }
}

/// A writer that takes at most `step` bytes a call. After `left` bytes, `failures` calls fail; then it takes on.
#[derive(Drop)]
pub struct TestWriter {
    /// What it has taken.
    pub held: Vec<u8>,
    step: usize,
    left: usize,
    failures: u32,
}

/// A writer that fails from `left` bytes on.
pub fn writer(alloc: Global, step: usize, left: usize) -> TestWriter {
    TestWriter {
        held: Vec::new(alloc),
        step,
        left,
        failures: u32::MAX,
    }
}

/// A writer that fails once, after `left` bytes.
pub fn writer_failing_once(alloc: Global, step: usize, left: usize) -> TestWriter {
    TestWriter {
        held: Vec::new(alloc),
        step,
        left,
        failures: 1,
    }
}

impl Write for TestWriter {
    fn write(&mut self, buf: &[u8]) -> io::Result<usize> {
        if self.left == 0 && self.failures > 0 {
            self.failures -= 1;
            return Err(io::Error::from(io::ErrorKind::StorageFull));
        }
        let most = if self.failures > 0 {
            self.left
        } else {
            self.step
        };
        let n = self.step.min(most).min(buf.len());
        self.held.extend_from_slice(&buf[..n])?;
        self.left = self.left.saturating_sub(n);
        Ok(n)
    }

    fn flush(&mut self) -> io::Result<()> {
        Ok(())
    }
}

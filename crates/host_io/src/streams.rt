//! A reader and a writer whose calls go by steps, for tests.

use std::io;
use std::io::{ErrorKind, Read, Write};

/// What a call does: it passes at most so many bytes, or fails in this way.
#[derive(Clone, Copy)]
pub enum Step {
    Pass(usize),
    Fail(ErrorKind),
}

// Takes the first step: how many bytes pass at most, all of them after the last step.
fn take_step(steps: &mut &[Step]) -> io::Result<usize> {
    let Some((step, rest)) = steps.split_first() else {
        return Ok(usize::MAX);
    };
    *steps = rest;
    match *step {
        Step::Pass(count) => Ok(count),
        Step::Fail(kind) => Err(io::Error::from(kind)),
    }
}

/// A reader of these bytes.
#[derive(Drop)]
pub struct Reader<'a> {
    pub steps: &'a [Step],
    pub left: &'a [u8],
}

impl Read for Reader<'_> {
    fn read(&mut self, buffer: &mut [u8]) -> io::Result<usize> {
        let most = take_step(&mut self.steps)?;
        let count = most.min(self.left.len()).min(buffer.len());
        let (bytes, rest) = self.left.split_at(count);
        buffer[..count].copy_from_slice(bytes);
        self.left = rest;
        Ok(count)
    }
}

/// A writer in which what a call took waits until a flush.
#[derive(Drop)]
pub struct Writer<'a> {
    pub steps: &'a [Step],
    pub waiting: Vec<u8>,
    pub flushed: Vec<u8>,
    pub refuses_flush: bool,
}

impl Write for Writer<'_> {
    fn write(&mut self, bytes: &[u8]) -> io::Result<usize> {
        let most = take_step(&mut self.steps)?;
        let count = most.min(bytes.len());
        self.waiting.extend_from_slice(&bytes[..count])?;
        Ok(count)
    }

    fn flush(&mut self) -> io::Result<()> {
        if self.refuses_flush {
            return Err(io::Error::from(ErrorKind::Other));
        }
        self.flushed.append(&mut self.waiting)?;
        Ok(())
    }
}

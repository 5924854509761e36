// Readers and writers over memory that fail at one call.
use std::alloc::Global;
use std::io;
use std::io::{Error, ErrorKind, Read, Write};

/// Gives at most so many bytes a call. It fails at one call, after so many that don't, and goes on after it.
#[derive(Drop)]
pub(crate) struct Input<'a> {
    rest: &'a [u8],
    a_call: usize,
    calls_before: usize,
    kind: ErrorKind,
    pub(crate) has_failed: bool,
}

impl<'a> Input<'a> {
    pub(crate) fn new(
        rest: &'a [u8],
        a_call: usize,
        calls_before: usize,
        kind: ErrorKind,
    ) -> Input<'a> {
        Input {
            rest,
            a_call,
            calls_before,
            kind,
            has_failed: false,
        }
    }
}

impl Read for Input<'_> {
    fn read(&mut self, buf: &mut [u8]) -> io::Result<usize> {
        if self.calls_before == 0 && !self.has_failed {
            self.has_failed = true;
            return Err(Error::from(self.kind));
        }
        self.calls_before = self.calls_before.saturating_sub(1);
        let rest = self.rest;
        let count = buf.len().min(rest.len()).min(self.a_call);
        buf[..count].copy_from_slice(&rest[..count]);
        self.rest = &rest[count..];
        Ok(count)
    }
}

/// Takes at most so many bytes a call. One call, after so many others, fails, or takes no byte where no error is given; the
/// calls after it go well.
#[derive(Drop)]
pub(crate) struct Output {
    taken: Vec<u8>,
    a_call: usize,
    calls_before: usize,
    kind: Option<ErrorKind>,
    pub(crate) has_failed: bool,
    flushed: usize,
    pub(crate) flush_calls: usize,
    /// How many flushes had something new to flush.
    pub(crate) flushes: usize,
}

impl Output {
    pub(crate) fn new(
        alloc: Global,
        a_call: usize,
        calls_before: usize,
        kind: Option<ErrorKind>,
    ) -> Output {
        Output {
            taken: Vec::new(alloc),
            a_call,
            calls_before,
            kind,
            has_failed: false,
            flushed: 0,
            flush_calls: 0,
            flushes: 0,
        }
    }

    /// What was taken; `?` where that isn't a text.
    pub(crate) fn text(&self) -> &str {
        std::str::from_utf8(&self.taken).unwrap_or("?")
    }

    /// Whether this is the call that goes wrong.
    fn fails(&mut self) -> bool {
        if self.calls_before == 0 && !self.has_failed {
            self.has_failed = true;
            return true;
        }
        self.calls_before = self.calls_before.saturating_sub(1);
        false
    }
}

impl Write for Output {
    fn write(&mut self, buf: &[u8]) -> io::Result<usize> {
        if self.fails() {
            return match self.kind {
                Some(kind) => Err(Error::from(kind)),
                None => Ok(0),
            };
        }
        let count = buf.len().min(self.a_call);
        self.taken.extend_from_slice(&buf[..count])?;
        Ok(count)
    }

    fn flush(&mut self) -> io::Result<()> {
        self.flush_calls = self.flush_calls.saturating_add(1);
        if self.fails() {
            return Err(Error::from(self.kind.unwrap_or(ErrorKind::Other)));
        }
        if self.taken.len() > self.flushed {
            self.flushed = self.taken.len();
            self.flushes = self.flushes.saturating_add(1);
        }
        Ok(())
    }
}

/// Gives so many blanks, and counts the calls.
#[derive(Drop)]
pub(crate) struct Blanks {
    pub(crate) left: usize,
    pub(crate) calls: usize,
}

impl Read for Blanks {
    fn read(&mut self, buf: &mut [u8]) -> io::Result<usize> {
        self.calls = self.calls.saturating_add(1);
        let count = buf.len().min(self.left);
        buf[..count].fill(b' ');
        self.left -= count;
        Ok(count)
    }
}

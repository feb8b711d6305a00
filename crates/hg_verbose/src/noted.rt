//! Streams that note what a meaning rests on, and otherwise act as the streams that they wrap.

use crate::lines::Lines;
use std::alloc::Global;
use std::io;
use std::io::{ErrorKind, Read, Write};

/// How many bytes of the end of a text are kept.
const MOST_KEPT: usize = 64;

/// Keeps an error. An interruption is none.
fn note(kept: &mut Option<io::Error>, error: io::Error) {
    if error.kind() != ErrorKind::Interrupted {
        *kept = Some(error);
    }
}

/// A reader that keeps its last error, and shows what it reads to the lines of its text.
#[derive(Drop)]
pub struct NotedReader<R> {
    stream: R,
    lines: Lines,
    error: Option<io::Error>,
}

impl<R: Read> NotedReader<R> {
    /// Wraps a reader that was not called yet, and lines of which none was seen.
    pub fn new(stream: R, lines: Lines) -> NotedReader<R> {
        NotedReader {
            stream,
            lines,
            error: None,
        }
    }
}

impl<R> NotedReader<R> {
    /// The error of the last read that failed.
    pub fn error(&self) -> Option<io::Error> {
        self.error
    }

    /// The lines of what was read.
    pub fn lines(&mut self) -> &mut Lines {
        &mut self.lines
    }
}

impl<R: Read> Read for NotedReader<R> {
    ghost remaining = { λ r. R.Read.remaining r.stream };

    fn read(&mut self, buf: &mut [u8]) -> io::Result<usize> {
        match self.stream.read(buf) {
            Ok(count) => {
                self.lines.see(&buf[..count]);
                Ok(count)
            }
            Err(error) => {
                note(&mut self.error, error);
                Err(error)
            }
        }
    }
}

/// A writer that keeps its last error, and the end of what it wrote.
#[derive(Drop)]
pub struct NotedWriter<W> {
    stream: W,
    end: Vec<u8>,
    error: Option<io::Error>,
}

/// Appends a text to the kept end, of which at most the last 64 bytes stay.
fn keep_end(end: &mut Vec<u8>, text: &[u8]) {
    let from = text.len().saturating_sub(MOST_KEPT);
    let tail = &text[from..];
    if end.len().saturating_add(tail.len()) > MOST_KEPT {
        let more = end.len().saturating_add(tail.len()) - MOST_KEPT;
        drop_front(end, more);
    }
    if end.extend_from_slice(tail).is_err() {
        end.clear();
    }
}

/// Drops bytes in front.
fn drop_front(end: &mut Vec<u8>, count: usize) {
    let count = count.min(end.len());
    for k in count..end.len() {
        end[k - count] = end[k];
    }
    let rest = end.len() - count;
    end.truncate(rest);
}

impl<W: Write> NotedWriter<W> {
    /// Wraps a writer that was not called yet.
    pub fn new(alloc: Global, stream: W) -> NotedWriter<W> {
        NotedWriter {
            stream,
            end: Vec::new(alloc),
            error: None,
        }
    }
}

impl<W> NotedWriter<W> {
    /// The error of the last write or flush that failed.
    pub fn error(&self) -> Option<io::Error> {
        self.error
    }

    /// The end of what was written.
    pub fn end(&self) -> &[u8] {
        self.end.as_slice()
    }
}

impl<W: Write> Write for NotedWriter<W> {
    ghost contents = { λ w. W.Write.contents w.stream };

    fn write(&mut self, buf: &[u8]) -> io::Result<usize> {
        match self.stream.write(buf) {
            Ok(count) => {
                keep_end(&mut self.end, &buf[..count]);
                Ok(count)
            }
            Err(error) => {
                note(&mut self.error, error);
                Err(error)
            }
        }
    }

    fn flush(&mut self) -> io::Result<()> {
        match self.stream.flush() {
            Ok(()) => Ok(()),
            Err(error) => {
                note(&mut self.error, error);
                Err(error)
            }
        }
    }
}

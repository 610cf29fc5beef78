use std::io;
use std::io::{Stderr, Stdout, Write};

/// A stream that the program was started with.
#[derive(Drop)]
pub enum Standard {
    Output(Stdout),
    Error(Stderr),
}

impl Write for Standard {
    fn write(&mut self, bytes: &[u8]) -> io::Result<usize> {
        match self {
            Standard::Output(stream) => stream.write(bytes),
            Standard::Error(stream) => stream.write(bytes),
        }
    }

    fn flush(&mut self) -> io::Result<()> {
        match self {
            Standard::Output(stream) => stream.flush(),
            Standard::Error(stream) => stream.flush(),
        }
    }
}

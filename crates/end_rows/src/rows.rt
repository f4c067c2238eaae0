// Rows of text: columns between bars. In a column of bytes, `;` stands for LF.
use outside_files::start::words_of;
use std::alloc::Global;
use std::io;
use std::io::{ErrorKind, Read};

/// The first column of a row, and the rest of the row.
pub(crate) fn cut(row: &str) -> (&str, &str) {
    let (column, rest) = row.split_once('|').unwrap_or((row, ""));
    (column.trim(), rest)
}

/// The bytes that a column stands for.
pub(crate) fn bytes_of(alloc: Global, column: &str) -> io::Result<Vec<u8>> {
    let mut bytes = Vec::from_slice(alloc, column.as_bytes())?;
    for byte in bytes.iter_mut() {
        if *byte == b';' {
            *byte = b'\n';
        }
    }
    Ok(bytes)
}

/// The words of a command. `?` stands for words for which there is no memory.
fn split(alloc: Global, command: &str) -> io::Result<Vec<String>> {
    if command == "?" {
        return Err(io::Error::from(ErrorKind::OutOfMemory));
    }
    let mut all = Vec::new(alloc);
    for word in command.split_whitespace() {
        all.push(String::from_str(alloc, word)?)?;
    }
    Ok(all)
}

/// The words of a command, as a program gets them.
pub(crate) fn words(alloc: Global, command: &str) -> Option<Vec<String>> {
    words_of(alloc, split(alloc, command))
}

/// What a program reads. `?` stands for what cannot be read.
#[derive(Drop)]
pub(crate) struct Script<'a>(pub &'a [u8]);

impl<'a> Read for Script<'a> {
    fn read(&mut self, into: &mut [u8]) -> io::Result<usize> {
        if self.0 == b"?".as_slice() {
            return Err(io::Error::from(ErrorKind::InvalidData));
        }
        self.0.read(into)
    }
}

/// Whether a program ended with the status of a column, and with this first line on standard error.
pub(crate) fn ended_so(status: u8, errors: &[u8], wanted: &str, line: &str) -> bool {
    let text = str::from_utf8(errors).unwrap_or("?");
    wanted.parse::<u8>().unwrap_or(0) == status && text.lines().next().unwrap_or("") == line
}

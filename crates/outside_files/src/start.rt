// What a program begins with.
ghost use Rattle.std.specs.Prelude.{◌≡◌, ◌≢◌, true, [], None, Some, Err, is_some, drop, IfSome, IfOk, IfErr, OnOk};
ghost use Rattle.std.specs.Fs.{new_options, with_read, with_write};
ghost use Rattle.std.specs.IoError.{error_kind};
ghost use Rattle.std.specs.Vec.Iter.{into_iter_items};

use std::alloc::{AllocError, Global};
use std::env::Args;
use std::fs::OpenOptions;
use std::io;
use std::io::ErrorKind;

/// The name of the file of the trace, in the working folder.
pub const TRACE_NAME: &str = "hp.trace";

/// The path of the null device, which is empty and takes all bytes. If a standard stream was closed before a program began, the next
/// file that the program opens gets the number of that stream, and what is printed would go to that file, perhaps to a pack. A program
/// that holds three handles of the null device avoids this.
pub const NULL_DEVICE: &str = "/dev/null";

/// How the null device is opened: for reading and writing, and only if it exists.
pub fn both_ways() -> OpenOptions
    ensures { result ≡ with_write (with_read new_options true) true }
{
    let mut how = OpenOptions::new();
    how.read(true).write(true);
    how
}

/// The words after the first.
fn collected(alloc: Global, args: Args) -> Result<Vec<String>, AllocError>
    ensures { IfOk result (λ list. list.items ≡ drop 1 (into_iter_items args)) }
{
    args.skip(1).collect(alloc)
}

/// The words after the program's name, from what `env::args` answered. An error of that call is handed on. The only other error is
/// that there is no memory for the words.
pub fn words(alloc: Global, args: io::Result<Args>) -> io::Result<Vec<String>>
    ensures text { IfOk args (λ all. IfOk result (λ list. list.items ≡ drop 1 (into_iter_items all))) }
    ensures error { IfErr args (λ error. result ≡ Err error) }
    ensures no_memory { OnOk args (IfErr result (λ error. error_kind error ≡ ErrorKind.OutOfMemory)) }
{
    let words = collected(alloc, args?)?;
    Ok(words)
}

/// The words of a command, from what `words` answered. `None` if there was no memory for them. If one of them is not text, the list
/// is empty, and an empty list is no command.
pub fn words_of(alloc: Global, words: io::Result<Vec<String>>) -> Option<Vec<String>>
    ensures text { IfOk words (λ list. result ≡ Some list) }
    ensures no_memory { IfErr words (λ error. error_kind error ≡ ErrorKind.OutOfMemory → result ≡ None) }
    ensures no_text { IfErr words (λ error. error_kind error ≢ ErrorKind.OutOfMemory → is_some result ≡ true) }
    ensures none { IfErr words (λ _. IfSome result (λ list. list.items ≡ [])) }
{
    match words {
        Ok(words) => Some(words),
        Err(error) if error.kind() == ErrorKind::OutOfMemory => None,
        Err(_) => Some(Vec::new(alloc)),
    }
}

// The file that an argument names, read into a lent buffer.
//
// A buffer has one byte more than the longest shelf or wanted list, or than the most that a page's length field can tell.
// So a longer file fills it, and is refused by that length as it would be by its own: as a shelf, 1; as a page, 4, and
// as a wanted list, 9, unless the shelf or a page's byte 0 is refused before. What follows in the file changes no answer.
ghost use Rattle.std.specs.Prelude.{◌≡◌, IfOk, IfSome, length};
ghost use Rattle.tool_input.specs.Counts.{IsPrefixLen};

use crate::arguments;
use shelf::limits;
use std::env::FillError;
use std::fmt::InlineText;
use std::fs::File;
use std::io;
use std::io::{ErrorKind, Read};
use std::rt::{Env, Files};

pub const BLOCK_ROOM: usize = limits::LONGEST_BLOCK + 1;

pub const WANTED_ROOM: usize = limits::LONGEST_WANTED_LIST + 1;

pub const PAGE_ROOM: usize = 0xffff + 4 + 1;

// The system takes no longer path.
const PATH_ROOM: usize = 4096;

// How many bytes of the file stand at the start of the buffer then, if it could be read. What keeps it from being read goes to standard
// error with the usage, under the argument's name if it is too long for a path. The one error is that this could not be written; the
// buffer then keeps whatever was read.
pub fn load<R: Env + Files>(
    rt: &R,
    err: &impl Print,
    argument: u8,
    name: &str,
    buffer: &mut [u8],
) -> io::Result<Option<usize>>
    ensures prefix { IfOk result (λ loaded. IfSome loaded (λ n. IsPrefixLen n buffer.new)) }
    ensures room { length buffer.new ≡ length buffer.old }
{
    let mut path = [0u8; PATH_ROOM];
    match rt.arg(argument as usize, &mut path) {
        Ok(n) => load_named(rt, err, &path[..n], buffer),
        Err(e) => {
            say_failed(err, name.as_bytes(), no_path(e))?;
            Ok(None)
        }
    }
}

fn load_named<R: Files>(
    rt: &R,
    err: &impl Print,
    path: &[u8],
    buffer: &mut [u8],
) -> io::Result<Option<usize>>
    ensures prefix { IfOk result (λ loaded. IfSome loaded (λ n. IsPrefixLen n buffer.new)) }
    ensures room { length buffer.new ≡ length buffer.old }
{
    match read_named(rt, path, buffer) {
        Ok(n) => Ok(Some(n)),
        Err(e) => {
            say_failed(err, path, e)?;
            Ok(None)
        }
    }
}

// A path need not be text.
fn say_failed(err: &impl Print, name: &[u8], why: io::Error) -> io::Result<()> {
    err.write_all(name)?;
    err.print(": ")?;
    say_why(err, why)?;
    err.print("\n")?;
    arguments::say_usage(err)
}

// The system's words, without its number behind them.
fn say_why(err: &impl Print, why: io::Error) -> io::Result<()> {
    let told = InlineText::<128>::of(why);
    match told.as_str().split_once(" (os error ") {
        Some((words, _)) => err.print(words),
        None => err.print(told.as_str()),
    }
}

fn no_path(e: FillError) -> io::Error {
    match e {
        FillError::NotPresent => io::Error::new(ErrorKind::InvalidInput, "Invalid argument"),
        FillError::TooLong => io::Error::new(ErrorKind::InvalidFilename, "File name too long"),
    }
}

// The library opens a file by a name that is text.
fn open<R: Files>(rt: &R, path: &[u8]) -> io::Result<R::File> {
    match str::from_utf8(path) {
        Ok(path) => File::open(rt, path),
        Err(_) => Err(io::Error::new(
            ErrorKind::InvalidFilename,
            "Invalid or incomplete multibyte or wide character",
        )),
    }
}

fn read_named<R: Files>(rt: &R, path: &[u8], buffer: &mut [u8]) -> io::Result<usize>
    ensures prefix { IfOk result (λ n. IsPrefixLen n buffer.new) }
    ensures room { length buffer.new ≡ length buffer.old }
{
    let mut file = open(rt, path)?;
    read_full(&mut file, buffer)
}

// Reads until the buffer is full or the file ends: by as many bytes as a read gives, so in no `for`, and std has no method that takes a
// shorter file. A full buffer does not show whether what follows can be read: one more read does.
fn read_full(file: &mut impl Read, buffer: &mut [u8]) -> io::Result<usize>
    ensures prefix { IfOk result (λ n. IsPrefixLen n buffer.new) }
    ensures room { length buffer.new ≡ length buffer.old }
{
    let mut done = 0;
    while done < buffer.len() {
        let n = file.read(&mut buffer[done..])?;
        if n == 0 {
            return Ok(done);
        }
        done += n;
    }
    let mut next = [0u8; 1];
    file.read(&mut next)?;
    Ok(done)
}

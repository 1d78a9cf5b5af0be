// The program: an element file in, its result file out.
//
//     propagate [FILE]
//
// Reads the file that is named, or standard input where none is, and writes the result file to standard
// output. What cannot be read or written is said on standard error, with its name, and no result file
// is written then: a failed read is not an empty file. The exit status is always 0, so whoever runs it
// looks at what it wrote: an empty output is never a result file.
#![tactic(auto)]

mod reason;

ghost use Rattle.std.specs.Prelude.{◌≡◌, List, ◌++◌, ℕ, ◌+◌, ◌<◌, length, take};
ghost use Rattle.std.specs.Counts.{IsPrefixLen};
ghost use Rattle.files_reader.specs.Reader.{longest_file};
ghost use Rattle.files_results.specs.Results.{result_file};

use files_results::LONGEST_RESULT;
use reason::Reason;
use std::env::{Env, FillError};
use std::fs::File;
use std::io::{Cursor, Read, Write};
use std::{io, str};

fn main(rt: HostRuntime) {
    if is_given(&rt, 2) {
        let _ = streams::write_whole(&mut rt.stderr(), b"usage: propagate [FILE]\n");
    } else if is_given(&rt, 1) {
        propagate_named(&rt);
    } else {
        propagate(&rt, rt.stdin(), b"standard input");
    }
}

// Whether there is an argument of this number, of whatever length.
fn is_given(rt: &HostRuntime, number: usize) -> bool {
    !matches!(rt.arg(number, &mut []), Err(FillError::NotPresent))
}

// The file that the first argument names.
fn propagate_named(rt: &HostRuntime) {
    let mut room = [0u8; 4096];
    let path = match rt.arg(1, &mut room) {
        Ok(size) => &room[..size],
        Err(FillError::TooLong) => return fail(rt, b"the name of the file", Reason::NameTooLong),
        Err(FillError::NotPresent) => return fail(
            rt,
            b"the name of the file",
            Reason::InvalidArgument,
        ),
    };
    match open(rt, path) {
        Ok(file) => propagate(rt, file, path),
        Err(error) => fail(rt, path, error),
    }
}

// A name that is not UTF-8 cannot be opened.
fn open(rt: &HostRuntime, path: &[u8]) -> io::Result<File> {
    let text = str::from_utf8(path).map_err(|_| Reason::NotText)?;
    File::open(rt, text)
}

// How many bytes of a file are read: one more than the longest accepted file has.
const READ: usize = files_formats::LONGEST_FILE + 1;

// A file that is open, and is called by this name.
//
// The file is closed before anything is written: where an output was closed when the program started,
// the file has been given that output's number.
fn propagate<R: Read + Drop>(rt: &HostRuntime, mut input: R, name: &[u8]) {
    let mut file = [0u8; READ];
    match streams::read_whole(&mut input, &mut file) {
        Ok(size) => {
            drop(input);
            answer(rt, &file, size);
        }
        Err(error) => fail(rt, name, error),
    }
}

// Writes the result file of an element file, of which so many bytes were read, to standard output.
fn answer(rt: &HostRuntime, file: &[u8], size: usize)
    requires { IsPrefixLen size file.now × (length file.now ≡ longest_file + 1) }
{
    let mut room = [0u8; LONGEST_RESULT];
    let size = results_of(&file[..size], &mut room);
    if let Err(error) = streams::write_whole(&mut rt.stdout(), &room[..size]) {
        fail(rt, b"standard output", error);
    }
}

// The result file of what was read stands at the start of the room, which is as long as the longest. Answers its size. Where more
// was read than the longest accepted file has, it is the result file of every longer file that begins so: the reader walks forward, no
// word that it asks for stands behind byte 56,160, and where it finds no fault before, a byte is left after the last section: 25.
fn results_of(file: &[u8], room: &mut [u8; LONGEST_RESULT]) -> usize
    ensures size { IsPrefixLen result room.new }
    ensures read { take result room.new ≡ result_file file.now }
    ensures longer { longest_file < length file.now → (rest : List ℕ) → take result room.new ≡ result_file (file.now ++ rest) }
{
    let outcome = files_results::write_results(file, room);
    outcome.unwrap()
}

// Says on standard error what failed, and why. The reason is the C library's text alone: std adds its number.
fn fail(rt: &HostRuntime, what: &[u8], error: impl Into<io::Error>) {
    let error: io::Error = error.into();
    let mut room = [0u8; 288];
    let mut said = Cursor::new(&mut room[..]);
    let _ = write!(said, "{error}");
    let size = said.position().min(288) as usize;
    let text = str::from_utf8(&room[..size]).unwrap_or("");
    let reason = text
        .split_once(" (os error ")
        .map_or(text, |(reason, _)| reason);
    // Where standard error takes nothing, there is nowhere left to say so.
    let mut errors = rt.stderr();
    let _ = streams::write_whole(&mut errors, what);
    let _ = streams::write_whole(&mut errors, b": ");
    let _ = streams::write_whole(&mut errors, reason.as_bytes());
    let _ = streams::write_whole(&mut errors, b"\n");
}

// A file under a name, for a program: the bytes go to a temporary file beside it, which takes the name once they have reached the
// device. So the name is never that of a part of the file. Whatever fails is said on the standard error, after the program's own
// name, with the system's reason.
#![tactic(auto)]

mod reasons;

ghost use Rattle.std.specs.Prelude.{◌≡◌, ◌+◌, ◌≤◌, length};
ghost use Rattle.std.specs.Result.{result_ok};
ghost use Rattle.io.specs.Counts.{IsPrefixLen};
ghost use Rattle.named_files.specs.Names.{longest_name, longest_program, longest_addition};

pub use reasons::say_failed;
use std::env::{Env, FillError};
use std::fs::{OpenFile, OpenOptions};
use std::io::{Error, ErrorKind, Write};
use std::os::unix::fs::OpenOptionsExt;
use std::rt::Files;
use std::{fs, str};
use text_writer::Text;

pub const LONGEST_NAME: usize = 4000;

// A program's name with a colon and a blank.
const LONGEST_PROGRAM: usize = 16;

// The most bytes that stand before or after a name.
const LONGEST_ADDITION: usize = 32;

// The longest name of a temporary file.
pub const LONGEST_TEMP: usize = LONGEST_NAME + LONGEST_ADDITION;

// How many names are tried for a temporary file: as many as six digits have.
const MOST_TEMPS: u32 = 1000000;

// Who may read and write a temporary file: its owner.
const OWNER_ONLY: u32 = 0o600;

// The system's numbers for a name that is taken, and for bytes that are no text.
const TAKEN: i32 = 17;

const NO_TEXT: i32 = 84;

// What failed has been said.
#[derive(Clone, Copy, PartialEq, Eq)]
pub struct Said;

// The name that a temporary file beside a name is asked for: the letters at its end are replaced. How long it is.
pub fn temp_name(name: &[u8], out: &mut [u8]) -> usize
    requires { (length name.now ≤ longest_name) × (longest_name + longest_addition ≤ length out.old) }
    ensures { IsPrefixLen result out.new }
{
    let mut text = Text::new(out);
    text.put(name);
    text.put(b".XXXXXX");
    text.end
}

// The name of a file that a program reads or makes, and the program's own name with a colon and a blank.
#[derive(Clone, Copy)]
pub struct Named<'a> {
    pub program: &'a [u8],
    pub name: &'a [u8],
    ghost short: { (length program.now ≤ longest_program) × (length name.now ≤ longest_name) },
}

impl Named<'_> {
    // Says what failed, and why.
    pub fn fail(self, what: &[u8], error: &Error)
        requires { length what.now ≤ longest_addition }
    {
        let mut space = [0u8; LONGEST_PROGRAM + LONGEST_ADDITION + LONGEST_NAME];
        let mut text = Text::new(&mut space);
        text.put(self.program);
        text.put(what);
        text.put(self.name);
        let length = text.end;
        say_failed(&space[..length], error);
    }

    // What was done, if it was; what failed is said.
    pub fn said<T>(self, done: Result<T, Error>, what: &[u8]) -> Result<T, Said>
        requires { length what.now ≤ longest_addition }
        ensures { result_ok result ≡ result_ok done }
    {
        match done {
            Ok(value) => Ok(value),
            Err(error) => {
                self.fail(what, &error);
                Err(Said)
            }
        }
    }

    // The name that a temporary file beside the name is asked for; see the function.
    pub fn temp_name(self, out: &mut [u8]) -> usize
        requires { longest_name + longest_addition ≤ length out.old }
        ensures { IsPrefixLen result out.new }
    {
        temp_name(self.name, out)
    }

    // Makes the temporary file beside the name.
    pub fn create_beside<F: Files>(self, files: &F, temp: &mut [u8]) -> Result<F::File, Said> {
        self.said(create_temp(files, temp), b"cannot create a file beside ")
    }

    // Writes all the bytes to the file that is to have the name.
    pub fn write(self, file: &mut impl Write, bytes: &[u8]) -> Result<(), Said> {
        self.said(file.write_all(bytes), b"cannot write ")
    }

    // Closes the file that is to have the name: all that was written has reached the device.
    pub fn finish(self, file: impl OpenFile + Drop) -> Result<(), Said> {
        self.said(file.sync_all(), b"cannot write ")
    }

    // The temporary file takes the name.
    pub fn take_name(self, files: &impl Files, temp: &[u8]) -> Result<(), Said> {
        self.said(rename(files, temp, self.name), b"cannot rename a file to ")
    }
}

// A name as the library takes it, which knows names that are text alone.
pub fn path_of(name: &[u8]) -> Result<&str, Error> {
    str::from_utf8(name).map_err(|_| Error::from_raw_os_error(NO_TEXT))
}

// The last six letters of a name become the digits of a number.
fn number_last(temp: &mut [u8], n: u32) {
    let mut rest = n;
    for letter in temp.iter_mut().rev().take(6) {
        *letter = b'0' + (rest % 10) as u8;
        rest /= 10;
    }
}

// Makes a file of a name that no file has, which its owner alone may read and write.
fn create_new<F: Files>(files: &F, temp: &[u8]) -> Result<F::File, Error> {
    let path = path_of(temp)?;
    OpenOptions::new()
        .read(true)
        .write(true)
        .create_new(true)
        .mode(OWNER_ONLY)
        .open(files, path)
}

// Makes a file of the first such name that no file has. `temp` then is its name.
fn create_temp<F: Files>(files: &F, temp: &mut [u8]) -> Result<F::File, Error> {
    for i in 0..MOST_TEMPS {
        number_last(temp, i);
        match create_new(files, temp) {
            Err(error) if error.kind() == ErrorKind::AlreadyExists => {}
            done => return done,
        }
    }
    Err(Error::from_raw_os_error(TAKEN))
}

fn rename(files: &impl Files, temp: &[u8], name: &[u8]) -> Result<(), Error> {
    fs::rename(files, path_of(temp)?, path_of(name)?)
}

// Removes a file that a program has made, if it can.
pub fn remove(files: &impl Files, name: &[u8]) {
    if let Ok(path) = path_of(name) {
        let _ = fs::remove_file(files, path);
    }
}

// Whether there is an argument of this number, of any length.
pub fn has_argument(rt: &impl Env, i: usize) -> bool {
    let mut none = [0u8; 1];
    !matches!(rt.arg(i, &mut none), Err(FillError::NotPresent))
}

// A file under a new name, which no file may have: the name is taken with an empty file, from which the temporary file takes it.
use named_files::{LONGEST_TEMP, Named, Said, path_of, remove};
use std::fs::{OpenFile, OpenOptions};
use std::io::{Error, Write};
use std::rt::Files;

// Writes the bytes to a new file and closes it: they have all reached the device.
fn fill(mut new: impl Write + OpenFile + Drop, file: &[u8], name: Named) -> Result<(), Said> {
    name.write(&mut new, file)?;
    name.finish(new)
}

// Makes an empty file of a name that no file may have.
fn create(files: &impl Files, name: &[u8]) -> Result<(), Error> {
    let path = path_of(name)?;
    let _ = OpenOptions::new()
        .write(true)
        .create_new(true)
        .open(files, path)?;
    Ok(())
}

// The name, which no file may have, is taken with an empty file, and the temporary file takes it from that one.
fn claim(files: &impl Files, temp: &[u8], name: Named) -> Result<(), Said> {
    name.said(create(files, name.name), b"cannot create ")?;
    let done = name.take_name(files, temp);
    if done.is_err() {
        remove(files, name.name);
    }
    done
}

// Makes the temporary file, whose name ends in XXXXXX, and the file from it.
fn put_by(files: &impl Files, temp: &mut [u8], file: &[u8], name: Named) {
    let Ok(new) = name.create_beside(files, temp) else {
        return;
    };
    if fill(new, file, name).is_err() || claim(files, temp, name).is_err() {
        remove(files, temp);
    }
}

pub fn put(files: &impl Files, file: &[u8], name: Named) {
    let mut space = [0u8; LONGEST_TEMP];
    let length = name.temp_name(&mut space);
    put_by(files, &mut space[..length], file, name);
}

// The second file: a temporary file beside it, which takes its name.
use super::copying::copy_all;
use super::messages::print;
use file_facts::{Facts, permissions};
use named_files::{LONGEST_TEMP, Named, Said, remove};
use std::fs::{OpenFile, Permissions};
use std::io::{Print, Read, Write};
use std::os::unix::fs::PermissionsExt;
use std::rt::Files;

// Copies to the temporary file and closes it. It gets the first file's permissions where the system keeps any.
fn fill(
    file: &mut impl Read,
    mut out: impl Write + OpenFile + Drop,
    facts: Option<Facts>,
    old: Named,
    new: Named,
) -> Result<u64, Said> {
    let changed = copy_all(file, &mut out, old, new)?;
    if let Some(facts) = facts {
        let _ = out.set_permissions(Permissions::from_mode(permissions(facts)));
    }
    new.finish(out)?;
    Ok(changed)
}

// Makes the temporary file, whose name ends in XXXXXX, and the second file from it. How many tickets were changed.
fn copy_by(
    files: &impl Files,
    file: &mut impl Read,
    facts: Option<Facts>,
    temp: &mut [u8],
    old: Named,
    new: Named,
) -> Result<u64, Said> {
    let out = new.create_beside(files, temp)?;
    let done = match fill(file, out, facts, old, new) {
        Ok(changed) => new.take_name(files, temp).map(|()| changed),
        Err(said) => Err(said),
    };
    if done.is_err() {
        remove(files, temp);
    }
    done
}

// Copies the file that is open, of which that is known.
pub fn copy(
    rt: &(impl Files + Print),
    file: &mut impl Read,
    facts: Option<Facts>,
    old: Named,
    new: Named,
) {
    let mut space = [0u8; LONGEST_TEMP];
    let length = new.temp_name(&mut space);
    if let Ok(changed) = copy_by(rt, file, facts, &mut space[..length], old, new) {
        print(rt, changed);
    }
}

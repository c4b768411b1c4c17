// What the system knows of the file that a name leads to: which one it is, and its mode.
#![tactic(auto)]

ghost use Rattle.std.specs.Prelude.{◌≡◌, ◌<◌, length, true, IfSome};
ghost use Rattle.file_facts.specs.Modes.{there, regular, same_file, permission_bits};

use std::fs::Metadata;
use std::os::unix::fs::MetadataExt;
use std::rt::Files;
use std::{fs, str};

// The file's device and its number there; its kind and its permissions.
#[derive(Clone, Copy, PartialEq, Eq)]
pub struct Facts {
    pub device: u64,
    pub number: u64,
    pub mode: u32,
}

impl From<Metadata> for Facts {
    fn from(found: Metadata) -> Facts {
        Facts {
            device: found.dev(),
            number: found.ino(),
            mode: found.mode(),
        }
    }
}

// Whether they are a file's: none has the mode 0.
pub fn is_there(facts: Facts) -> bool
    ensures { result ≡ there facts }
{
    facts.mode != 0
}

// None where there is no file. A name that is no text leads to no file that the library can reach.
pub fn facts_of(files: &impl Files, name: &[u8]) -> Option<Facts>
    requires { length name.now < 4096 }
    ensures { IfSome result (λ facts. there facts ≡ true) }
{
    let path = str::from_utf8(name).ok()?;
    let facts = Facts::from(fs::metadata(files, path).ok()?);
    if is_there(facts) { Some(facts) } else { None }
}

pub fn is_regular(facts: Facts) -> bool
    ensures { result ≡ regular facts }
{
    facts.mode / 4096 % 16 == 8
}

// Whether both are one file's, whatever its mode was.
pub fn are_same(a: Facts, b: Facts) -> bool
    ensures { result ≡ same_file a b }
{
    is_there(a) && is_there(b) && a.device == b.device && a.number == b.number
}

pub fn permissions(facts: Facts) -> u32
    ensures { result ≡ permission_bits facts }
{
    facts.mode % 512
}

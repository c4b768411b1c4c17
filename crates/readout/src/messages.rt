// The lines on the standard error.
use readout_spec::NoFile;

// The descriptor of the standard error.
const STDERR_FILENO: i32 = 2;

fn say(line: &[u8]) {
    io::write_all(STDERR_FILENO, line);
}

pub fn say_usage() {
    say(b"readout: one argument at most, the name of a new file\n");
}

pub fn say_short() {
    say(b"readout: the input is short\n");
}

// Why there is no file, with the refusal's number.
pub fn say_no_file(cause: NoFile) {
    match cause {
        NoFile::Unfit => say(
            b"readout: no file, 2: structure or size unknown, or over 101 nodes wait\n",
        ),
        NoFile::TreeLength => say(b"readout: no file, 3: the tree has another length\n"),
        NoFile::NotClosed => say(
            b"readout: no file, 14: the store was not closed by 8 (damage) or 9 (overflow)\n",
        ),
        NoFile::ShortBuffer => say(b"readout: no file, 15: the output buffer is too short\n"),
    }
}

// The lines that are printed.
ghost use Rattle.std.specs.Prelude.{◌≤◌, length};
ghost use Rattle.walk_spec.specs.Lines.{most_leaves};

use call_spec::Refusal;
use operation_spec::Answer;
use text_writer::LONGEST_LINE;
use walk_lines::line;

// The descriptor of the standard output.
const STDOUT_FILENO: i32 = 1;

// A case's label, before what its line or lines say.
pub fn label(text: &[u8]) {
    io::write_all(STDOUT_FILENO, text);
    io::write_all(STDOUT_FILENO, b": ");
}

pub fn number(n: u16, ending: &[u8]) {
    io::print_decimal(STDOUT_FILENO, u64::from(n));
    io::write_all(STDOUT_FILENO, ending);
}

// A number, and what the checksums of what was lent, before and after, say of it.
pub fn verdict(n: u16, before: u64, after: u64) {
    if before == after {
        number(n, b", unchanged\n");
    } else if after == 0 {
        number(n, b"\n  its tree is all zero\n");
    } else {
        number(n, b", changed\n");
    }
}

// The line that the walk program would print, and one where a tree is unchanged.
pub fn reply(answer: Result<Answer, Refusal>, leaves: usize, trace: &[u16], unchanged: bool)
    requires { length trace.now ≤ most_leaves }
{
    let mut out = [0u8; LONGEST_LINE];
    let end = line(answer, leaves, trace, &mut out);
    io::write_all(STDOUT_FILENO, &out[..end]);
    if unchanged {
        io::write_all(STDOUT_FILENO, b"  its tree is unchanged\n");
    }
}

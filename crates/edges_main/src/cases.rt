// A case is run, and its lines are printed.
ghost use Rattle.std.specs.Prelude.{◌≤◌, length};
ghost use Rattle.walk_spec.specs.Lines.{most_leaves};

use super::calls::{Shown, calls};
use super::lines;
use super::rows::{byte, number};
use super::trees::{checksum, filled, put_slot};
use call_draws::MOST_LEAVES;
use call_spec::Refusal;
use opening::open;
use operation_spec::Answer;

// What X says is printed.
#[derive(Clone, Copy, PartialEq, Eq)]
enum Form {
    // 0: the number of a refusal, and whether all that was lent is as it was and the peak is 0.
    Refusal,
    // 1: that of an opening.
    Opening,
    // 2: how many nodes wait.
    Waiting,
    // 3: the line that the walk program would print.
    Line,
    // Any other: that line, and then whether the tree is unchanged.
    LineAndTree,
}

impl From<usize> for Form {
    fn from(x: usize) -> Form {
        match x {
            0 => Form::Refusal,
            1 => Form::Opening,
            2 => Form::Waiting,
            3 => Form::Line,
            _ => Form::LineAndTree,
        }
    }
}

// What a trace buffer holds at first.
const NO_LEAF: u16 = 65521;

fn number_of(reply: Result<Answer, Refusal>) -> u16 {
    match reply {
        Ok(_) => 0,
        Err(refusal) => refusal as u16,
    }
}

fn opening(row: &[usize; 128], tree: &mut [u8]) {
    let sum = checksum(tree);
    let opened = open(byte(row, b's'), byte(row, b'z'), tree);
    lines::verdict(u16::from(opened.mark), sum, checksum(tree));
}

fn show(form: Form, shown: Shown, sum: u64, trace: &[u16])
    requires { length trace.now ≤ most_leaves }
{
    match form {
        Form::Line => lines::reply(shown.reply, shown.leaves, trace, false),
        Form::LineAndTree => lines::reply(shown.reply, shown.leaves, trace, shown.sum == sum),
        Form::Waiting => lines::number(shown.waiting, b"\n"),
        Form::Refusal | Form::Opening => {
            // Another number than the checksum where a leaf was written, or where a call that makes no round has a peak.
            let written = trace.iter().any(|leaf| *leaf != NO_LEAF);
            let after = sum ^ u64::from(written) ^ u64::from(shown.peak != 0);
            lines::verdict(number_of(shown.reply), shown.sum, after);
        }
    }
}

// The calls, with a trace buffer of the row's length for the last.
fn answer(row: &[usize; 128], tree: &mut [u8], form: Form) {
    let mut space = [NO_LEAF; MOST_LEAVES];
    let length = number(row, b'L') % MOST_LEAVES;
    let trace: &mut [u16] = &mut space[..length];
    let shown = calls(row, tree, trace);
    show(form, shown, checksum(tree), trace);
}

fn run(row: &[usize; 128], tree: &mut [u8]) {
    put_slot(row, tree);
    match Form::from(number(row, b'X')) {
        Form::Opening => opening(row, tree),
        form => answer(row, tree, form),
    }
}

pub fn case(label: &[u8], row: &[usize; 128]) {
    let mut space = filled(byte(row, b'F'));
    let length = number(row, b'B');
    lines::label(label);
    run(row, &mut space[..length]);
}

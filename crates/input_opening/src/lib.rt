// The opening that an input in the walk program's format asks for, and what each program that reads one prints where there is no
// store to go on with.
#![tactic(auto)]

ghost use Rattle.std.specs.Prelude.{◌≡◌, ◌≤◌, length, IfSome, MatchResult};
ghost use Rattle.state_spec.specs.Fit.{largest_size};
ghost use Rattle.walk_spec.specs.Input.{largest_tree};

use opening::open;
use state_spec::State;
use text_writer::LONGEST_LINE;
use walk_input::{HEAD_LENGTH, read_part, tree_lent};
use walk_lines::{refused_line, short_line};
use walk_spec::Stop;

// The descriptor of the standard output.
const STDOUT_FILENO: i32 = 1;

// The state of a store: its size is one that stores have.
#[derive(Clone, Copy)]
pub struct Store {
    pub state: State,
    pub ghost sized: { (1 ≤ state.size) × (state.size ≤ largest_size) },
}

// Prints a line; whether all of it could be written.
pub fn print(line: &[u8]) -> bool {
    io::write_all(STDOUT_FILENO, line)
}

// The last line where the input ends within its head or within a call.
pub fn print_short() {
    let mut out = [0u8; LONGEST_LINE];
    let length = short_line(&mut out);
    print(&out[..length]);
}

// What came whole of the input. Where the input ended within it, "short" is printed.
pub fn whole<T>(came: Result<T, Stop>) -> Option<T>
    ensures { MatchResult came (λ part. result ≡ Some part) (λ _. result ≡ None) }
{
    match came {
        Ok(part) => Some(part),
        Err(Stop::End) => None,
        Err(Stop::Short) => {
            print_short();
            None
        }
    }
}

fn print_refused(mark: u8) {
    let mut out = [0u8; LONGEST_LINE];
    let length = refused_line(mark, &mut out);
    print(&out[..length]);
}

// Reads the input's first two bytes, a structure and a size, and opens a store on the first bytes of `space`, as many as a tree of
// that size has. Where the input is short, or the opening refused, that is printed.
pub fn open_input(space: &mut [u8]) -> Option<Store>
    requires { length space.old ≡ largest_tree }
    ensures { IfSome result (λ store. store.state.mark ≡ 0) }
{
    let mut head = [0u8; HEAD_LENGTH];
    if read_part(&mut head).is_err() {
        print_short();
        return None;
    }
    let [structure, size] = head;
    let state = open(structure, size, &mut space[..tree_lent(size)]);
    if state.mark != 0 {
        print_refused(state.mark);
        return None;
    }
    Some(Store { state })
}

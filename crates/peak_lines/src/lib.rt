// The line that the program `peaks` prints for a call. It returns the line's length.
#![tactic(auto)]

ghost use Rattle.std.specs.Prelude.{◌≡◌, ◌++◌, ◌+◌, ◌≤◌, length, drop};
ghost use Rattle.io.specs.Counts.{IsPrefixLen};
ghost use Rattle.walk_spec.specs.Lines.{longest_line, Put};
ghost use Rattle.walk_spec.specs.PeakLines.{named, peak_line};

use round_close::LIMIT;
use text_writer::Text;

// A word, a blank and a number.
fn put_named(text: &mut Text, word: &[u8], n: u64)
    requires { text.old.end + length (named word.now n) ≤ length text.old.out.now }
    ensures same_buffer { text.new.out.ghost_name ≡ text.old.out.ghost_name }
    ensures put { Put (named word.now n) text.old.end text.old.out.now text.new.out.now text.new.end }
{
    text.put(word);
    text.put_number(n);
}

// The peak of a call, and the largest of the run so far.
pub fn peak_line(last: usize, largest: usize, out: &mut [u8]) -> usize
    requires { longest_line ≤ length out.old }
    ensures prefix_len { IsPrefixLen result out.new }
    ensures value { (result ≡ length (peak_line last largest)) × (out.new ≡ peak_line last largest ++ drop result out.old) }
{
    let mut text = Text::new(out);
    put_named(&mut text, b"last", last as u64);
    put_named(&mut text, b" largest", largest as u64);
    put_named(&mut text, b" limit", LIMIT as u64);
    text.put(b"\n");
    text.end
}

// The lines that the walk program prints, each with its newline. They return the line's length.
#![tactic(auto)]

ghost use Rattle.std.specs.Prelude.{◌≡◌, ◌++◌, ◌≤◌, [], length, take, drop};
ghost use Rattle.io.specs.Counts.{IsPrefixLen};
ghost use Rattle.call_spec.specs.Reply.{Refused};
ghost use Rattle.walk_spec.specs.Lines.{line_of, short_line, longest_line, most_leaves};
ghost use Rattle.walk_laws.specs.LinesLaws.{line_with};

use answer_values::reply_shown;
use answer_words::reply_word;
use host_results::Cause;
use operation_spec::Answer;
use text_writer::Text;

// A word, a number, the numbers of a trace and the newline.
fn put_line(word: &[u8], shown: u64, leaves: &[u16], out: &mut [u8]) -> usize
    requires { (length word.now ≤ 8) × ((length leaves.now ≤ most_leaves) × (longest_line ≤ length out.old)) }
    ensures prefix_len { IsPrefixLen result out.new }
    ensures value { (result ≡ length (line_with word.now shown leaves.now)) × (out.new ≡ line_with word.now shown leaves.now ++ drop result out.old) }
{
    let mut text = Text::new(out);
    text.put(word);
    text.put_number(shown);
    text.put_leaves(leaves);
    text.put(b"\n");
    text.end
}

// The line of a call: its reply, and the first n numbers of its trace buffer.
pub fn line<C: Cause>(reply: Result<Answer, C>, n: usize, trace: &[u16], out: &mut [u8]) -> usize
    requires { (length trace.now ≤ most_leaves) × (longest_line ≤ length out.old) }
    ensures prefix_len { IsPrefixLen result out.new }
    ensures value { (result ≡ length (line_of (C.told reply) (take n trace.now))) × (out.new ≡ line_of (C.told reply) (take n trace.now) ++ drop result out.old) }
{
    put_line(
        reply_word(reply),
        reply_shown(reply),
        &trace[..n.min(trace.len())],
        out,
    )
}

// The line of a refusal with that number, which revealed no leaf.
pub fn refused_line(number: u8, out: &mut [u8]) -> usize
    requires { longest_line ≤ length out.old }
    ensures prefix_len { IsPrefixLen result out.new }
    ensures value { (result ≡ length (line_of (Refused number) [])) × (out.new ≡ line_of (Refused number) [] ++ drop result out.old) }
{
    put_line(b"refused", u64::from(number), &[], out)
}

// The last line where the input ends within its head or within a call.
pub fn short_line(out: &mut [u8]) -> usize
    requires { longest_line ≤ length out.old }
    ensures prefix_len { IsPrefixLen result out.new }
    ensures value { (result ≡ length short_line) × (out.new ≡ short_line ++ drop result out.old) }
{
    let mut text = Text::new(out);
    text.put(b"short\n");
    text.end
}

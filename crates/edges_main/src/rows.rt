// A line of the input: a label, a colon, and numbers, each right after its letter. A letter that a line leaves out has the number
// of the last line without a label: there the input's parts start. So a case is added by a line, and by its answer in stdout.
// A state: m mark, s structure, z size, e entries, h k t the root link's height, key and tag, u d the next unused key and the tag
//   drawn ahead, w how many nodes wait;
//   p a place, f 1 if it is full, n g its node's key and tag, a l and b r the heights and keys of its left and right link;
//   q the key of a node that fills place 1 (0: none).
// A tree: B its length, F the byte that fills it, S where a slot with a node starts (past the end: none), V G its key and tag.
// A call: K C W the ticket's kind, key and value, T D L the lengths of ticket, tape and trace buffer, Y Z the tape's second and third
//   number;
//   N how many such calls are made before it, M the bits that are kept of the mark that they leave.
// X: what is printed, as cases.rt says.
ghost use Rattle.std.specs.Prelude.{◌≡◌, ◌<◌, ◌%◌, IfSome};
ghost use Rattle.edges_main.specs.Rows.{number_for};

fn digit(b: u8) -> Option<usize>
    ensures { IfSome result (λ d. d < 10) }
{
    match b {
        b'0'..=b'9' => Some(usize::from(b - b'0')),
        _ => None,
    }
}

// The numbers of a text, and the usual ones for the letters that it does not have.
pub fn row_of(usual: [usize; 128], text: &[u8]) -> [usize; 128] {
    let mut row = usual;
    let mut letter = 0;
    for b in text {
        match digit(*b) {
            Some(d) => row[letter] = row[letter] % 4294967296 * 10 + d,
            None => {
                letter = usize::from(*b % 128);
                row[letter] = 0;
            }
        }
    }
    row
}

// The number of a letter, at four widths.
pub fn number(row: &[usize; 128], letter: u8) -> usize
    ensures { (result ≡ number_for row.now letter % 65536) × (result < 65536) }
{
    row[usize::from(letter % 128)] % 65536
}

pub fn byte(row: &[usize; 128], letter: u8) -> u8
    ensures { result ≡ number_for row.now letter % 65536 % 256 }
{
    (number(row, letter) % 256) as u8
}

pub fn short(row: &[usize; 128], letter: u8) -> u16
    ensures { result ≡ number_for row.now letter % 65536 }
{
    number(row, letter) as u16
}

pub fn key(row: &[usize; 128], letter: u8) -> u32
    ensures { result ≡ number_for row.now letter % 4294967296 }
{
    (row[usize::from(letter % 128)] % 4294967296) as u32
}

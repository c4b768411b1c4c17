// The bytes, piece by piece. A piece is so many whole tickets; the last one may be shorter.
ghost use Rattle.std.specs.Prelude.{◌≡◌, ◌≤◌, length, IfOk};
ghost use Rattle.std.specs.Io.{ReadsAtMost};
ghost use Rattle.ticket_copy_spec.specs.Copy.{file_copy, changed_in};
ghost use Rattle.ticket_copy.specs.Pieces.{longest_piece, Copies};

use named_files::{Named, Said};
use std::io::{Error, Read, Write};
use ticket_pieces::copy_piece;
use tickets::TICKET_LENGTH;

const PIECE: usize = 4096 * TICKET_LENGTH;

// More turns than a run makes, and so few that no count of tickets passes 64 bits.
const MOST_TURNS: u64 = u64::MAX / 4096;

// How many bytes of a piece came, and how many tickets were changed.
#[derive(Clone, Copy)]
struct Turn {
    came: usize,
    changed: u64,
}

// Reads until the piece is full, the file ends or a read fails, as each read brings any number of bytes. How many came: a read that failed is
// no end.
fn read_piece(file: &mut impl Read, piece: &mut [u8]) -> Result<usize, Error>
    ensures { ReadsAtMost result piece.new }
{
    let mut length = 0;
    while length < piece.len() {
        let more = file.read(&mut piece[length..])?;
        if more == 0 {
            return Ok(length);
        }
        length += more;
    }
    Ok(length)
}

// Copies a piece that came, by way of a room of its length, and writes the copy. How many tickets were changed.
fn write_copy(out: &mut impl Write, piece: &[u8], copy: &mut [u8], new: Named) -> Result<u64, Said>
    requires { (length copy.old ≡ length piece.now) × (length piece.now ≤ longest_piece) }
    ensures copied { copy.new ≡ file_copy piece.now }
    ensures counted { IfOk result (λ changed. changed ≡ changed_in piece.now) }
{
    let changed = copy_piece(piece, copy);
    new.write(out, copy)?;
    Ok(changed as u64)
}

// Copies one piece, by way of two rooms: what came stands in the first, its copy in the second.
fn copy_some(
    file: &mut impl Read,
    out: &mut impl Write,
    piece: &mut [u8; PIECE],
    copy: &mut [u8; PIECE],
    old: Named,
    new: Named,
) -> Result<Turn, Said>
    ensures { IfOk result (λ turn. Copies turn.came turn.changed piece.new copy.new) }
{
    let came = old.said(read_piece(file, piece), b"cannot read ")?;
    let changed = write_copy(out, &piece[..came], &mut copy[..came], new)?;
    Ok(Turn { came, changed })
}

// Copies the file. How many tickets were changed. A piece that is not full is the last. A proved loop has to end, and nothing says
// that a file does: no run makes so many turns.
pub fn copy_all(
    file: &mut impl Read,
    out: &mut impl Write,
    old: Named,
    new: Named,
) -> Result<u64, Said> {
    let mut piece = [0u8; PIECE];
    let mut copy = [0u8; PIECE];
    let mut changed: u64 = 0;
    for _ in 0..MOST_TURNS {
        let turn = copy_some(file, out, &mut piece, &mut copy, old, new)?;
        changed += turn.changed;
        if turn.came < PIECE {
            return Ok(changed);
        }
    }
    Err(Said)
}

// Reading a closed store out, for programs.
#![tactic(auto)]

ghost use Rattle.std.specs.Prelude.{◌≡◌, IfOk};
ghost use Rattle.io.specs.Counts.{IsPrefixLen};
ghost use Rattle.readout_spec.specs.ReadOut.{read_out_leaving, to_read_out, read_out};

use readout_spec::NoFile;
use state_spec::State;
use store_readout::read_out;

// Reads a closed store out into `out`: a file's length is within it.
pub fn read_into(state: State, tree: &[u8], out: &mut [u8]) -> Result<usize, NoFile>
    ensures prefix_len { IfOk result (λ n. IsPrefixLen n out.new) }
    ensures left { read_out_leaving (to_read_out result) out.new ≡ read_out state tree.now out.old }
{
    read_out(state, tree, out)
}

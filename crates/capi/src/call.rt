// A build over decoded words, with its answer as one i64.
ghost use Rattle.std.specs.Prelude.{◌*◌, ◌≤◌, length};
ghost use Rattle.row.specs.Writes.{Writes};
ghost use Rattle.row.specs.Answer.{at};
ghost use Rattle.row.specs.Gates.{through};
ghost use Rattle.mmt_layout.specs.Layout.{nodes_gate};
ghost use Rattle.wire.specs.Answer.{wire_of};
ghost use Rattle.capi.specs.Build.{left_bytes};

// Builds in `numbers`, then writes the node numbers to the front of `bytes`.
#[tactic(auto, using(mmt_layout::proofs::Gates::gate_fine, mmt_layout::proofs::Gates::count_small))]
pub fn build(words: &[u64], n: usize, numbers: &mut [i64], block: usize, bytes: &mut [u8]) -> i64
    requires { 8 * length numbers.old ≤ length bytes.old }
    ensures { Writes result (wire_of (through (nodes_gate (length words.now) n (length numbers.old) block) (at 0)))
        bytes.new (left_bytes words.now n (length numbers.old) block bytes.old) }
{
    match mmt_build::build(words, n, numbers, block) {
        Err(k) => wire::refused(k),
        Ok(()) => {
            let all = mmt_layout::layout_of(n, block);
            wire::write(&numbers[..all.entries()], bytes);
            0
        }
    }
}

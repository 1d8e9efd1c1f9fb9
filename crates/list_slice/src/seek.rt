// What a listing of children holds at first and after each step, computed from slices and numbers.
//
// The public calls that these functions use test all their arguments, so any values are safe. The parameters have the order of the fields of
// a listing. The direction is a value and no type, because a listing keeps it in a field and C passes it. `list_struct`, which keeps a
// listing and steps it, and `write`, which writes all answers at once, both use these functions.
ghost use Rattle.std.specs.Prelude.{◌≡◌, true, false};
ghost use Rattle.row.specs.Answer.{paper_found};
ghost use Rattle.list_slice.specs.Seek.{sought, held_after};

use row::Found;

// Starts the listing `children(v)`: the refusal of the constructor, or what the listing then holds. The node buffer is tested although
// `first_child` reads none of it, because the later steps read it.
#[tactic(auto, using(crate::proofs::FirstSought::sought_err))]
pub fn first(words: &[u64], n: usize, nodes: &[i64], block: usize, v: usize) -> Found
    ensures { paper_found result ≡ sought true words.now n nodes.now block v }
{
    bp_handle::admit_node(words, n, nodes, block, v)?;
    bp_handle::first_child(words, n, v)
}

// Starts the listing `rev_children(v)`, as `first` does.
#[tactic(auto, unfolding(crate::specs::Seek::sought))]
pub fn last(words: &[u64], n: usize, nodes: &[i64], block: usize, v: usize) -> Found
    ensures { paper_found result ≡ sought false words.now n nodes.now block v }
{
    bp_family::last_child(words, n, nodes, block, v)
}

// Returns what a listing holds after it has answered `held`.
pub fn after(
    words: &[u64],
    n: usize,
    nodes: &[i64],
    block: usize,
    rising: bool,
    held: Found,
) -> Found
    ensures { paper_found result ≡ held_after rising words.now n nodes.now block (paper_found held) }
{
    match held {
        Ok(Some(v)) => {
            if rising {
                bp_family::next_sibling(words, n, nodes, block, v)
            } else {
                bp_family::previous_sibling(words, n, nodes, block, v)
            }
        }
        Ok(None) | Err(_) => Ok(None),
    }
}

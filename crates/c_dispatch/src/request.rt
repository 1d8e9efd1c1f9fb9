// A request is one of the calls, or one of the two tests. All calls of this crate are made here.
ghost use Rattle.std.specs.Prelude.{◌≡◌};
ghost use Rattle.wire.specs.Answer.{wire_of};
ghost use Rattle.bp_spec.specs.Questions.{promised};
ghost use Rattle.c_dispatch.specs.Requests.{requested};

use bp_spec::Question;

// A call with its arguments, the one-tree test, or the as-built test.
#[derive(Clone, Copy)]
pub enum Request {
    Call(Question),
    OneTree,
    AsBuilt,
}

// Makes the call that the question names and returns its answer as one i64.
pub fn ask(words: &[u64], n: usize, nodes: &[i64], block: usize, q: Question) -> i64
    ensures { result ≡ wire_of (promised words.now n nodes.now block q) }
{
    match q {
        Question::FwdSearch(i, r) => wire::found(bp::fwd_search(words, n, nodes, block, i, r)),
        Question::BwdSearch(i, r) => wire::found(bp::bwd_search(words, n, nodes, block, i, r)),
        Question::Close(i) => wire::found(bp::close(words, n, nodes, block, i)),
        Question::Open(i) => wire::found(bp::open(words, n, nodes, block, i)),
        Question::Enclose(i) => wire::found(bp::enclose(words, n, nodes, block, i)),
        Question::Root => wire::found(bp::root(words, n)),
        Question::Parent(v) => wire::found(bp::parent(words, n, nodes, block, v)),
        Question::FirstChild(v) => wire::found(bp::first_child(words, n, v)),
        Question::LastChild(v) => wire::found(bp::last_child(words, n, nodes, block, v)),
        Question::NextSibling(v) => wire::found(bp::next_sibling(words, n, nodes, block, v)),
        Question::PreviousSibling(v) => wire::found(bp::previous_sibling(
            words, n, nodes, block, v,
        )),
        Question::IsLeaf(v) => wire::told(bp::is_leaf(words, n, v)),
        Question::IsAncestor(a, d) => wire::told(bp::is_ancestor(words, n, nodes, block, a, d)),
        Question::LevelAncestor(v, k) => wire::found(bp::level_ancestor(
            words, n, nodes, block, v, k,
        )),
        Question::LevelNext(v) => wire::found(bp::level_next(words, n, nodes, block, v)),
        Question::LevelPrev(v) => wire::found(bp::level_prev(words, n, nodes, block, v)),
        Question::LevelLeftmost(k) => wire::found(bp::level_leftmost(words, n, nodes, block, k)),
        Question::LevelRightmost(k) => wire::found(bp::level_rightmost(words, n, nodes, block, k)),
    }
}

// Makes the call or the test that the request names and returns its answer as one i64.
pub fn answer(words: &[u64], n: usize, nodes: &[i64], block: usize, request: Request) -> i64
    ensures { result ≡ wire_of (requested words.now n nodes.now block request) }
{
    match request {
        Request::Call(q) => ask(words, n, nodes, block, q),
        Request::OneTree => wire::told(one_tree::one_tree(words, n)),
        Request::AsBuilt => wire::told(mmt_build::as_built(words, n, nodes, block)),
    }
}

// The list of all calls. A question is one call with its own arguments.
//
// The specification of the calls, the demands and the C functions over bytes share this list.

// A call with its arguments, apart from the row, the node buffer and the block size. A usize is a position or a handle, an i64 is a searched
// difference, a u64 is a level.
#[derive(Clone, Copy)]
pub enum Question {
    FwdSearch(usize, i64),
    BwdSearch(usize, i64),
    Close(usize),
    Open(usize),
    Enclose(usize),
    Root,
    Parent(usize),
    FirstChild(usize),
    LastChild(usize),
    NextSibling(usize),
    PreviousSibling(usize),
    IsLeaf(usize),
    IsAncestor(usize, usize),
    LevelAncestor(usize, u64),
    LevelNext(usize),
    LevelPrev(usize),
    LevelLeftmost(u64),
    LevelRightmost(u64),
}

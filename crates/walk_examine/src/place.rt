// A place of a walk among the nodes of a min-max tree: a node, its height, and the remainder there.
#[derive(Clone, Copy, Debug, PartialEq, Eq)]
pub struct Place {
    pub node: usize,
    pub height: usize,
    pub remainder: i64,
}

/// What is wrong with a group.
#[derive(Clone, Copy, Debug, PartialEq, Eq)]
pub enum Fault {
    /// Two servers that had applied as many entries had states of two texts.
    States,
    /// What lives on a node is more than that has, or the state has no such node.
    Room,
    /// Two allocations that live are of one name.
    Names,
    /// A client started an allocation twice.
    Starts,
}

use rows::Term;

/// One entry of a replicated log: a command for the machine, with the term of the leader that
/// appended it. (Raft, extended version 2014, Figure 2.) A log whose entries are read or written as
/// bytes holds `Entry<Coded<M>>`, which contracts see as entries of the command itself.
#[derive(Drop)]
pub struct Entry<C> {
    /// The term in which a leader appended it.
    pub term: Term,
    /// What the machine is to apply.
    pub command: C,
}

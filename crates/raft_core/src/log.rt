ghost use Rattle.std.specs.Prelude.{◌≡◌, ◌≤◌};
ghost use Rattle.raft_model.specs.Logs.{term_at};

use machine::Machine;
use raft_snapshot::Log;
use rows::Term;

/// The term of the entry at an index that is not below what is covered; 0 where there is none.
pub fn term_at<M: Machine>(log: &Log<M>, index: u64) -> Term
    requires { log.now.base.index ≤ index }
    ensures { result ≡ term_at log.now.entries index }
{
    match log.term_at(index) {
        Some(term) => term,
        None => unreachable!(),
    }
}

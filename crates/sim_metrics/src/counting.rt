//! How many nodes there are of each verdict.
ghost use Rattle.std.specs.Prelude.{◌≡◌, length};
ghost use Rattle.std.specs.List.{count_by};
ghost use Rattle.sim_metrics.specs.Verdicts.{AreCounts, is_verdict, total_of};

use crate::verdict::Verdict;

/// How many nodes there are of each verdict; each node is counted once.
#[derive(Clone, Copy, Debug, PartialEq, Eq)]
pub struct NodeCounts {
    /// Those of another class.
    pub other_class: usize,
    /// Of the others, those that are not ready: disconnected or down.
    pub not_ready: usize,
    /// Of the others, those on which nothing may be placed.
    pub not_eligible: usize,
    /// Of the others, those that lack processor time.
    pub lack_cpu: usize,
    /// Of the others, those that lack memory.
    pub lack_memory: usize,
    /// Of the others, those that lack disk.
    pub lack_disk: usize,
    /// The others: those that have room.
    pub have_room: usize,
}

// Whether two verdicts are the same.
fn is_verdict(kind: Verdict, verdict: Verdict) -> bool
    ensures { result ≡ is_verdict kind verdict }
{
    kind.number() == verdict.number()
}

// How many of these verdicts there are.
fn count_of(verdicts: &[Verdict], kind: Verdict) -> usize
    ensures { result ≡ count_by (is_verdict kind) verdicts.now }
{
    let mut count = 0;
    for verdict in verdicts {
        if is_verdict(kind, *verdict) {
            count += 1;
        }
    }
    count
}

/// How many nodes there are of each of these verdicts.
pub fn counts(verdicts: &[Verdict]) -> NodeCounts
    ensures each { AreCounts verdicts.now result }
    // Each node is counted under exactly one.
    ensures once { total_of result ≡ length verdicts.now }
{
    NodeCounts {
        other_class: count_of(verdicts, Verdict::OtherClass),
        not_ready: count_of(verdicts, Verdict::NotReady),
        not_eligible: count_of(verdicts, Verdict::NotEligible),
        lack_cpu: count_of(verdicts, Verdict::LacksCpu),
        lack_memory: count_of(verdicts, Verdict::LacksMemory),
        lack_disk: count_of(verdicts, Verdict::LacksDisk),
        have_room: count_of(verdicts, Verdict::HasRoom),
    }
}

//! The specification of the whole, one abstract state machine, and that every run refines it.
#![tactic(auto)]

ghost use Rattle.raft_safety.specs.Claims as raft_claims;
ghost use Rattle.group_safety.specs.Claims.{EachRun, OfTheList, SafeStates};
ghost use Rattle.spec.specs.LogSpec.{RefinesLog};
ghost use Rattle.spec.specs.Refinement.{RefinesSpec, ShowsSpec};
ghost use Rattle.spec.specs.Safety.{SpecIsSafe, NothingIsLost, AppliedGrows};
ghost use Rattle.spec.specs.Safety.{TokensFence, OneHolder};

use machine_model::Machine;

/// Every run of the group refines the specification. (Abadi and Lamport, "The Existence of
/// Refinement Mappings", 1991.)
pub fn every_run_refines_the_spec()
    ensures { EachRun (λ n nodes events past w. RefinesSpec n nodes past w) }
{}

/// What is visible of a run, moment by moment, is what the specification shows: the state of each
/// server, what each client ever started, and what was delivered to workers.
pub fn every_run_shows_the_spec()
    ensures { EachRun (λ n nodes events past w. ShowsSpec n nodes past w) }
{}

/// The specification is safe, whatever it does.
/// - `safe`: what servers have applied is committed; terms never fall; no state after first entries
///   of the log has a node oversubscribed or an allocation name live twice; each plan was appended
///   under its evaluation's outstanding token; and what a client started was placed on its node,
///   and started once.
/// - `stays`: what is committed stays so, and no entry, start or delivery is ever lost.
/// - `grows`: while a server is up, what it has applied never shrinks.
pub fn the_spec_is_safe()
    ensures safe { SpecIsSafe }
    ensures stays { NothingIsLost }
    ensures grows { AppliedGrows }
{}

/// The specification's tokens are fencing tokens. (Nomad documentation, "Scheduling in Nomad":
/// evaluation broker; Kleppmann, "Designing Data-Intensive Applications", 2017, chapter 8.)
/// - `fences`: a plan is appended only under a token that was delivered for its evaluation in its
///   own term, and after a plan under a newer one no plan of that evaluation follows in that term
///   under an older one. Tokens of one term are newer and newer. What is outstanding is so under
///   the token of its last delivery in that term.
/// - `one_holder`: in a term an evaluation is with one worker at a time. Once delivered, it is
///   outstanding under that token. While it is outstanding, it is not delivered again, and no other
///   token takes its token's place. A delivery that has ended never comes back.
pub fn tokens_fence()
    ensures fences { TokensFence }
    ensures one_holder { OneHolder }
{}

/// Safe states of a run's one list, from the specification alone.
pub fn safe_states_follow()
    ensures { OfTheList (λ events past w list. SafeStates list) }
{}

/// Every run of a replicated log, whichever machine it carries, refines the log's specification.
pub fn every_log_refines_its_spec<M: Machine>()
    ensures { raft_claims.EachRun M.spec (λ n events past w. RefinesLog M.spec n past w) }
{}

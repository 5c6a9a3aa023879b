//! Laws of servers whose covered entries are no-ops, and of the text of what a server stores, for
//! every machine. Each function has an empty body: what it says is its contract.
ghost use Rattle.std.specs.Prelude.{◌≡◌, ◌≤◌, ◌++◌, ℕ, List, length, take, drop, nat_le, true, false, if◌then◌else◌, Ok, Some};
ghost use Rattle.fields_model.specs.Format.{IsBytes, Lawful};
ghost use Rattle.machine_model.specs.declared.entry.Entry.{Entry};
ghost use Rattle.raft_model.specs.Logs.{last_term, merge, state_after};
ghost use Rattle.raft_model.specs.Messages.{Install};
ghost use Rattle.raft_model.specs.Rafts.{Raft, RaftTurn, beat_body, term_observed, crashed, restarted, compacted};
ghost use Rattle.raft_model.specs.Steps.{step, receives, Input};
ghost use Rattle.raft_snapshot.specs.Bases.{Base, IsBaseOf, state_from};
ghost use Rattle.raft_snapshot.specs.Prefixes.{log_with_prefix, with_prefix, turn_with_prefix, result_with_prefix, FitsPrefix, IsPlainInput, takes_snapshot};
ghost use Rattle.raft_snapshot.specs.Changes.{TermsTell, SharesEntries, changed_part, log_change};
ghost use Rattle.raft_snapshot.specs.Kept.{Kept};
ghost use Rattle.raft_snapshot.specs.Stored.{Stored};
ghost use Rattle.raft_snapshot.specs.Texts.{stable, stable_at, stable_text, IsStableText, StableFits};
ghost use Rattle.raft_snapshot.specs.Compacted.{IsCompacted, IsCompactionOf, compacted_state, turn_of, base_after, Received, compacted_base, compacted_further};

use machine::Machine;

/// No rule looks at an entry at or below the commit index but at how many there are, and at the
/// term of the last covered one: with other entries in place of its covered ones a server takes the
/// same step, sends the same, and has these in their place after it. A Beat says which they are, an
/// Install puts others in their place where it is taken over, and a Compact covers more of them.
pub fn steps_keep_prefixes<M: Machine>()
    ensures steps { (n me : ℕ) (P : List (Entry M.Command)) (s : Raft M.Command) → FitsPrefix P s →
        (input : Input M.Command) → IsPlainInput input →
        step M.spec n me (with_prefix P s) input ≡ result_with_prefix P (step M.spec n me s input) }
    ensures installs { (P Q B : List (Entry M.Command)) (n me : ℕ) (s : Raft M.Command) →
        FitsPrefix P s → (from term : ℕ) → length B ≡ length Q → last_term B ≡ last_term Q →
        receives M.spec.noop n me (with_prefix P s) from term (Install Q)
        ≡ turn_with_prefix (if takes_snapshot term (length Q) s then Q else P)
        (receives M.spec.noop n me s from term (Install B)) }
    ensures beats { (P : List (Entry M.Command)) (s : Raft M.Command) → FitsPrefix P s →
        s.covered ≡ length P → (next : ℕ) → beat_body (with_prefix P s) next
        ≡ (if nat_le next s.covered then Install P else beat_body s next) }
    ensures compacts { (P B : List (Entry M.Command)) (s : Raft M.Command) → FitsPrefix P s →
        s.commit ≤ length s.log → length B ≡ s.commit → compacted (with_prefix P s)
        ≡ with_prefix (take s.commit (log_with_prefix P s.log))
        (record (compacted s) { log = B ++ drop s.commit s.log }) }
{}

/// A base and a server that is shown stand, at once, for each server of the definitions that has,
/// in place of the covered no-ops, some that the base covers: all of these have applied the same
/// state, and a crash, a restart and a Compact lead from what stands for a server to what stands
/// for the server after it.
pub fn compactions_refine_servers<M: Machine>()
    ensures state { (base : Base M) (shown s : Raft M.Command) → IsCompacted base shown →
        IsCompactionOf M.spec base shown s →
        state_after M.spec (take s.commit s.log) ≡ compacted_state M.spec base shown }
    ensures whole { (base : Base M) (shown s : Raft M.Command) →
        IsCompactionOf M.spec base shown s →
        state_after M.spec s.log ≡ state_from M.spec base shown.log }
    ensures crash { (base : Base M) (shown s : Raft M.Command) → IsCompacted base shown →
        IsCompactionOf M.spec base shown s →
        IsCompactionOf M.spec base (crashed shown) (crashed s) × IsCompacted base (crashed shown) }
    ensures restart { (base : Base M) (shown s : Raft M.Command) → IsCompacted base shown →
        IsCompactionOf M.spec base shown s →
        IsCompactionOf M.spec base (restarted shown) (restarted s)
        × IsCompacted base (restarted shown) }
    ensures compact { (base : Base M) (shown s : Raft M.Command) → IsCompacted base shown →
        shown.commit ≤ length shown.log → IsCompactionOf M.spec base shown s →
        IsCompactionOf M.spec (compacted_base M.spec base shown)
        (compacted_further M.spec shown) (compacted s)
        × IsCompacted (compacted_base M.spec base shown) (compacted_further M.spec shown) }
{}

/// A snapshot that comes in a message makes, of what stands for a server, what stands for the
/// server after it, for each list that the message may carry (`received`). So two servers, each of
/// which covers something, fit together: what a leader sends one that lacks covered entries is an
/// Install of its own covered list, which its base is known by, and the other takes it as the
/// definitions do (`sent`); and what it sends one that lacks none is what it shows (`appends`).
pub fn snapshots_are_received<M: Machine>()
    ensures received { (n me from term : ℕ) (snapshot base : Base M)
        (shown s : Raft M.Command) → IsCompacted base shown → IsCompactionOf M.spec base shown s →
        (Q : List (Entry M.Command)) → IsBaseOf M.spec snapshot Q →
        Received M.spec (base_after base shown term snapshot)
        (turn_of M.spec n me shown from term snapshot)
        (receives M.spec.noop n me (term_observed term s) from term (Install Q)) }
    ensures sent { (n me from term next : ℕ) (theirs base : Base M)
        (sender x shown y : Raft M.Command) →
        IsCompacted theirs sender → IsCompactionOf M.spec theirs sender x →
        IsCompacted base shown → IsCompactionOf M.spec base shown y →
        nat_le next theirs.index ≡ true →
        (Q : List (Entry M.Command)) × (beat_body x next ≡ Install Q)
        × IsBaseOf M.spec theirs Q × Received M.spec (base_after base shown term theirs)
        (turn_of M.spec n me shown from term theirs)
        (receives M.spec.noop n me (term_observed term y) from term (Install Q)) }
    ensures appends { (base : Base M) (shown s : Raft M.Command) → IsCompacted base shown →
        IsCompactionOf M.spec base shown s → (next : ℕ) → nat_le next base.index ≡ false →
        beat_body s next ≡ beat_body shown next }
{}

/// What stands behind the version byte has a lawful format in each version. Each text of what a
/// server stores, of whichever version, is read again as that, what is read is what has just these
/// bytes in some version, and no text begins another, also none of another version.
pub fn stable_texts_are_whole<M: Machine>()
    ensures lawful { (version : ℕ) → Lawful (stable M.spec version) }
    ensures again { (version : ℕ) (s : Stored M M.Command) → StableFits M.spec version s
        → stable_at M.spec (stable_text M.spec version s) ≡ Ok s }
    ensures found { (bytes : List ℕ) (s : Stored M M.Command) → IsBytes bytes
        → stable_at M.spec bytes ≡ Ok s → IsStableText M.spec s bytes }
    ensures apart { (v w : ℕ) (s t : Stored M M.Command) (x y : List ℕ)
        → StableFits M.spec v s → StableFits M.spec w t
        → stable_text M.spec v s ++ x ≡ stable_text M.spec w t ++ y → (v ≡ w) × (s ≡ t) }
{}

/// Behind its commit index, as far as the terms of a server's log before and after a step are the
/// same, so are the entries, where its snapshot covers as many: what is to be stored of the step is
/// found by terms alone. It is so too where a leader's entries are taken over.
pub fn steps_keep_terms_told<M: Machine>()
    ensures merged { (commit prev : ℕ) (log entries : List (Entry M.Command)) →
        commit ≤ length log → prev ≤ length log →
        TermsTell commit log (merge commit prev log entries) }
    ensures steps { (n me : ℕ) (s : Raft M.Command) → s.commit ≤ length s.log →
        s.covered ≤ s.commit → (input : Input M.Command) (turn : RaftTurn M.Command) →
        step M.spec n me s input ≡ Ok turn → turn.server.covered ≡ s.covered →
        TermsTell s.commit s.log turn.server.log }
{}

/// A change leads from one stored part to another where so many first entries stay, and changes one
/// after the other keep what each of them keeps.
pub fn changes_lead<M: Machine>()
    ensures change { (old new : Stored M M.Command) (keep : ℕ) →
        SharesEntries old.log new.log keep →
        changed_part old (log_change new.term new.vote new.log keep) ≡ Some new }
    ensures over { (old mid new : Kept M M.Command) (j k i : ℕ) →
        SharesEntries old mid j → SharesEntries mid new k → i ≤ j → i ≤ k →
        old.base.index ≤ i → SharesEntries old new i }
{}

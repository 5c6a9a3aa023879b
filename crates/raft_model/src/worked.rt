//! Worked steps: what the definitions answer for servers, messages and events written out, each a
//! law by computation.
ghost use Rattle.raft_model.specs.Worked.Votes.{CandidateAsks, VoterGrants, NewerVoterDenies, LongerVoterDenies, VoteOutlastsCrash, TwoVotesOfFive, ThreeVotesOfFive, LateVote, LastTerm};
ghost use Rattle.raft_model.specs.Worked.Logs.{HeldAlready, LateAppend, DiffersAtFirst, CommittedStays, OtherPrevious, MissingPrevious, LowerTerm, InstallKeeps, InstallDiscards};
ghost use Rattle.raft_model.specs.Worked.Leaders.{LeaderBeats, OlderTerm, OwnTerm, PastLast, OtherTerm, NextGoesBack, NextStaysPastMatch, WholeLog, NotLeader, IsDown, IsUp, RestartsFromSnapshot};
ghost use Rattle.raft_model.specs.Worked.Runs.{ThreeServersCommit, TailStays, TailCommitted, RefusalTwice, RefusalOften, CommitWithinAppend};
ghost use Rattle.raft_model.specs.Worked.Terms.{FreeInNextTerm, GrantsAgain, OlderTermDenied, StandsAlone, DenialIsNone, StepsDown, FollowsLeader, LeadsOn, CommitNeverFalls, CommittedIsHeld, InstalledBefore, OlderInstall, MatchNeverFalls, InstallCounts, LateAnswers, OutsideTheGroup, ThirtyTwoAtOnce, FollowerIsSilent, CoversTheApplied, CrashLosesTheRest, DownTakesNothing, DownBeatsNot, DownTakesNoProposal, DownCompactsNothing, DownCrashesNot};

/// Standing for election, granting and denying votes, and winning. (Raft, extended version 2014,
/// Figure 2 and section 5.2.)
pub fn worked_votes()
    ensures candidate_asks { CandidateAsks }
    ensures voter_grants { VoterGrants }
    ensures newer_voter_denies { NewerVoterDenies }
    ensures longer_voter_denies { LongerVoterDenies }
    ensures vote_outlasts_crash { VoteOutlastsCrash }
    ensures two_votes_of_five { TwoVotesOfFive }
    ensures three_votes_of_five { ThreeVotesOfFive }
    ensures late_vote { LateVote }
    ensures last_term { LastTerm }
{}

/// What an Append and an Install do to the receiver's log. (Raft, Figures 2 and 13, sections 5.3
/// and 7.)
pub fn worked_logs()
    ensures held_already { HeldAlready }
    ensures late_append { LateAppend }
    ensures differs_at_first { DiffersAtFirst }
    ensures committed_stays { CommittedStays }
    ensures other_previous { OtherPrevious }
    ensures missing_previous { MissingPrevious }
    ensures lower_term { LowerTerm }
    ensures install_keeps { InstallKeeps }
    ensures install_discards { InstallDiscards }
{}

/// A leader, its followers' replies, its commit index and its proposals. (Raft, Figure 2, sections
/// 5.3 and 5.4.2.)
pub fn worked_leader()
    ensures leader_beats { LeaderBeats }
    ensures older_term { OlderTerm }
    ensures own_term { OwnTerm }
    ensures past_last { PastLast }
    ensures other_term { OtherTerm }
    ensures next_goes_back { NextGoesBack }
    ensures next_stays_past_match { NextStaysPastMatch }
    ensures whole_log { WholeLog }
    ensures not_leader { NotLeader }
    ensures is_down { IsDown }
    ensures is_up { IsUp }
    ensures restarts_from_snapshot { RestartsFromSnapshot }
{}

/// Three servers elect, propose, replicate and commit.
pub fn worked_run()
    ensures { ThreeServersCommit }
{}

/// A late Append, then an Install of a first part of it, and then the late Append's ok: what that
/// ok commits is there.
pub fn late_append_then_install()
    ensures tail_stays { TailStays }
    ensures tail_committed { TailCommitted }
{}

/// A refusal that comes again moves next too low; the Append from there commits no further than it
/// reaches.
pub fn refusal_comes_again()
    ensures twice { RefusalTwice }
    ensures often { RefusalOften }
    ensures commit_within_append { CommitWithinAppend }
{}

/// Greater and older terms, what was committed before, what comes again, and what a server that is
/// down refuses. (Raft, Figure 2, all servers, and sections 5.1 to 5.4.)
pub fn worked_terms()
    ensures free_in_next_term { FreeInNextTerm }
    ensures grants_again { GrantsAgain }
    ensures older_term_denied { OlderTermDenied }
    ensures stands_alone { StandsAlone }
    ensures denial_is_none { DenialIsNone }
    ensures steps_down { StepsDown }
    ensures follows_leader { FollowsLeader }
    ensures leads_on { LeadsOn }
    ensures commit_never_falls { CommitNeverFalls }
    ensures committed_is_held { CommittedIsHeld }
    ensures installed_before { InstalledBefore }
    ensures older_install { OlderInstall }
    ensures match_never_falls { MatchNeverFalls }
    ensures install_counts { InstallCounts }
    ensures late_answers { LateAnswers }
    ensures outside_the_group { OutsideTheGroup }
    ensures thirty_two_at_once { ThirtyTwoAtOnce }
    ensures follower_is_silent { FollowerIsSilent }
    ensures covers_the_applied { CoversTheApplied }
    ensures crash_loses_the_rest { CrashLosesTheRest }
    ensures down_hears_nothing { DownTakesNothing }
    ensures down_beats_not { DownBeatsNot }
    ensures down_takes_no_proposal { DownTakesNoProposal }
    ensures down_compacts_nothing { DownCompactsNothing }
    ensures down_crashes_not { DownCrashesNot }
{}

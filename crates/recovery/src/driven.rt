//! What the driving asks of a value with servers, whether they are all that it has or not.
ghost use Rattle.std.specs.Prelude.{◌≡◌, ◌≤◌, ℕ, OnOk, IfErr, IfSome, IfNone};
ghost use Rattle.rows.specs.GroupSizes.{IsGroup};
ghost use Rattle.recovery.specs.Inner.Drives.{Drive, LawfulDrive, HasRun, EverOf, EverAt, Known, KnownOf, StandsThere, NoneThere, CanGo, HasGone, WentOf, NotTaken};
ghost use Rattle.recovery.specs.Inner.Goings.{GoesTo};
ghost use Rattle.recovery.specs.Inner.DownServers.{Restarting, IsDown, IsBack, IsLeftDown};

use crate::calm_event::CalmEvent;
use crate::unsettled::Unsettled;
use machine::Machine;
use raft_core::Raft;
use rows::ServerId;

/// A value with servers of a log, and with runs, in which the events of a recovery are let happen.
pub(crate) trait Driven {
    /// What its servers replicate.
    type Of: Machine;

    /// What its events are made with.
    type With;

    /// What its runs are, and what is of the log in them.
    ghost drive: { Drive Self Self.Of Self.Of.Command };

    /// How its servers restart.
    ghost restarting: { Restarting drive };

    /// It has a run, as its type keeps.
    fn has_run(&self)
        ensures run { HasRun drive self.now }
        ensures law { LawfulDrive Self.Of.spec drive }
        ensures group { IsGroup (drive.size self.now) };

    /// How many servers it has.
    fn members(&self) -> usize
        ensures value { result ≡ drive.size self.now }
        ensures limit { result ≤ 5 };

    /// How many messages were ever sent.
    fn sent_count(&self) -> usize
        ensures { EverOf drive self.now (λ w. result ≡ drive.sent w) };

    /// A server's part of the log; none where it has fewer servers.
    fn log_of(&self, server: ServerId) -> Option<&Raft<Self::Of>>
        ensures some { IfSome result (λ r. StandsThere drive Self.Of.spec server r.now self.now) }
        ensures none { IfNone result (NoneThere drive server self.now) };

    /// The server that is to receive the message at a place, where that is one of the log.
    fn addressee(&self, place: usize) -> Option<ServerId>
        ensures { EverAt drive self.now place (λ p w. GoesTo result p w) };

    /// An event that can happen happens, and `server` takes it.
    fn let_happen(
        &mut self,
        with: &Self::With,
        event: CalmEvent,
        server: ServerId,
    ) -> Result<(), Unsettled>
        requires { KnownOf drive self.old (λ w. CanGo drive Self.Of.spec event server w) }
        ensures ok { OnOk result (WentOf drive self.old self.new (λ taken w v.
            HasGone drive event taken w v)) }
        ensures err { IfErr result (λ why. NotTaken drive self.old self.new why) };

    /// A server that is down starts again.
    fn restart(&mut self, with: &Self::With, server: ServerId) -> Result<(), Unsettled>
        requires { Known drive self.old (λ w. IsDown server w) }
        ensures ok { OnOk result (WentOf drive self.old self.new (λ taken w v.
            IsBack Self.Of.spec drive restarting server taken w v)) }
        ensures err { IfErr result (λ why. IsLeftDown drive server self.old self.new why) };
}

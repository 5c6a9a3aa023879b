//! Worked commands: what the definitions answer for states and commands written out, each a law by
//! computation.
ghost use Rattle.fsm_model.specs.Worked.Losses.{TwoRun, NodeLost, StaysWithoutRow, LateReport, LateReportPasses, PlacedAgain, AllInUse, LastPasses, OneTooMany};
ghost use Rattle.fsm_model.specs.Worked.Moves.{NameMoves, RoomWhereStopped, MovePasses, MoveTooLarge, NameTwice, OtherJob};
ghost use Rattle.fsm_model.specs.Worked.Drains.{RisingNames, DownAlready, ComesBack, Marked, MarkTouches, NotDrained, NotEmpty, Drained, Blocked, FinalStays, BlockedComesBack};
ghost use Rattle.fsm_model.specs.Worked.Refusals.{ComesAgain, OtherCpu, OtherMemory, OtherDisk, OtherClass, NoNodeIsDown, NoNodeDrains, NoNodeIsDrained, NodeIsDown, NodeDrains, NodeIsDrained, DoesNotDrain, NoJobStops, StopPasses, NoJobIsAsked, StopsOnce, StoppedIsAsked, NoEvaluation, EvaluationEnds, PendingAlready, PlacePasses, OtherGroup, LessCpu, LessMemory, MoreDisk, PastTheCount, NowhereToRun, NotEligible, NotReady, NotOfTheClass, StoppedIsNotPlaced, StoppedIsPlanned, EvaluationFirst, ThenTheJob, ThenTheStops, ThenWhetherStopped, NoneMoves, OneMoves, NoNodeReports, NoneIsReported, OtherNodeReports, EndIsReported};
ghost use Rattle.fsm_model.specs.Worked.Disks.{OnePasses, TwoAreTooMany, TooLargeForTheOther, TwoPass, AllDiskInUse, OneDiskTooMany, OneEachPasses};
ghost use Rattle.fsm_model.specs.Worked.Ends.{JobStops, StopTouches, PutAgain, Ended, EndGivesRoom, EndTouches, ReportsInOrder, OtherNodesReport, StoppingIsLost, StoppingTouchesNone, DrainsByForce, StaysDrained, LostIsNotMarked};
ghost use Rattle.fsm_model.specs.Worked.Absences.{NodeAway, AwayPasses, StoppingIsUnknown, HoldsItsRoom, HoldsItsName, NotReadyAway, NoNodeIsAway, AwayAlready, DownIsNotAway, AwayWithoutRow, LostStaysLost, RunsAllAlong, RunsAllAlongPasses, EndedMeanwhile, BackAgain, LostThen, LostThenPasses, LateAfterLoss, NameIsFree};

/// Two nodes run a job of two; one node goes down, what it reports late changes nothing, and its
/// allocation's name is placed again where there is just room for it.
pub fn worked_loss()
    ensures two_run { TwoRun }
    ensures node_lost { NodeLost }
    ensures stays_without_row { StaysWithoutRow }
    ensures late_report { LateReport }
    ensures late_report_passes { LateReportPasses }
    ensures placed_again { PlacedAgain }
    ensures all_in_use { AllInUse }
    ensures last_passes { LastPasses }
    ensures one_too_many { OneTooMany }
{}

/// A plan that stops an allocation and places its name on another node.
pub fn worked_move()
    ensures name_moves { NameMoves }
    ensures room_where_stopped { RoomWhereStopped }
    ensures move_passes { MovePasses }
    ensures move_too_large { MoveTooLarge }
    ensures name_twice { NameTwice }
    ensures other_job { OtherJob }
{}

/// Touched jobs get their evaluations in rising name; a drained node and its allocations; statuses
/// of evaluations.
pub fn worked_drain()
    ensures rising_names { RisingNames }
    ensures down_already { DownAlready }
    ensures comes_back { ComesBack }
    ensures marked { Marked }
    ensures mark_touches { MarkTouches }
    ensures not_drained { NotDrained }
    ensures not_empty { NotEmpty }
    ensures drained { Drained }
    ensures blocked { Blocked }
    ensures final_stays { FinalStays }
    ensures blocked_comes_back { BlockedComesBack }
{}

/// What a state refuses, test by test, and in which order a plan is asked.
pub fn worked_refusals()
    ensures comes_again { ComesAgain }
    ensures other_cpu { OtherCpu }
    ensures other_memory { OtherMemory }
    ensures other_disk { OtherDisk }
    ensures other_class { OtherClass }
    ensures no_node_is_down { NoNodeIsDown }
    ensures no_node_drains { NoNodeDrains }
    ensures no_node_is_drained { NoNodeIsDrained }
    ensures node_is_down { NodeIsDown }
    ensures node_drains { NodeDrains }
    ensures node_is_drained { NodeIsDrained }
    ensures does_not_drain { DoesNotDrain }
    ensures no_job_stops { NoJobStops }
    ensures stop_passes { StopPasses }
    ensures no_job_is_asked { NoJobIsAsked }
    ensures stops_once { StopsOnce }
    ensures stopped_is_asked { StoppedIsAsked }
    ensures no_evaluation { NoEvaluation }
    ensures evaluation_ends { EvaluationEnds }
    ensures pending_already { PendingAlready }
    ensures place_passes { PlacePasses }
    ensures other_group { OtherGroup }
    ensures less_cpu { LessCpu }
    ensures less_memory { LessMemory }
    ensures more_disk { MoreDisk }
    ensures past_the_count { PastTheCount }
    ensures nowhere_to_run { NowhereToRun }
    ensures not_eligible { NotEligible }
    ensures not_ready { NotReady }
    ensures not_of_the_class { NotOfTheClass }
    ensures stopped_is_not_placed { StoppedIsNotPlaced }
    ensures stopped_is_planned { StoppedIsPlanned }
    ensures evaluation_first { EvaluationFirst }
    ensures then_the_job { ThenTheJob }
    ensures then_the_stops { ThenTheStops }
    ensures then_whether_stopped { ThenWhetherStopped }
    ensures none_moves { NoneMoves }
    ensures one_moves { OneMoves }
    ensures no_node_reports { NoNodeReports }
    ensures none_is_reported { NoneIsReported }
    ensures other_node_reports { OtherNodeReports }
    ensures end_is_reported { EndIsReported }
{}

/// Plans of two places that fit by processor time and memory: whether they pass is for their disk.
pub fn worked_disks()
    ensures one_passes { OnePasses }
    ensures two_are_too_many { TwoAreTooMany }
    ensures too_large_for_the_other { TooLargeForTheOther }
    ensures two_pass { TwoPass }
    ensures all_disk_in_use { AllDiskInUse }
    ensures one_too_many { OneDiskTooMany }
    ensures one_each_passes { OneEachPasses }
{}

/// A job that stops, allocations that end, one that is to stop on a node that is lost, and a node
/// that comes back while it drains.
pub fn worked_ends()
    ensures job_stops { JobStops }
    ensures stop_touches { StopTouches }
    ensures put_again { PutAgain }
    ensures ended { Ended }
    ensures end_gives_room { EndGivesRoom }
    ensures end_touches { EndTouches }
    ensures reports_in_order { ReportsInOrder }
    ensures other_nodes_report { OtherNodesReport }
    ensures stopping_is_lost { StoppingIsLost }
    ensures stopping_touches_none { StoppingTouchesNone }
    ensures drains_by_force { DrainsByForce }
    ensures stays_drained { StaysDrained }
    ensures lost_is_not_marked { LostIsNotMarked }
{}

/// A node that is disconnected: what is unknown on it holds room and name, may be reported, and is
/// lost where the node is.
pub fn worked_absence()
    ensures node_away { NodeAway }
    ensures away_passes { AwayPasses }
    ensures stopping_is_unknown { StoppingIsUnknown }
    ensures holds_its_room { HoldsItsRoom }
    ensures holds_its_name { HoldsItsName }
    ensures not_ready_away { NotReadyAway }
    ensures no_node_is_away { NoNodeIsAway }
    ensures away_already { AwayAlready }
    ensures down_is_not_away { DownIsNotAway }
    ensures away_without_row { AwayWithoutRow }
    ensures lost_stays_lost { LostStaysLost }
    ensures runs_all_along { RunsAllAlong }
    ensures runs_all_along_passes { RunsAllAlongPasses }
    ensures ended_meanwhile { EndedMeanwhile }
    ensures back_again { BackAgain }
    ensures lost_then { LostThen }
    ensures lost_then_passes { LostThenPasses }
    ensures late_after_loss { LateAfterLoss }
    ensures name_is_free { NameIsFree }
{}

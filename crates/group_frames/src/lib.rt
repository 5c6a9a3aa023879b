//! The frames of what servers and clients of a group send each other.
#![tactic(auto)]

ghost use Rattle.fsm_model.specs.ClusterMachine.{cluster_spec};
ghost use Rattle.group_frames.specs.GroupFrames.{FramesAreOfOne, FramesAreOfSome, MessagesHaveOneFrame};

/// A frame is of one message at most, of the log's or beside them, and each frame that can be read
/// is of one; a message has one frame at most. Of the entries that an Install covers its frame has
/// their number, the last one's term and the state after them: so it is of each list with these,
/// and of no message where no list leads to that state.
pub fn frames_are_of_one_message()
    ensures one { FramesAreOfOne cluster_spec }
    ensures some { FramesAreOfSome cluster_spec }
    ensures alone { MessagesHaveOneFrame cluster_spec }
{}

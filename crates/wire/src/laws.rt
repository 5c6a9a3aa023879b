//! The laws of frames.
ghost use Rattle.std.specs.Prelude.{◌≡◌, ◌≤◌, ◌++◌, List, ℕ, Ok, length};
ghost use Rattle.fields_model.specs.Format.{IsBytes};
ghost use Rattle.wire.specs.Messages.{Message};
ghost use Rattle.wire.specs.Frames.{message_at, message_text, IsFrame, MessageFits, frame_limit};

use machine::Machine;

/// Each frame that is written is read again as its message, what is read is the message of just
/// these bytes, no frame begins another, and none is longer than the limit of 16,777,216 bytes.
pub fn frames_are_whole<M: Machine>()
    ensures again { (m : Message M M.Command) → MessageFits M.spec m
        → message_at M.spec (message_text M.spec m) ≡ Ok m }
    ensures found { (bytes : List ℕ) (m : Message M M.Command) → IsBytes bytes
        → message_at M.spec bytes ≡ Ok m → IsFrame M.spec m bytes }
    ensures apart { (m n : Message M M.Command) (x y : List ℕ) → MessageFits M.spec m
        → MessageFits M.spec n
        → message_text M.spec m ++ x ≡ message_text M.spec n ++ y → m ≡ n }
    ensures short { (m : Message M M.Command) → MessageFits M.spec m
        → length (message_text M.spec m) ≤ frame_limit }
{}

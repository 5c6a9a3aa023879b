//! What becomes of one message.
ghost use Rattle.std.specs.Prelude.{◌≡◌};
ghost use Rattle.lossy_net.specs.Fates.{HasFate};

/// What becomes of a message in flight that is taken to be delivered.
#[derive(Clone, Copy, Debug, PartialEq, Eq)]
pub enum MessageFate {
    /// It is lost.
    Lose,
    /// It is delivered, and is in flight once more.
    Repeat,
    /// It is delivered, and is no longer in flight.
    Once,
}

/// The fate that a word gives a message where `drop` percent of the messages are to be lost and
/// `repeat` percent repeated: where the word's remainder by 100 is below `drop`, the message is
/// lost; else, where it is below `drop + repeat`, it is repeated; else it is delivered once. All
/// numbers have a fate: from a `drop` of 100 on every message is lost, and where the sum is 100 or
/// more none is delivered once. Nothing is refused.
/// - `fate`: the message has this fate.
/// - `only`: it has no other.
pub fn fate(word: u32, drop: u8, repeat: u8) -> MessageFate
    ensures fate { HasFate word drop repeat result }
    ensures only { (other : MessageFate) → HasFate word drop repeat other → other ≡ result }
{
    let remainder = word % 100;
    let lost = u32::from(drop);
    let repeated = lost + u32::from(repeat);
    if remainder < lost {
        MessageFate::Lose
    } else if remainder < repeated {
        MessageFate::Repeat
    } else {
        MessageFate::Once
    }
}

//! Worked fates and words, each a law by computation.
ghost use Rattle.lossy_net.specs.Worked.{BelowDrop, AtDrop, AtSum, NoneLost, AllLost, PastHundred};
ghost use Rattle.lossy_net.specs.Worked.{FirstWord, SecondWord, NextBlock, OtherKey, GreatestKey};

/// Words on both sides of each bound, where 30 percent are lost and 10 repeated; and where none is
/// lost, where all are, and where the sum passes 100.
pub fn worked_fates()
    ensures below_drop { BelowDrop }
    ensures at_drop { AtDrop }
    ensures at_sum { AtSum }
    ensures none_lost { NoneLost }
    ensures all_lost { AllLost }
    ensures past_hundred { PastHundred }
{}

/// Words of keys 0, 258 and 2^64 - 1.
pub fn worked_words()
    ensures first { FirstWord }
    ensures second { SecondWord }
    ensures next_block { NextBlock }
    ensures other_key { OtherKey }
    ensures greatest_key { GreatestKey }
{}

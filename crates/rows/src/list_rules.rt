//! What is asked of each item of a list.
ghost use Rattle.std.specs.Prelude.{◌≡◌, List, [], Bool};
ghost use Rattle.std.specs.List.{AllByRecursion};
ghost use Rattle.rows.specs.Rising.{keeps};

/// A type whose values have parts within limits.
pub trait Ranged {
    /// The limits of the parts.
    ghost Fits: { Self → Type 0 };

    /// Says that the parts are within their limits; it does nothing.
    fn ranges(&self)
        ensures { Fits self.now };
}

/// Says that the parts of each item are within their limits.
pub fn all_ranges<T: Ranged>(items: &[T])
    ensures { AllByRecursion T.Fits items.now }
{
    for item in items {
        item.ranges();
    }
}

/// A type whose lists keep a rule, as an order or that there are no doubles: which value may stand
/// behind which others.
pub trait Ruled: Sized {
    /// Whether a value may stand behind those in front of it.
    ghost rule: { List Self → Self → Bool };

    /// Whether this value may stand behind those in front of it.
    fn may_follow(&self, front: &[Self]) -> bool
        ensures { result ≡ rule front.now self.now };
}

/// Whether each item may stand behind those in front of it.
pub fn keep_rule<T: Ruled>(items: &[T]) -> bool
    ensures { result ≡ keeps T.rule [] items.now }
{
    for place in 0..items.len() {
        if !items[place].may_follow(&items[..place]) {
            return false;
        }
    }
    true
}

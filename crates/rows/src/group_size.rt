//! How many servers a group has.
ghost use Rattle.std.specs.Prelude.{◌≡◌, ◌≤◌, true, MatchBool};
ghost use Rattle.rows.specs.GroupSizes.{IsGroup};

/// Whether a group may have so many servers: 3 or 5.
pub fn is_group_size(n: usize) -> bool
    ensures both { MatchBool result (IsGroup n) (IsGroup n → ⊥) }
    ensures limit { result ≡ true → n ≤ 5 }
{
    n == 3 || n == 5
}

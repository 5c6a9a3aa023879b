//! Laws of sizes.
ghost use Rattle.std.specs.Prelude.{ℕ, ◌≤◌, ◌≡◌, T as Holds, List, sum_by};
ghost use Rattle.rows.specs.declared.size.Size.{Size};
ghost use Rattle.rows.specs.Sizes.{Part, amount, by_parts, total, fits};

/// What holds of each part of a size holds of the size: a size has the parts that it is made of,
/// two of the same parts are one, one fits where each part does and the other way round, and each
/// part of what some sizes are together is the sum of that part.
pub fn sizes_go_by_parts()
    ensures made { (p : Part) (f : Part → ℕ) → amount p (by_parts f) ≡ f p }
    ensures same { (a b : Size) → ((p : Part) → amount p a ≡ amount p b) → a ≡ b }
    ensures fits { (a b : Size) → ((p : Part) → amount p a ≤ amount p b) → Holds (fits a b) }
    ensures parts { (a b : Size) → Holds (fits a b) → (p : Part) → amount p a ≤ amount p b }
    ensures sums { (p : Part) (zs : List Size)
        → amount p (total (λ z. z) zs) ≡ sum_by (amount p) zs }
{}

ghost use Rattle.std.specs.Prelude.{◌≡◌, ℕ, ◌<◌, ◌≤◌, Bool, true};

// A bond pairs points, of which it has 64 at most. Asking leaves it meaning what it meant, but may change it, so that a
// bond can count what it is asked, or keep answers.
pub trait Bond {
    ghost points: { Self → ℕ };

    ghost pairs: { Self → ℕ → ℕ → Bool };

    // How many points it has. That it stays as it was is told of the bond before and after a call, which no type holds; so
    // with all that asks a bond.
    fn size(&mut self) -> usize
        ensures answer { result ≡ points self.old }
        ensures stays { points self.new ≡ points self.old }
        ensures keeps { pairs self.new ≡ pairs self.old };

    // Whether two points are a pair, which they are not where it lacks one of them.
    fn pair(&mut self, p: usize, q: usize) -> bool
        ensures answer { result ≡ pairs self.old p q }
        ensures stays { points self.new ≡ points self.old }
        ensures keeps { pairs self.new ≡ pairs self.old };

    ghost few: { (s : Self) → points s ≤ 64 };

    ghost symmetric: { (s : Self) (p q : ℕ) → pairs s p q ≡ pairs s q p };

    ghost lacks: { (s : Self) (p q : ℕ) → pairs s p q ≡ true → p < points s };
}

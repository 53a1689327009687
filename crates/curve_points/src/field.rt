//! Numbers modulo a prime, as a crate of a curve gives them.
ghost use Rattle.std.specs.Prelude.{◌≡◌, ℕ, ◌+◌, ◌*◌, ◌<◌, ◌↔◌, true};
ghost use Rattle.curve_points.specs.Residues.{Congruent};
ghost use Rattle.curve_points.specs.Words.{number};

/// Numbers modulo a number, with their products.
pub trait Residue: Drop {
    /// What they are taken modulo.
    ghost modulus: { ℕ };

    /// A number that this stands for.
    ghost value: { Self → ℕ };

    /// 1.
    fn one() -> Self
        ensures { Congruent modulus (value result) 1 };

    /// The product.
    fn times(&self, other: &Self) -> Self
        // It is the product.
        ensures product { Congruent modulus (value result) (value self.now * value other.now) }
        // It stands for a number below the modulus.
        ensures reduced { value result < modulus };

    /// Whether both are one number.
    fn is_same(&self, other: &Self) -> bool
        ensures { (result ≡ true) ↔ Congruent modulus (value self.now) (value other.now) };

    /// The words of the modulus less 2, the least first: the power by that is the inverse, if the modulus is a prime.
    fn inverting_exponent() -> &'static [u64]
        ensures { number result.now + 2 ≡ modulus };

    ghost large: { 1 < modulus };
}

/// Numbers modulo a prime.
pub trait Field: Residue {
    /// The sum.
    fn plus(&self, other: &Self) -> Self
        ensures { Congruent Self.modulus (Self.value result) (Self.value self.now + Self.value other.now) };

    /// The difference.
    fn minus(&self, other: &Self) -> Self
        ensures { Congruent Self.modulus (Self.value result + Self.value other.now) (Self.value self.now) };

    /// Whether this is 0.
    fn is_zero(&self) -> bool
        ensures { (result ≡ true) ↔ Congruent Self.modulus (Self.value self.now) 0 };

    /// The same number once more.
    fn again(&self) -> Self
        ensures { Self.value result ≡ Self.value self.now };
}

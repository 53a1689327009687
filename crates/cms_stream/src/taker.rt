ghost use Rattle.std.specs.Prelude.{ℕ, List, ◌++◌};

/// What takes octets as they pass.
pub trait Taker {
    // It took these octets, all pieces joined.
    ghost held: { Self → List ℕ → Type 0 };

    /// Takes a piece.
    fn take(&mut self, octets: &[u8])
        // The octets come after those that it held.
        ensures { (m : List ℕ) → held self.old m → held self.new (m ++ octets.now) };
}

/// Takes octets and discards them.
#[derive(Clone, Copy)]
pub(crate) struct Skip;

impl Taker for Skip {
    ghost use Rattle.std.specs.Prelude.{⊤};

    ghost held = { λ _ _. ⊤ };

    fn take(&mut self, _octets: &[u8]) {}
}

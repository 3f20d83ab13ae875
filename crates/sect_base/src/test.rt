// Tests of values.

ghost use Rattle.std.specs.Prelude.{◌≡◌, Bool};

/// A test of values.
pub trait Test<V> {
    /// Whether a value passes.
    ghost passes: { Self → V → Bool };

    /// Whether a value passes. It takes no memory.
    fn passes(&self, value: V) -> bool
        ensures { result ≡ passes self.now value };
}

ghost use Rattle.std.specs.Prelude.{◌≡◌};

/// A type whose clone equals its source.
pub trait Exact: Clone {
    ghost exact: { (x y : Self) → Self.is_clone x y → y ≡ x };
}

//! What the lock requires of its value.
ghost use Rattle.std.specs.Prelude.{ℕ, List};

/// A value that keeps a list of entries, each of one client, and a ground that no turn changes.
///
/// All three are ghost: the lock never calls the value.
pub trait Chronicle {
    /// One entry of the list.
    type Entry;

    /// The part that no turn changes.
    type Ground;

    ghost entries: { Self → List Self.Entry };

    ghost client: { Self.Entry → ℕ };

    ghost ground: { Self → Self.Ground };
}

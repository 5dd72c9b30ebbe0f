ghost use Rattle.std.specs.Prelude.{◌≡◌, OnOk, OnErr};

use oim_names::Copied;
use std::alloc::{AllocError, Global};

/// A value that merges with others of its type. The merge of several values does not depend on
/// their order, grouping or repetition.
pub trait Merge: Copied {
    /// The property that every value of the type has.
    ghost is_known: { Self → Type 0 };

    /// The first value after the second value is merged into it.
    ghost merged: { Self → Self → Self };

    /// Merges another value into this one.
    ///
    /// Errors: out of memory; the value is then unchanged.
    fn merge(&mut self, alloc: Global, other: &Self) -> Result<(), AllocError>
        ensures ok { OnOk result (self.new ≡ merged self.old other.now) }
        ensures err { OnErr result (self.new ≡ self.old) };

    /// Does nothing. The contract states the property that every value of the type has.
    fn known(&self)
        ensures { is_known self.now };

    /// If two values have the property `is_known`, so has their merge.
    ghost closed: { (x y : Self) → is_known x → is_known y → is_known (merged x y) };

    /// Merging three values gives the same result in either grouping.
    ghost associative: { (x y z : Self) → is_known x → is_known y → is_known z → merged (merged x y) z ≡ merged x (merged y z) };

    /// Merging two values gives the same result in either order.
    ghost commutative: { (x y : Self) → is_known x → is_known y → merged x y ≡ merged y x };

    /// Merging a value with itself gives the same value.
    ghost idempotent: { (x : Self) → is_known x → merged x x ≡ x };
}

/// A pair is merged part by part.
impl<A: Merge, B: Merge> Merge for (A, B) {
    ghost use Rattle.std.specs.Prelude.{◌≡◌};

    ghost is_known = { λ p. A.is_known p.0 × B.is_known p.1 };

    ghost merged = { λ p q. (A.merged p.0 q.0, B.merged p.1 q.1) };

    ghost closed = { λ p q f g. (A.closed p.0 q.0 f.0 g.0, B.closed p.1 q.1 f.1 g.1) };

    ghost associative = { λ p q r f g h. λ i. (A.associative p.0 q.0 r.0 f.0 g.0 h.0 i, B.associative p.1 q.1 r.1 f.1 g.1 h.1 i) };

    ghost commutative = { λ p q f g. λ i. (A.commutative p.0 q.0 f.0 g.0 i, B.commutative p.1 q.1 f.1 g.1 i) };

    ghost idempotent = { λ p f. λ i. (A.idempotent p.0 f.0 i, B.idempotent p.1 f.1 i) };

    // The second part is merged into a copy, so that nothing changes if memory for the first part
    // is refused.
    fn merge(&mut self, alloc: Global, other: &Self) -> Result<(), AllocError> {
        let mut second = self.1.copied(alloc)?;
        second.merge(alloc, &other.1)?;
        self.0.merge(alloc, &other.0)?;
        self.1 = second;
        Ok(())
    }

    fn known(&self) {
        self.0.known();
        self.1.known();
    }
}

// The laws of small polynomials, over the definitions that their calls cite.
ghost use Rattle.blic_field.specs.Field.{add, blend, IsPrime, minus_one, modulus, mul, neg, or, sub};
ghost use Rattle.blic_field.specs.Quadratic.{at, HasElements, interpolate, Quadratic};
ghost use Rattle.blic_poly2.specs.Poly.{lin_at, LinHasElements, reduced_at};
ghost use Rattle.blic_poly2.specs.declared.linear.Lin.{Lin};
ghost use Rattle.std.specs.Prelude.{◌≡◌, ◌<◌, ◌⊎◌, ℕ};

/// A polynomial is given by its values at 0, 1 and -1, and a linear one by those at 0 and 1.
pub fn interpolation_law()
    ensures back { (p : Quadratic) → HasElements p → interpolate (at p) ≡ p }
    ensures elements { (f : ℕ → ℕ) → f 0 < modulus → HasElements (interpolate f) }

    // if f is a polynomial, it is the one through its values
    ensures values { (f : ℕ → ℕ) (p : Quadratic) → ((x : ℕ) → x < modulus → f x ≡ at p x)
        → (x : ℕ) → x < modulus → at (interpolate f) x ≡ f x }
    ensures unique { (p q : Quadratic) → HasElements p → HasElements q
        → at p 0 ≡ at q 0 → at p 1 ≡ at q 1 → at p minus_one ≡ at q minus_one → p ≡ q }
    ensures linear_unique { (a b : Lin) → LinHasElements a → LinHasElements b
        → lin_at a 0 ≡ lin_at b 0 → lin_at a 1 ≡ lin_at b 1 → a ≡ b }
{}

/// Blending the coefficients blends the value at each point.
pub fn blending_law()
    ensures poly { (s : ℕ) (p q : Quadratic) (x : ℕ)
        → at (record { c0 = blend s p.c0 q.c0; c1 = blend s p.c1 q.c1; c2 = blend s p.c2 q.c2 }) x
        ≡ blend s (at p x) (at q x) }
    ensures linear { (s : ℕ) (a b : Lin) (x : ℕ)
        → lin_at (record { c0 = blend s a.c0 b.c0; c1 = blend s a.c1 b.c1 }) x
        ≡ blend s (lin_at a x) (lin_at b x) }
{}

/// Reducing keeps the values at 0 and 1, and is linear in the point.
pub fn reducing_law()
    ensures blend { (p : Quadratic) (s : ℕ) → reduced_at p s ≡ blend s (at p 0) (at p 1) }
    ensures zero { (p : Quadratic) → reduced_at p 0 ≡ at p 0 }
    ensures one { (p : Quadratic) → reduced_at p 1 ≡ at p 1 }
    ensures linear { (p : Quadratic) (s : ℕ) → reduced_at p s ≡ add p.c0 (mul s (add p.c1 p.c2)) }
{}

/// The product and the or of two linear polynomials are polynomials of degree at most two. Their value at each point is the
/// product, or the or, of the values there.
pub fn product_law()
    ensures product { (a b : Lin) (x : ℕ)
        → at (record { c0 = mul a.c0 b.c0; c1 = add (mul a.c0 b.c1) (mul a.c1 b.c0); c2 = mul a.c1 b.c1 }) x
        ≡ mul (lin_at a x) (lin_at b x) }
    ensures or { (a b : Lin) (x : ℕ)
        → at (record {
          c0 = or a.c0 b.c0;
          c1 = sub (add a.c1 b.c1) (add (mul a.c0 b.c1) (mul a.c1 b.c0));
          c2 = neg (mul a.c1 b.c1);
        }) x ≡ or (lin_at a x) (lin_at b x) }
{}

/// Given that the modulus is prime, a polynomial of degree at most two that isn't zero has no three different roots.
pub fn roots_law()
    ensures { IsPrime modulus → (p : Quadratic) → HasElements p → (p ≡ record { c0 = 0; c1 = 0; c2 = 0 } → ⊥)
        → (a b c : ℕ) → a < modulus → b < modulus → c < modulus → at p a ≡ 0 → at p b ≡ 0 → at p c ≡ 0
        → (a ≡ b) ⊎ ((a ≡ c) ⊎ (b ≡ c)) }
{}

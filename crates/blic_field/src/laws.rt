// The laws of the field, over the definitions that the calls of `Fe` cite.
ghost use Rattle.blic_field.specs.Field.{add, half, IsPrime, minus_one, modulus, mul, neg, sub};
ghost use Rattle.std.specs.Prelude.{◌≡◌, ◌<◌, ◌⊎◌, ℕ};

/// The elements are a commutative ring. Nothing is assumed of the modulus.
pub fn ring_laws()
    ensures sum_is_element { (a b : ℕ) → add a b < modulus }
    ensures product_is_element { (a b : ℕ) → mul a b < modulus }
    ensures negative_is_element { (a : ℕ) → neg a < modulus }
    ensures add_comm { (a b : ℕ) → add a b ≡ add b a }
    ensures add_assoc { (a b c : ℕ) → add (add a b) c ≡ add a (add b c) }
    ensures zero { (a : ℕ) → a < modulus → add a 0 ≡ a }
    ensures negative { (a : ℕ) → add a (neg a) ≡ 0 }
    ensures minus_one { neg 1 ≡ minus_one }
    ensures half { add half half ≡ 1 }
    ensures difference { (a b : ℕ) → sub a b ≡ add a (neg b) }
    ensures mul_comm { (a b : ℕ) → mul a b ≡ mul b a }
    ensures mul_assoc { (a b c : ℕ) → mul (mul a b) c ≡ mul a (mul b c) }
    ensures one { (a : ℕ) → a < modulus → mul a 1 ≡ a }
    ensures distrib { (a b c : ℕ) → mul a (add b c) ≡ add (mul a b) (mul a c) }
{}

/// A product is 0 only if a factor is, given that the modulus is prime. This crate has no proof of that.
pub fn no_zero_divisor_law()
    ensures { IsPrime modulus → (a b : ℕ) → a < modulus → b < modulus → mul a b ≡ 0 → (a ≡ 0) ⊎ (b ≡ 0) }
{}

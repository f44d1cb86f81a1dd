// The polynomials that are kept for a draw.
ghost use Rattle.std.specs.Prelude.{◌≡◌, ◌<◌, ◌≤◌, ℕ, length, slice_index_or};
ghost use Rattle.blic_verifier.specs.Acceptance.{no_poly};

use blic_poly2::Poly2;

/// Keeps the polynomials for the draw.
pub(crate) fn keep(kept: &mut [Poly2], polys: &[Poly2])
    requires { length polys.now ≤ length kept.old }
    ensures { (c : ℕ) → c < length polys.now → slice_index_or kept.new c no_poly ≡ slice_index_or polys.now c no_poly }
{
    for (c, poly) in polys.iter().enumerate() {
        kept[c] = *poly;
    }
}

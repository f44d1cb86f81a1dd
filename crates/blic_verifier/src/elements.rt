// What the type of an element says of its number, and of the numbers of a reply.
ghost use Rattle.std.specs.Prelude.{◌<◌, All};
ghost use Rattle.blic_field.specs.Field.{modulus};
ghost use Rattle.blic_field.specs.Quadratic.{HasElements};
ghost use Rattle.blic_messages.specs.Replies.{said};
ghost use Rattle.blic_verifier.specs.SoundnessLaws.{SaidHasElements};

use blic_field::Fe;
use blic_messages::Reply;
use blic_poly2::Poly2;

/// The number of an element is below the modulus.
pub(crate) fn is_element(element: Fe)
    ensures { element < modulus }
{
    element.value();
}

/// The numbers of a reply are elements.
pub(crate) fn has_elements(reply: &Reply<'_>)
    ensures { SaidHasElements (said reply.now) }
{
    match reply {
        Reply::Polys(polys) => have_elements(polys),
        Reply::Values(u, w) => {
            is_element(*u);
            is_element(*w);
        }
        _ => {}
    }
}

fn have_elements(polys: &[Poly2])
    ensures { All HasElements polys.now }
{
    for c in 0..polys.len() {
        let poly = polys[c];
        is_element(poly.c0);
        is_element(poly.c1);
        is_element(poly.c2);
    }
}

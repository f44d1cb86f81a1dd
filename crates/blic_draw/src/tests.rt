// The first draws of the seed of zeros.
use crate::Draws;

#[test]
fn the_first_draws_of_the_zero_seed(rt: HostRuntime) {
    let mut draws = Draws::new([0; 32]);
    assert_eq!(rt; draws.next().value(), 1170357150600444022);
    assert_eq!(rt; draws.next().value(), 629807217791098176);
    assert_eq!(rt; draws.next().value(), 1940362735889535677);
    assert_eq!(rt; draws.place(), 3);
}

#[test]
fn draws_from_a_place_on_are_those_of_their_numbers(rt: HostRuntime) {
    let mut draws = Draws::at([0; 32], 2);
    assert_eq!(rt; draws.next().value(), 1940362735889535677);
}

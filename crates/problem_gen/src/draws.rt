// The numbers that the generator draws.
ghost use Rattle.std.specs.Prelude.{◌≡◌, ◌<◌, ◌⊎◌};
ghost use Rattle.problem_gen.specs.Draws.{drawn, draw, pick};

use board_core::Kind;

// What a number draws at a place in the order of its draws, which begins at 1.
fn drawn(number: u64, place: u8) -> u64
    ensures drawn { result ≡ drawn number place }
    ensures below { result < 2147483647 }
{
    let mut x = 1 + number % 2_147_483_646;
    for _done in 0..place {
        x = 48271 * x % 2_147_483_647;
    }
    x
}

/// The draw of a place, from 1, among so many.
pub(crate) fn draw(number: u64, place: u8, among: u8) -> u8
    requires { 0 < among }
    ensures draw { result ≡ draw number place among }
    ensures below { result < among }
{
    (drawn(number, place) % u64::from(among)) as u8
}

/// One of three kinds by a draw among three.
pub(crate) fn pick(a: Kind, b: Kind, c: Kind, n: u8) -> Kind
    ensures pick { result ≡ pick a b c n }
    ensures one { (result ≡ a) ⊎ ((result ≡ b) ⊎ (result ≡ c)) }
{
    match n {
        0 => a,
        1 => b,
        _ => c,
    }
}

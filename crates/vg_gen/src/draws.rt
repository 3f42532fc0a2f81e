//! The numbers that a client draws.

ghost use Rattle.std.specs.Prelude.{◌≡◌};
ghost use Rattle.vg_gen.specs.Draws as generator;

/// What a client draws, counted from 1: the upper 32 bits of a linear congruential generator's state.
pub(crate) fn draw(number: u64, client: u32, n: u32) -> u32
    ensures { result ≡ generator.draw number client n }
{
    (state(number, client, n) >> 32) as u32
}

/// The generator's state after so many draws, which are few.
#[tactic(auto, unfolding(crate::specs::Draws::state))]
fn state(number: u64, client: u32, draws: u32) -> u64
    ensures { result ≡ generator.state number client draws }
{
    let step = u64::from(client).wrapping_mul(0x9e37_79b9_7f4a_7c15);
    let mut state = number.wrapping_add(step);
    for _draw in 0..draws {
        state = state
            .wrapping_mul(6_364_136_223_846_793_005)
            .wrapping_add(1_442_695_040_888_963_407);
    }
    state
}

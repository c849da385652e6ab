//! Draws of a linear congruential generator.
ghost use Rattle.std.specs.Prelude.{◌≡◌};
ghost use Rattle.mq_script.specs.Generated.{drawn, next_state};

const MULTIPLIER: u64 = 6_364_136_223_846_793_005;

const INCREMENT: u64 = 1_442_695_040_888_963_407;

/// The state behind another one.
#[tactic(auto, unfolding(crate::specs::Generated::next_state))]
pub fn next_state(state: u64) -> u64
    ensures { result ≡ next_state state }
{
    state.wrapping_mul(MULTIPLIER).wrapping_add(INCREMENT)
}

/// What is drawn where the state becomes this.
pub fn drawn(state: u64) -> u32
    ensures { result ≡ drawn state }
{
    (state >> 32) as u32
}

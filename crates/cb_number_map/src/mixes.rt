//! Mixes: numbers that depend alone on what was mixed in, and that few others have.
ghost use Rattle.std.specs.Prelude.{◌≡◌};
ghost use Rattle.cb_number_map.specs.Mixes.{key_of, mixed};

/// By this an earlier number is multiplied where a later one is mixed in.
const MULTIPLIER: u64 = 11_400_714_819_323_198_485;

/// One more number mixed in.
#[tactic(auto, unfolding(crate::specs::Mixes::mixed))]
pub fn mixed(mix: u64, number: u64) -> u64
    ensures { result ≡ mixed mix number }
{
    mix.wrapping_mul(MULTIPLIER).wrapping_add(number)
}

/// The key under which a mix is filed: the upper half, once all of it is spread over that.
#[tactic(auto, unfolding(crate::specs::Mixes::key_of))]
pub fn key_of(mix: u64) -> u32
    ensures { result ≡ key_of mix }
{
    (mixed(mix, 0) >> 32) as u32
}

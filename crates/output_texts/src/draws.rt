//! Numbers that are drawn.

ghost use Rattle.std.specs.Prelude.{◌≡◌, ◌<◌, ◌%◌};
ghost use Rattle.output_texts.specs.Draws.{seeded, word_of, next_state};

use rand_core::SeedableRng;
use rand_core::utils::NextWord;
use rand_xoshiro::Xoshiro256PlusPlus;

/// The generator of words that a seed gives.
#[tactic(auto, unfolding(crate::specs::Draws::seeded))]
pub(crate) fn seeded(seed: u32) -> Xoshiro256PlusPlus
    ensures { result ≡ seeded seed }
{
    Xoshiro256PlusPlus::seed_from_u64(u64::from(seed))
}

/// The next word, modulo `below`.
#[tactic(auto, unfolding(crate::specs::Draws::word_of, crate::specs::Draws::next_state))]
pub(crate) fn draw(words: &mut Xoshiro256PlusPlus, below: u32) -> u32
    requires { 0 < below }
    ensures value { result ≡ word_of words.old % below }
    ensures moved { words.new ≡ next_state words.old }
    ensures small { result < below }
{
    (words.next_word() % u64::from(below)) as u32
}

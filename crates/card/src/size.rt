// How many blocks a card has.
ghost use Rattle.std.specs.Prelude.{◌≡◌, ◌<◌, ◌≤◌, ◌⊎◌, MatchOption};

// A number of blocks as a card's: 130 to 65,536. None where no card has as many.
pub fn card_size(blocks: u64) -> Option<u32>
    ensures { MatchOption result ((blocks < 130) ⊎ (65536 < blocks)) (λ n. (n ≡ blocks) × (130 ≤ n) × (n ≤ 65536)) }
{
    u32::try_from(blocks)
        .ok()
        .filter(|blocks| (130..=65_536).contains(blocks))
}

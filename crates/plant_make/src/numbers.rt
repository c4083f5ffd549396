//! The numbers that a plant is made of.
ghost use Rattle.std.specs.Prelude.{◌≡◌, ◌+◌, ◌*◌, ◌<◌};
ghost use Rattle.plant_make.specs.Made.{next, stepped, number_at};

/// The number of 64 bits after this one.
#[tactic(auto, unfolding(crate::specs::Made::next))]
fn next(x: u64) -> u64
    ensures { result ≡ next x }
{
    x.wrapping_mul(6_364_136_223_846_793_005)
        .wrapping_add(1_442_695_040_888_963_407)
}

/// The number of 64 bits after so many steps from the seed.
#[tactic(auto, unfolding(crate::specs::Made::stepped))]
fn stepped(seed: u32, steps: u32) -> u64
    ensures { result ≡ stepped seed steps }
{
    let mut x = u64::from(seed);
    for _step in 0..steps {
        x = next(x);
    }
    x
}

/// The number below `n` that is taken at a place. Places count from 0, and it takes time linear in them.
#[tactic(auto, unfolding(crate::specs::Made::number_at))]
pub fn number_at(seed: u32, place: u32, n: u32) -> u32
    requires some { 0 < n }
    requires place { place < 1000 }
    ensures value { result ≡ number_at seed place n }
    ensures below { result < n }
{
    let x = stepped(seed, place + 1);
    ((x >> 33) % u64::from(n)) as u32
}

/// The number below `n` that a chain takes at one of its 15 places.
pub fn of_chain(seed: u32, chain: u32, place: u32, n: u32) -> u32
    requires some { 0 < n }
    requires chain { chain < 8 }
    requires place { place < 15 }
    ensures value { result ≡ number_at seed (15 * chain + place) n }
    ensures below { result < n }
{
    number_at(seed, 15 * chain + place, n)
}

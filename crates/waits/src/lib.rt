// How long a scanner waits after a failed commit.
#![tactic(auto)]

ghost use Rattle.std.specs.Prelude.{◌≡◌};
ghost use Rattle.waits.specs.Waits.{turns_after, Doubling};

// The turns of waiting by failed commits, from the first on; further ones wait as long as the last.
const WAITS: [u32; 8] = [0, 1, 2, 4, 8, 16, 32, 64];

// The turns of waiting after a request's failed-th failed commit, counted from 1; after none there is no wait.
pub fn turns(failed: u32) -> u32
    ensures listed { result ≡ turns_after failed }
    ensures doubling { Doubling turns_after }
{
    let Some(index) = failed.checked_sub(1) else {
        return 0;
    };
    WAITS.get(index as usize).copied().unwrap_or(WAITS[7])
}

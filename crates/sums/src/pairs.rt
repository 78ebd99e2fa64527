// What is remembered of sums, in lent memory: for a pair of forms two places, one for its key and one for the form of its sum. A pair may push out another.
ghost use Rattle.std.specs.Prelude.{◌≡◌, ◌+◌, ◌*◌, ◌<◌, ◌⊎◌, MatchOption};
ghost use Rattle.sums.specs.Pairs.{key_of, Recalled, OnlyMore};

// The key of a pair of forms, in whichever order they stand. No pair has key 0, which stands for none in the lent row.
fn key(x: u16, y: u16) -> u32
    ensures { (result ≡ key_of x y) ⊎ (result ≡ key_of y x) }
{
    1 + x.min(y) as u32 * 16384 + x.max(y) as u32
}

// Which two places of so many a key has, or None where there are no two.
fn slot(places: usize, key: u32) -> Option<usize>
    ensures { MatchOption result Unit (λ i. 2 * i + 1 < places) }
{
    let key = key as usize;
    (key / 16384 * 40503 + key).checked_rem(places / 2)
}

// The form of a sum, if it is remembered.
pub(crate) fn recall(pairs: &[u32], x: u16, y: u16) -> Option<u16>
    requires first { x < 16384 }
    requires second { y < 16384 }
    ensures { Recalled pairs.now x y result }
{
    let key = key(x, y);
    let i = slot(pairs.len(), key)?;
    let form = pairs[2 * i + 1];
    (pairs[2 * i] == key && form < 16384).then(|| form as u16)
}

// Remembers the form of a sum, if there is a place.
pub(crate) fn keep(pairs: &mut [u32], x: u16, y: u16, form: u16)
    requires first { x < 16384 }
    requires second { y < 16384 }
    ensures { OnlyMore pairs.old x y form pairs.new }
{
    let key = key(x, y);
    let Some(i) = slot(pairs.len(), key) else {
        return;
    };
    pairs[2 * i] = key;
    pairs[2 * i + 1] = form as u32;
}

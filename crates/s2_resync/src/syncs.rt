//! Where packets can begin, by their sync bytes.
ghost use Rattle.std.specs.Prelude.{◌≡◌, ◌<◌, ℕ, length, IfSome, Some, None};
ghost use Rattle.s2_resync.specs.Syncs.{distance_at, has_five, has_sync};

use s2_bbframe::SYNC;

/// Five sync bytes that follow each other: the place of the first, and the distance from one to the next.
#[derive(Clone, Copy, Debug, PartialEq, Eq)]
pub struct Syncs {
    pub place: usize,
    pub distance: usize,
}

/// Whether a place has a sync byte.
pub(crate) fn has_sync(bytes: &[u8], place: usize) -> bool
    ensures { result ≡ has_sync bytes.now place }
{
    place < bytes.len() && bytes[place] == SYNC
}

/// Whether five sync bytes follow each other at a distance, from a place on.
pub(crate) fn has_five(bytes: &[u8], place: usize, distance: usize) -> bool
    requires place { place < 1000000 }
    requires distance { distance < 1000 }
    ensures { result ≡ has_five bytes.now place distance }
{
    has_sync(bytes, place)
        && has_sync(bytes, place + distance)
        && has_sync(bytes, place + 2 * distance)
        && has_sync(bytes, place + 3 * distance)
        && has_sync(bytes, place + 4 * distance)
}

/// The least distance at which five sync bytes follow each other from a place on: 188, 192 or 204 bytes.
fn distance_at(bytes: &[u8], place: usize) -> Option<usize>
    requires { place < 1000000 }
    ensures { result ≡ distance_at bytes.now place }
{
    if has_five(bytes, place, 188) {
        Some(188)
    } else if has_five(bytes, place, 192) {
        Some(192)
    } else if has_five(bytes, place, 204) {
        Some(204)
    } else {
        None
    }
}

/// The first place in the bytes of a file from which five sync bytes follow each other at the distance of packets: 188,
/// 192 or 204 bytes, the least of them. `None` if there is no such place.
pub fn first_syncs(bytes: &[u8]) -> Option<Syncs>
    requires { length bytes.now < 1000000 }
    ensures found { IfSome result (λ s. distance_at bytes.now s.place ≡ Some s.distance) }
    ensures first { IfSome result (λ s. (place : ℕ) → place < s.place → distance_at bytes.now place ≡ None) }
    ensures none { result ≡ None → (place : ℕ) → place < length bytes.now → distance_at bytes.now place ≡ None }
{
    for place in 0..bytes.len() {
        if let Some(distance) = distance_at(bytes, place) {
            return Some(Syncs { place, distance });
        }
    }
    None
}

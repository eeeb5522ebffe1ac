//! What one thread sees of a cache in parts. The key `a` is of the last of four parts, `c` of the first.
use crate::play::{play, play_over};
use crate::seats::{ROOM, lists_within};
use pcache_base::seed::Seed;
use pcache_evict::eviction::EvictionManager;
use pcache_evict::eviction::simple_lru::Manager;
use pcache_shared_cache::{Portion, SharedCache};
use std::time::Duration;

const A_BODY_IS_STORED_FOUND_AND_PURGED: &str = "
    0 key a
    0 look 0 -> key permit
    0 fill hi 60 -> okokokok
    0 key a
    0 look 0 -> until 60 hit
    0 read -> hi
    0 key b
    0 look 0 -> key permit
    0 stored -> 2 in 1
    0 key a
    0 purge -> yes
    0 key a
    0 purge -> no
    0 stored -> 0 in 0";

#[test]
fn a_body_is_stored_found_and_purged(rt: HostRuntime) {
    play(
        &rt,
        rt.alloc(),
        4 * ROOM + 16,
        &[A_BODY_IS_STORED_FOUND_AND_PURGED],
    );
}

// The numbers were computed by another program: the first eight bytes of BLAKE2b with 16 bytes out, modulo
// four.
const A_KEY_HAS_ITS_PART_FROM_ITS_HASH: &str = "
    0 key a
    0 place -> 3
    0 key b
    0 place -> 1
    0 key c
    0 place -> 0
    0 key one
    0 place -> 2";

#[test]
fn a_key_has_its_part_from_its_hash(rt: HostRuntime) {
    play(
        &rt,
        rt.alloc(),
        4 * ROOM + 16,
        &[A_KEY_HAS_ITS_PART_FROM_ITS_HASH],
    );
}

// Each part keeps its own limit: beside the room for an entry the first part has three of nine bytes, and the others two each.
const EACH_PART_KEEPS_ITS_PORTION: &str = "
    0 key c
    0 look 0 -> key permit
    0 fill abc 60 -> okokokok
    0 key c
    0 look 0 -> until 60 hit
    0 read -> abc
    0 key one
    0 look 0 -> key permit
    0 fill abc 60 -> okokokok
    0 key one
    0 look 0 -> key permit
    0 key one
    0 look 0 -> key permit
    0 fill ab 60 -> okokokok
    0 key one
    0 look 0 -> until 60 hit
    0 read -> ab
    0 key two
    0 look 0 -> key permit
    0 fill ab 60 -> okokokok
    0 key c
    0 look 0 -> key permit
    0 stored -> 4 in 2";

#[test]
fn each_part_keeps_its_portion(rt: HostRuntime) {
    play(
        &rt,
        rt.alloc(),
        4 * ROOM + 9,
        &[EACH_PART_KEEPS_ITS_PORTION],
    );
}

// A caller who has seen a part asks that part alone: what was stored since counts, and a purge that it was told of does too.
const EACH_PART_TELLS_WHAT_IT_HAS_STORED: &str = "
    0 part 0 -> 0
    1 part 3 -> 3
    1 seen -> 0 in 0
    2 key a
    2 look 0 -> key permit
    2 fill hi 60 -> okokokok
    2 key c
    2 look 0 -> key permit
    2 fill abc 60 -> okokokok
    0 seen -> 3 in 1
    1 seen -> 2 in 1
    2 key a
    2 purge -> yes
    1 seen -> 0 in 0
    0 seen -> 3 in 1";

#[test]
fn each_part_tells_what_it_has_stored(rt: HostRuntime) {
    play(
        &rt,
        rt.alloc(),
        4 * ROOM + 16,
        &[EACH_PART_TELLS_WHAT_IT_HAS_STORED],
    );
}

const TWO_ARE_STORED: &str = "
    0 key a
    0 look 0 -> key permit
    0 fill hi 60 -> okokokok
    0 key c
    0 look 0 -> key permit
    0 fill abc 60 -> okokokok";

const IT_STARTS_ANEW: &str = "
    0 stored -> 0 in 0
    0 key a
    0 look 0 -> key permit
    0 key a
    0 look 0 -> key permit
    0 fill ho 60 -> okokokok
    0 key a
    0 look 0 -> until 60 hit
    0 read -> ho";

// What each part's manager tracks is handed out by place, and a cache is made of it anew, with nothing stored.
#[test]
fn managers_are_handed_out_by_place(rt: HostRuntime) {
    match lists_within(rt.alloc(), 4 * ROOM + 9) {
        Ok(cache) => {
            let portions = play_over(&rt, cache, TWO_ARE_STORED).into_portions(&rt);
            assert!(rt; track_both(portions.as_slice()));
            match SharedCache::new(rt.alloc(), Seed::fixed(), portions, Duration::from_secs(10)) {
                Ok(again) => {
                    let _cache = play_over(&rt, again, IT_STARTS_ANEW);
                }
                Err(_refused) => assert!(rt; false),
            }
        }
        Err(_refused) => assert!(rt; false),
    }
}

// The limit of each part, and what it tracks.
fn track_both(portions: &[Portion<Manager>]) -> bool {
    tracks(portions, 0, ROOM + 3, ROOM + 3)
        && tracks(portions, 1, ROOM + 2, 0)
        && tracks(portions, 2, ROOM + 2, 0)
        && tracks(portions, 3, ROOM + 2, ROOM + 2)
}

fn tracks(portions: &[Portion<Manager>], place: usize, limit: usize, weight: usize) -> bool {
    match portions.get(place) {
        Some(portion) => portion.limit() == limit && portion.manager().total_size() == weight,
        None => false,
    }
}

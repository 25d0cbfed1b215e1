//! Maps that get one level after another: with 9,000 names that come in order there are over 31 groups, so that a map
//! has all its levels.
use crate::shared_maps::*;

/// The name at a place, in the order of the step. The names of numbers from 10,000 on have the order of these.
fn name_at(alloc: Global, place: u64, step: u64) -> Result<TrustDomain, Fail> {
    name(alloc, number_at(place, step).saturating_add(10_000))
}

/// All small sizes are looked at, and some of the others.
fn is_looked_at(size: u64) -> bool {
    size < 40 || size % 300 == 0
}

/// All names come to both, in the order of this step, and go again in another one.
fn grow_and_shrink(
    alloc: Global,
    map: &mut SharedMap<Number>,
    plain: &mut BTreeMap<TrustDomain, u64>,
    step: u64,
) -> Result<(), Fail> {
    for place in 0..PLACES {
        map.insert(name_at(alloc, place, step)?, Number(place))?;
        put_plain(plain, name_at(alloc, place, step)?, place)?;
        if is_looked_at(place) {
            are_same(map, plain)?;
        }
    }
    for place in 0..PLACES {
        let name = name_at(alloc, place, 4999)?;
        map.remove(&name)?;
        plain.remove(&name);
        if is_looked_at(PLACES - 1 - place) {
            are_same(map, plain)?;
        }
    }
    is_equal(&map.len(), &0)
}

#[test]
fn a_map_with_any_number_of_levels_is_a_list_in_order(rt: HostRuntime) -> Result<(), Fail> {
    // in order, the other way round, and mixed
    for step in [1, PLACES - 1, 3677] {
        let mut map = SharedMap::new(rt.alloc());
        let mut plain = BTreeMap::new(rt.alloc());
        let are_so = grow_and_shrink(rt.alloc(), &mut map, &mut plain, step);
        drop(plain);
        drop(map);
        are_so?;
    }
    Ok(())
}

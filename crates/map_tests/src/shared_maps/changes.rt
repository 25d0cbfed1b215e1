//! Maps that change, and copies of them that do not.
use crate::shared_maps::*;

/// What becomes of each of some names.
#[derive(Clone, Copy)]
enum Then {
    /// It gets its place as its value, or this value.
    Place,
    Value(u64),
    /// It is removed, and removed again.
    Gone,
}

/// The places from the first on, so many of them, with a step between two; and what becomes of the names there. The names are in
/// another order than the places.
type Change = (u64, u64, u64, Then);

static SCRIPTS: [&[Change]; 6] = [
    &[],
    // many names
    &[(310, 3000, 1, Then::Place)],
    // another value for one of them
    &[(0, 200, 1, Then::Place), (7, 1, 1, Then::Value(70))],
    // all that three does not divide are removed
    &[
        (0, 1000, 1, Then::Place),
        (1, 333, 3, Then::Gone),
        (2, 333, 3, Then::Gone),
    ],
    // all are removed, and one comes again
    &[
        (0, 1000, 1, Then::Place),
        (0, 1000, 1, Then::Gone),
        (1, 1, 1, Then::Place),
    ],
    // half are removed, the others get another value, and more come
    &[
        (0, 1000, 1, Then::Place),
        (0, 500, 2, Then::Gone),
        (1, 500, 2, Then::Value(0)),
        (1000, 500, 1, Then::Place),
    ],
];

fn name_at(alloc: Global, place: u64) -> Result<TrustDomain, Fail> {
    name(alloc, number_at(place, 3677))
}

fn apply(
    alloc: Global,
    map: &mut SharedMap<Number>,
    (first, count, step, then): Change,
) -> Result<(), Fail> {
    for turn in 0..count {
        let place = first.saturating_add(turn.saturating_mul(step));
        let name = name_at(alloc, place)?;
        match then {
            Then::Place => map.insert(name, Number(place))?,
            Then::Value(value) => map.insert(name, Number(value))?,
            Then::Gone => {
                map.remove(&name)?;
                map.remove(&name)?;
            }
        }
    }
    Ok(())
}

fn apply_plain(
    alloc: Global,
    plain: &mut BTreeMap<TrustDomain, u64>,
    (first, count, step, then): Change,
) -> Result<(), Fail> {
    for turn in 0..count {
        let place = first.saturating_add(turn.saturating_mul(step));
        let name = name_at(alloc, place)?;
        match then {
            Then::Place => put_plain(plain, name, place)?,
            Then::Value(value) => put_plain(plain, name, value)?,
            Then::Gone => {
                plain.remove(&name);
            }
        }
    }
    Ok(())
}

/// The plain map that these changes make.
fn plain_of(alloc: Global, changes: &[Change]) -> Result<BTreeMap<TrustDomain, u64>, Fail> {
    let mut plain = BTreeMap::new(alloc);
    for &change in changes {
        apply_plain(alloc, &mut plain, change)?;
    }
    Ok(plain)
}

/// The map is what these changes make, and has nothing at the other ones of the first places.
fn is_made_by(alloc: Global, map: &SharedMap<Number>, changes: &[Change]) -> Result<(), Fail> {
    let plain = plain_of(alloc, changes)?;
    are_same(map, &plain)?;
    for place in 0..310 {
        let name = name_at(alloc, place)?;
        let found = map.get(&name).map(|value| value.0);
        is_equal_at(&found, &plain.get(&name).copied(), &place)?;
    }
    Ok(())
}

/// The map is copied before each change, and each copy stays as it was.
fn keeps_copies(
    alloc: Global,
    map: &mut SharedMap<Number>,
    copies: &mut Vec<SharedMap<Number>>,
    changes: &[Change],
) -> Result<(), Fail> {
    for &change in changes {
        copies.push(map.copy()?)?;
        apply(alloc, map, change)?;
    }
    is_made_by(alloc, map, changes)?;
    for (count, copy) in copies.iter().enumerate() {
        is_made_by(alloc, copy, changes.get(..count).unwrap_or(&[]))?;
    }
    Ok(())
}

fn takes(alloc: Global, changes: &[Change]) -> Result<(), Fail> {
    let mut map = SharedMap::new(alloc);
    let mut copies = Vec::new(alloc);
    let are_so = keeps_copies(alloc, &mut map, &mut copies, changes);
    drop(copies);
    drop(map);
    are_so
}

#[test]
fn maps_change_and_their_copies_stay(rt: HostRuntime) -> Result<(), Fail> {
    for &changes in &SCRIPTS {
        takes(rt.alloc(), changes)?;
    }
    Ok(())
}

// 300 names come one by one.
#[test]
fn each_version_stays(rt: HostRuntime) -> Result<(), Fail> {
    let mut changes = Vec::new(rt.alloc());
    for place in 0..300 {
        changes.push((place, 1, 1, Then::Place))?;
    }
    takes(rt.alloc(), changes.as_slice())
}

/// Puts so many names into both maps. A refused growth leaves the map as it was, and ends this.
fn fill(
    alloc: Global,
    map: &mut SharedMap<Number>,
    plain: &mut BTreeMap<TrustDomain, u64>,
    count: u64,
) -> Result<(), Fail> {
    for place in 0..count {
        let name = name_at(alloc, place)?;
        let again = name.copy()?;
        if map.insert(name, Number(place)).is_err() {
            are_same(map, plain)?;
            return Err(Fail::from(AllocError));
        }
        put_plain(plain, again, place)?;
    }
    are_same(map, plain)
}

/// Of 600 names each kind of node is halved, and the map gets two levels over its runs.
#[test]
fn a_refused_growth_changes_nothing(rt: HostRuntime) -> Result<(), Fail> {
    let mut map = SharedMap::new(rt.alloc());
    let mut plain = BTreeMap::new(rt.alloc());
    let are_so = fill(rt.alloc(), &mut map, &mut plain, 600);
    drop(plain);
    drop(map);
    are_so
}

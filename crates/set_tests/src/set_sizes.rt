// The number of entries in results, and the number of values that they name.
use crate::sets::{are_same, both, made, size};
use env_sets::{Bound, Entry, EnvSet};
use std::alloc::Global;
use std::test::Fail;

/// Returns the number of values that the entries of a set name.
fn named(a: &EnvSet) -> usize {
    let (first, blocks) = a.blocks();
    let mut count = named_in(first);
    for block in blocks {
        count = count.saturating_add(named_in(block.as_slice()));
    }
    count
}

fn named_in(entries: &[Entry]) -> usize {
    let mut count: usize = 0;
    for e in entries {
        for p in e.pairs() {
            count = count.saturating_add(named_by(&p.1));
        }
    }
    count
}

fn named_by(bound: &Bound) -> usize {
    match bound {
        Bound::Is(_) => 1,
        Bound::Not(values) => values.count(),
    }
}

/// Whether the recipe makes a set of this many entries, which name this many values.
fn measures(alloc: Global, recipe: &str, entries: usize, values: usize) -> Result<bool, Fail> {
    let set = made(alloc, recipe)?;
    Ok(size(&set) == entries && named(&set) == values)
}

#[test]
fn results_stay_small(rt: HostRuntime) -> Result<(), Fail> {
    for (recipe, entries, values) in [
        ("x=1 y=2 & x=1 |", 1, 1),
        ("x=1 y=2 & x=2 |", 2, 3),
        ("x!3,1 x!2,3 |", 1, 1),
        ("x!3,1 x!2,3 | x=3 |", 1, 0),
        ("x!1,2 y!1 & x!1 y!1 & |", 1, 2),
        ("x=3 y!1 & x!1 y!1 & |", 1, 2),
        ("x=1 y=2 & x=3 y=1 & | x=1 y=1 | &", 2, 4),
        ("y=1 x!5 & y=1 x!26 & | y=1 x!5 & y=1 x!26 & | |", 2, 4),
    ] {
        assert!(rt; measures(rt.alloc(), recipe, entries, values)?, "{recipe}");
    }
    Ok(())
}

/// Returns a recipe for this many entries, each of which fixes x and y.
fn pairs(alloc: Global, count: u32) -> Result<String, Fail> {
    let mut recipe = format!(in alloc; "none")?;
    for k in 0..count {
        write!(recipe, " x={k} y={k} & |")?;
    }
    Ok(recipe)
}

/// Returns a recipe for this many entries over x and y, and as many over y and z.
fn around_y(alloc: Global, count: u32) -> Result<String, Fail> {
    let mut recipe = pairs(alloc, count)?;
    for k in 0..count {
        write!(recipe, " y={k} z={k} & |")?;
    }
    Ok(recipe)
}

/// Returns a recipe for the join of this many entries, each of which excludes another value of x.
fn exclusions(alloc: Global, count: u32) -> Result<String, Fail> {
    let mut recipe = format!(in alloc; "none")?;
    for k in 0..count {
        write!(recipe, " x!{k} |")?;
    }
    Ok(recipe)
}

/// Returns a recipe for this many entries that fix x and y, and entries that these cover.
fn covered_pairs(alloc: Global, count: u32) -> Result<String, Fail> {
    let mut recipe = pairs(alloc, count)?;
    for k in 0..count {
        write!(recipe, " x={k} y={k} & z={k} & |")?;
    }
    Ok(recipe)
}

/// Returns a recipe for one entry that fixes this many variables.
fn wide(alloc: Global, count: u32) -> Result<String, Fail> {
    let mut recipe = format!(in alloc; "all")?;
    for k in 0..count {
        write!(recipe, " x{k}=1 &")?;
    }
    Ok(recipe)
}

/// Returns a recipe for the join of this many values of x, in falling or rising order.
fn values(alloc: Global, count: u32, falling: bool) -> Result<String, Fail> {
    let mut recipe = format!(in alloc; "none")?;
    for k in 0..count {
        let number = if falling {
            count.wrapping_sub(k)
        } else {
            k.wrapping_add(1)
        };
        write!(recipe, " x={number} |")?;
    }
    Ok(recipe)
}

/// Returns the recipe with one more word.
fn then(recipe: String, word: &str) -> Result<String, Fail> {
    let mut recipe = recipe;
    write!(recipe, " {word}")?;
    Ok(recipe)
}

#[test]
fn results_of_many_entries_stay_small(rt: HostRuntime) -> Result<(), Fail> {
    let alloc = rt.alloc();
    assert!(rt; measures(alloc, &then(pairs(alloc, 40)?, "~")?, 41, 120)?);
    assert!(rt; measures(alloc, &then(around_y(alloc, 10)?, "~")?, 11, 40)?);
    assert!(rt; measures(alloc, &exclusions(alloc, 50)?, 1, 0)?);
    assert!(rt; measures(alloc, &then(wide(alloc, 100)?, "~")?, 100, 5050)?);
    assert!(rt; measures(alloc, &covered_pairs(alloc, 20)?, 20, 40)?);
    Ok(())
}

#[test]
fn a_meet_with_itself_does_not_grow(rt: HostRuntime) -> Result<(), Fail> {
    let alloc = rt.alloc();
    let rest = made(alloc, "x!9 y=5 & x=1 y=3 & | ~")?;
    let twice = both(alloc, &rest, &rest)?;
    assert!(rt; size(&twice) == size(&rest) && named(&twice) == named(&rest));
    Ok(())
}

#[test]
fn sets_in_blocks_keep_their_entries(rt: HostRuntime) -> Result<(), Fail> {
    let alloc = rt.alloc();
    for (word, entries) in [
        ("none |", 300),
        ("x=17 |", 300),
        ("x=301 |", 301),
        ("x!17 &", 299),
        ("x!301 &", 300),
        ("x!17,8 &", 298),
        ("all &", 300),
        ("none &", 0),
        ("x!17 |", 1),
        ("y=1 &", 300),
        ("~ ~", 300),
    ] {
        assert!(rt;
            measures_size(alloc, &then(values(alloc, 300, true)?, word)?, entries)?,
            "{word}"
        );
    }
    assert!(rt; measures(alloc, &then(pairs(alloc, 300)?, "x!17 &")?, 299, 598)?);
    assert!(rt; measures(alloc, &then(pairs(alloc, 300)?, "x=17 y=9 & |")?, 301, 602)?);
    Ok(())
}

/// Returns the join of the sets that two recipes make.
fn joined(alloc: Global, first: &str, second: &str) -> Result<String, Fail> {
    Ok(format!(in alloc; "{first} {second} |")?)
}

/// Whether two recipes make sets whose join has this many entries in either order.
fn join_to(alloc: Global, first: String, second: String, entries: usize) -> Result<bool, Fail> {
    Ok(
        measures_size(alloc, &joined(alloc, &first, &second)?, entries)?
            && measures_size(alloc, &joined(alloc, &second, &first)?, entries)?,
    )
}

#[test]
fn joins_of_sets_in_blocks_have_each_entry_once(rt: HostRuntime) -> Result<(), Fail> {
    let alloc = rt.alloc();
    for (first, second, entries) in [
        ("x=400 |", "x=401 |", 302),
        ("x!17 &", "x!18,99 &", 300),
        ("x!1 &", "all &", 300),
    ] {
        let (first, second) = (
            then(values(alloc, 300, true)?, first)?,
            then(values(alloc, 300, true)?, second)?,
        );
        assert!(rt; join_to(alloc, first, second, entries)?, "{entries}");
    }
    assert!(rt;
        join_to(
            alloc,
            values(alloc, 300, true)?,
            values(alloc, 100, true)?,
            300
        )?
    );
    assert!(rt; join_to(alloc, values(alloc, 300, true)?, pairs(alloc, 300)?, 301)?);
    assert!(rt; join_to(alloc, pairs(alloc, 300)?, pairs(alloc, 302)?, 302)?);
    Ok(())
}

/// Whether the recipe makes a set of this many entries.
fn measures_size(alloc: Global, recipe: &str, entries: usize) -> Result<bool, Fail> {
    Ok(size(&made(alloc, recipe)?) == entries)
}

#[test]
fn sets_are_the_same_in_whatever_blocks(rt: HostRuntime) -> Result<(), Fail> {
    let alloc = rt.alloc();
    let falling = values(alloc, 300, true)?;
    let rising = values(alloc, 300, false)?;
    assert!(rt; are_same(alloc, &falling, &rising)?);
    assert!(rt; are_same(alloc, &falling, &then(rising, "x!17 & x=17 |")?)?);
    assert!(rt; !are_same(alloc, &falling, &values(alloc, 299, false)?)?);
    assert!(rt; !are_same(alloc, &values(alloc, 299, false)?, &falling)?);
    Ok(())
}

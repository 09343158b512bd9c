// Opening stores in memory.
ghost use Rattle.std.specs.Prelude.{IfOk, IfSome};
ghost use Rattle.vault_types.specs.Names.{IsFp};
ghost use Rattle.blob_parts.specs.Recipes.{FitsRow, HasWidths};

use blob_parts::has_rules;
use container_store::put;
use keeper_driver::jobs::seal;
use keeper_driver::{row, sum};
use keeper_open::{Opened, open};
use recipe_store::{put_floor, put_recipe, remove_recipe};
use std::alloc::Global;
use std::test::Fail;
use vault_ports::{FaultShelf, MemShelf};
use vault_traits::Shelf;
use vault_types::list::ListOf;
use vault_types::{Fault, Fp, Id, Kind, Memory, Name, Recipe, Row, Set, Version, Why};

// A version of one row, which says of a chunk that it stands in a container with a length; in format 2 or in format 1.
#[derive(Clone, Copy)]
struct OneRow {
    set: Set,
    version: Version,
    next: Id,
    id: Id,
    chunk: &'static [u8],
    len: u32,
    is_second: bool,
}

// What is done to a shelf. The bytes are put under a name that is no floor's.
#[derive(Clone, Copy)]
enum Step {
    Version(OneRow),
    Chunk(Id, &'static [u8]),
    Floor(Set, Version),
    Bytes(Kind, u64, &'static [u8]),
    Remove(Set, Version),
}

// Version 1 of set 0, with the chunk `abcd` in container 1.
const FIRST: OneRow = OneRow {
    set: 0,
    version: 1,
    next: 2,
    id: 1,
    chunk: b"abcd",
    len: 4,
    is_second: false,
};

const CHUNK: Step = Step::Chunk(1, b"abcd");

const VERSION: Step = Step::Version(OneRow {
    is_second: true,
    ..FIRST
});

const BACKUP: &[Step] = &[CHUNK, VERSION];

const OLD_BACKUP: &[Step] = &[CHUNK, Step::Version(FIRST)];

fn recipe(
    alloc: Global,
    set: Set,
    version: Version,
    next: Id,
    row: Row,
    whole: Option<Fp>,
) -> Result<Recipe, Memory>
    requires row { FitsRow row }
    requires whole { IfSome whole IsFp }
    ensures { IfOk result HasWidths }
{
    let rows = vec![in alloc; row]?;
    Ok(Recipe {
        set,
        version,
        next,
        length: u64::from(row.len),
        rows: ListOf::from_vec(rows),
        sparse: ListOf::from_vec(Vec::new(alloc)),
        whole,
    })
}

fn put_version<S: Shelf>(alloc: Global, shelf: &mut S, one: &OneRow) -> Result<(), Fail> {
    let row = row(one.id, one.chunk, one.len);
    let recipe = if one.is_second {
        let whole = Some(sum(one.chunk));
        recipe(alloc, one.set, one.version, one.next, row, whole)?
    } else {
        recipe(alloc, one.set, one.version, one.next, row, None)?
    };
    if !has_rules(alloc, &recipe)? {
        return Err(Fail::from("the recipe has a spelling"));
    }
    put_recipe(alloc, shelf, &recipe)?;
    Ok(())
}

fn put_bytes<S: Shelf>(alloc: Global, shelf: &mut S, name: Name, bytes: &[u8]) -> Result<(), Fail> {
    if name.kind == Kind::Floor {
        return Err(Fail::from("a floor is put by its own call"));
    }
    match shelf.put(alloc, name, bytes) {
        Ok(()) => Ok(()),
        Err(_) => Err(Fail::from("the bytes are put")),
    }
}

fn put_floor_of<S: Shelf>(shelf: &mut S, set: Set, floor: Version) -> Result<(), Fail> {
    if floor < 1 || floor > 4_294_967_294 {
        return Err(Fail::from("the floor is a version"));
    }
    put_floor(shelf, set, floor)?;
    Ok(())
}

fn done<S: Shelf>(alloc: Global, shelf: &mut S, step: &Step) -> Result<(), Fail> {
    match step {
        Step::Version(one) => put_version(alloc, shelf, one)?,
        Step::Chunk(id, chunk) => put(alloc, shelf, &seal(alloc, *id, chunk)?)?,
        Step::Floor(set, floor) => put_floor_of(shelf, *set, *floor)?,
        Step::Bytes(kind, number, bytes) => put_bytes(alloc, shelf, name(*kind, *number), bytes)?,
        Step::Remove(set, version) => remove_recipe(shelf, *set, *version)?,
    }
    Ok(())
}

fn all_done<S: Shelf>(alloc: Global, shelf: &mut S, steps: &[Step]) -> Result<(), Fail> {
    for step in steps {
        done(alloc, shelf, step)?;
    }
    Ok(())
}

fn name(kind: Kind, number: u64) -> Name {
    Name { kind, number }
}

// The floor, the latest version and the next id of a set.
type Summary = (Version, Version, Id);

// What is seen of an opened store: its sets, the ids of its tables, how many containers are named and whether the first
// is, the strays, and where the chunks `abcd` and `ef` are; whether the catalog has room for a deletion of all, and how
// many payloads were got.
#[derive(Drop)]
struct Look {
    sets: Vec<Summary>,
    tables: Vec<Id>,
    named: (usize, bool),
    strays: Vec<Name>,
    found: [Option<Id>; 2],
    has_room: bool,
    gets: u64,
}

fn summaries(alloc: Global, opened: &Opened) -> Result<Vec<Summary>, Fail> {
    let mut sets = Vec::new(alloc);
    for info in opened.catalog.sets.as_slice() {
        sets.push((info.floor, info.latest, info.next))?;
    }
    Ok(sets)
}

fn tables_of(alloc: Global, opened: &Opened) -> Result<Vec<Id>, Fail> {
    Ok(opened.catalog.tables.keys().copied().collect(alloc)?)
}

// Three names go with a version of one container, and two with another container.
fn has_room(opened: &Opened) -> bool {
    let tables = opened.catalog.tables.len();
    opened.catalog.strays.capacity() >= tables.saturating_mul(3)
        && opened.catalog.freed.capacity() >= tables
}

fn looked(alloc: Global, shelf: &mut MemShelf) -> Result<Look, Fail> {
    let opened = open(alloc, shelf)?;
    Ok(Look {
        sets: summaries(alloc, &opened)?,
        tables: tables_of(alloc, &opened)?,
        named: (
            opened.catalog.markers.count(),
            opened.catalog.markers.named(1),
        ),
        strays: opened.catalog.strays.as_slice().to_vec(alloc)?,
        found: [
            opened.index.find(&sum(b"abcd")),
            opened.index.find(&sum(b"ef")),
        ],
        has_room: has_room(&opened),
        gets: shelf.payload_gets(),
    })
}

fn look_at(alloc: Global, steps: &[Step]) -> Result<Look, Fail> {
    let mut shelf = MemShelf::new(alloc);
    all_done(alloc, &mut shelf, steps)?;
    looked(alloc, &mut shelf)
}

// Whether each set but these is empty, and they are as they are said.
fn sets_are(look: &Look, said: &[(usize, Summary)]) -> bool {
    if look.sets.as_slice().len() != 256 {
        return false;
    }
    for (set, summary) in look.sets.iter().enumerate() {
        let mut want = (1, 0, 1);
        for (other, told) in said {
            if *other == set {
                want = *told;
            }
        }
        if *summary != want {
            return false;
        }
    }
    true
}

#[test]
fn a_shelf_with_nothing_opens_as_the_empty_store(rt: HostRuntime) -> Result<(), Fail> {
    let look = look_at(rt.alloc(), &[])?;
    assert!(rt; sets_are(&look, &[]) && look.tables.is_empty() && look.strays.is_empty());
    assert!(rt; (look.named, look.found) == ((0, false), [None, None]));
    Ok(())
}

#[test]
fn a_backup_opens_with_its_container(rt: HostRuntime) -> Result<(), Fail> {
    assert!(rt; is_one_backup(rt.alloc(), BACKUP)?);
    assert!(rt; is_one_backup(rt.alloc(), OLD_BACKUP)?);
    Ok(())
}

fn is_one_backup(alloc: Global, steps: &[Step]) -> Result<bool, Fail> {
    let look = look_at(alloc, steps)?;
    let sets = sets_are(&look, &[(0, (1, 1, 2))]);
    let tables = look.tables.as_slice() == [1].as_slice() && look.named == (1, true);
    let found = look.found == [Some(1), None];
    Ok(sets && tables && found && look.strays.is_empty() && look.has_room && look.gets == 0)
}

const TWO_SETS: &[Step] = &[
    CHUNK,
    VERSION,
    Step::Chunk(2, b"ef"),
    Step::Floor(3, 2),
    Step::Version(OneRow {
        set: 3,
        version: 2,
        next: 3,
        ..FIRST
    }),
    Step::Version(OneRow {
        set: 3,
        version: 3,
        next: 5,
        id: 2,
        chunk: b"ef",
        len: 2,
        ..FIRST
    }),
];

#[test]
fn two_sets_open_with_the_versions_that_they_keep(rt: HostRuntime) -> Result<(), Fail> {
    let look = look_at(rt.alloc(), TWO_SETS)?;
    assert!(rt; sets_are(&look, &[(0, (1, 1, 2)), (3, (2, 3, 5))]) && look.strays.is_empty());
    assert!(rt; look.tables.as_slice() == [1, 2].as_slice() && look.found == [Some(1), Some(2)]);
    Ok(())
}

const STRAYS: &[(Kind, u64)] = &[
    (Kind::Table, 9),
    (Kind::Payload, 9),
    (Kind::Recipe, 4_294_967_295),
    (Kind::Recipe, 12_884_901_889),
    (Kind::Recipe, 1_099_511_627_776),
];

const KEPT_BESIDE_THEM: &[Step] = &[
    CHUNK,
    VERSION,
    Step::Floor(3, 2),
    Step::Version(OneRow {
        set: 3,
        version: 2,
        ..FIRST
    }),
];

// Whether the strays of an opening are those that were put, and one floor's where there is only a floor of no set.
fn strays_are_listed(alloc: Global, strays: &[(Kind, u64)]) -> Result<bool, Fail> {
    let mut shelf = MemShelf::new(alloc);
    all_done(alloc, &mut shelf, KEPT_BESIDE_THEM)?;
    let mut names = Vec::new(alloc);
    for (kind, number) in strays {
        put_bytes(alloc, &mut shelf, name(*kind, *number), b"stray")?;
        names.push(name(*kind, *number))?;
    }
    Ok(looked(alloc, &mut shelf)?.strays.as_slice() == names.as_slice())
}

fn shelf_with(alloc: Global, blobs: &[(Kind, u64, &'static [u8])]) -> Result<MemShelf, Fail> {
    let mut all = Vec::new(alloc);
    for (kind, number, bytes) in blobs {
        all.push((name(*kind, *number), bytes.to_vec(alloc)?))?;
    }
    Ok(MemShelf::with(alloc, all)?)
}

fn far_floor_is_a_stray(alloc: Global) -> Result<bool, Fail> {
    let mut shelf = shelf_with(alloc, &[(Kind::Floor, 300, b"stray")])?;
    let strays = looked(alloc, &mut shelf)?.strays;
    Ok(strays.as_slice() == [name(Kind::Floor, 300)].as_slice())
}

#[test]
fn names_that_nothing_needs_are_strays(rt: HostRuntime) -> Result<(), Fail> {
    assert!(rt; strays_are_listed(rt.alloc(), STRAYS)?);
    assert!(rt; far_floor_is_a_stray(rt.alloc())?);
    Ok(())
}

// Steps on a shelf, each row behind the one before, and the fault with which it then opens.
type Group = &'static [(&'static [Step], Option<Fault>)];

macro_rules! damaged {
    ($kind:ident, $number:expr, $why:expr) => {
        Some(Fault::Damaged {
            kind: Kind::$kind,
            number: $number,
            why: $why,
        })
    };
}

const A_RECIPE_IS_MISSING: Group = &[(
    &[
        CHUNK,
        VERSION,
        Step::Version(OneRow {
            version: 3,
            ..FIRST
        }),
        Step::Version(OneRow {
            version: 4,
            ..FIRST
        }),
    ],
    damaged!(Recipe, 2, Why::Absent),
)];

const A_FLOOR_HAS_NO_RECIPE: Group = &[(
    &[Step::Floor(1, 5)],
    damaged!(Recipe, 4_294_967_301, Why::Absent),
)];

const A_RECIPE_HAS_OTHER_BYTES: Group = &[(
    &[CHUNK, VERSION, Step::Bytes(Kind::Recipe, 2, b"DRC2")],
    damaged!(Recipe, 2, Why::Spelling),
)];

const THE_NEXT_ID_FALLS: Group = &[
    (
        &[
            CHUNK,
            Step::Version(OneRow { next: 7, ..FIRST }),
            Step::Version(OneRow {
                version: 2,
                next: 6,
                ..FIRST
            }),
        ],
        damaged!(
            Recipe,
            2,
            Why::Lower {
                before: 7,
                found: 6
            }
        ),
    ),
    (&[Step::Floor(0, 2)], None),
];

const A_NAMED_TABLE_IS_BAD: Group = &[
    (
        &[
            Step::Version(OneRow {
                next: 9,
                id: 8,
                ..FIRST
            }),
            Step::Version(OneRow {
                version: 2,
                next: 9,
                id: 5,
                ..FIRST
            }),
        ],
        damaged!(Table, 5, Why::Absent),
    ),
    (
        &[Step::Bytes(Kind::Table, 5, b"DTB1")],
        damaged!(Table, 5, Why::Spelling),
    ),
];

const A_ROW_IS_NOT_IN_ITS_TABLE: Group = &[
    (
        &[
            CHUNK,
            Step::Chunk(2, b"ef"),
            Step::Version(OneRow {
                set: 4,
                next: 3,
                chunk: b"ef",
                len: 2,
                ..FIRST
            }),
            Step::Version(OneRow {
                set: 2,
                next: 3,
                ..FIRST
            }),
            Step::Version(OneRow {
                set: 2,
                version: 2,
                next: 3,
                id: 2,
                ..FIRST
            }),
        ],
        damaged!(Recipe, 8_589_934_594, Why::BadRow(0)),
    ),
    (
        &[
            Step::Version(OneRow {
                set: 2,
                version: 2,
                next: 3,
                id: 2,
                chunk: b"ef",
                len: 2,
                ..FIRST
            }),
            Step::Version(OneRow {
                set: 3,
                next: 3,
                len: 3,
                ..FIRST
            }),
        ],
        damaged!(Recipe, 12_884_901_889, Why::BadRow(0)),
    ),
    (
        &[Step::Remove(3, 1)],
        damaged!(Recipe, 17_179_869_185, Why::BadRow(0)),
    ),
];

// The first place, of a group and in it, at which the store opens in another way.
fn first_other(alloc: Global, groups: &[Group]) -> Result<Option<(usize, usize)>, Fail> {
    for (at, group) in groups.iter().enumerate() {
        let mut shelf = MemShelf::new(alloc);
        for (place, (steps, fault)) in group.iter().enumerate() {
            all_done(alloc, &mut shelf, steps)?;
            if open(alloc, &mut shelf).err() != *fault {
                return Ok(Some((at, place)));
            }
        }
    }
    Ok(None)
}

#[test]
fn a_damaged_store_opens_with_its_first_damage(rt: HostRuntime) -> Result<(), Fail> {
    let groups = [
        A_RECIPE_IS_MISSING,
        A_FLOOR_HAS_NO_RECIPE,
        A_RECIPE_HAS_OTHER_BYTES,
        THE_NEXT_ID_FALLS,
        A_NAMED_TABLE_IS_BAD,
        A_ROW_IS_NOT_IN_ITS_TABLE,
    ];
    assert!(rt; first_other(rt.alloc(), groups.as_slice())? == None);
    Ok(())
}

fn fault_over_bad_floors(alloc: Global) -> Result<Option<Fault>, Fail> {
    let mut shelf = shelf_with(
        alloc,
        &[
            (Kind::Floor, 7, b"DFL1"),
            (Kind::Floor, 8, b"DFL1"),
            (Kind::Recipe, 1, b"DRC1"),
        ],
    )?;
    Ok(open(alloc, &mut shelf).err())
}

#[test]
fn a_bad_floor_is_damaged_first(rt: HostRuntime) -> Result<(), Fail> {
    assert!(rt; fault_over_bad_floors(rt.alloc())? == damaged!(Floor, 7, Why::Spelling));
    Ok(())
}

// What opening a store of one backup answers where this call of the shelf fails; the backup takes three.
fn failing(alloc: Global, call: u64) -> Result<Option<Fault>, Fail> {
    let fail = [call].to_vec(alloc)?;
    let mut shelf = FaultShelf::new(MemShelf::new(alloc), fail, false);
    all_done(alloc, &mut shelf, BACKUP)?;
    Ok(open(alloc, &mut shelf).err())
}

fn faults_of_calls(alloc: Global) -> Result<[Option<Fault>; 4], Fail> {
    Ok([
        failing(alloc, 4)?,
        failing(alloc, 5)?,
        failing(alloc, 6)?,
        failing(alloc, 7)?,
    ])
}

#[test]
fn each_call_of_the_shelf_is_made_once_and_its_fault_is_told(rt: HostRuntime) -> Result<(), Fail> {
    let told = Some(Fault::StoreFault(1));
    assert!(rt; faults_of_calls(rt.alloc())? == [told, told, told, None]);
    Ok(())
}

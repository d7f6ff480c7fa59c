//! A store over a tape in memory: its file in both formats, failing writes and cuts, lookups,
//! breaches, and files that are read ahead.
use kr_base::{Bytes, List, MemTape, path_ok, resource_ok};
use kr_store::{
    Check, Format, PutNo, Row, RowRef, Store, StoreNo, one_breach, one_file, one_listing, one_row,
    some_answer,
};
use std::alloc::Global;
use std::test::Fail;

/// The put of `hi` for `secrets` at `/s` with a check of zero bytes into an empty file:
/// 4b5253544f524532 01 0000000000000001 0002 2f73 0007 73656372657473 0000000000000000 00000002
/// 6869.
const ONE_ROW: &[u8] =
    b"KRSTORE2\x01\0\0\0\0\0\0\0\x01\0\x02/s\0\x07secrets\0\0\0\0\0\0\0\0\0\0\0\x02hi";

/// The same put in a file of the first format: 4b5253544f524531 01 0000000000000001 0002 2f73
/// 0007 73656372657473 00000002 6869.
const OLD_ROW: &[u8] = b"KRSTORE1\x01\0\0\0\0\0\0\0\x01\0\x02/s\0\x07secrets\0\0\0\x02hi";

/// Zero bytes, as where no secret seals.
const NO_SECRET: Check = Check { value: 0 };

fn numbers(alloc: Global, numbers: &[u64]) -> Option<List<u64>> {
    Some(List::from_vec(Vec::from_slice(alloc, numbers).ok()?))
}

/// A tape that holds the bytes, has room for 40,000, and whose writes with these numbers fail.
fn tape(alloc: Global, bytes: &[u8], write_fails: &[u64]) -> Option<MemTape> {
    let content = Bytes::copy(alloc, bytes).ok()?;
    let writes = numbers(alloc, write_fails)?;
    if content.as_slice().len() > 40_000 {
        return None;
    }
    MemTape::new(content, 40_000, List::new(alloc), writes, List::new(alloc)).ok()
}

/// The store of such a tape, with the limit 40,000.
fn loaded(alloc: Global, bytes: &[u8], write_fails: &[u64]) -> Option<Store<MemTape>> {
    let tape = tape(alloc, bytes, write_fails)?;
    Store::load(alloc, tape, 40_000).ok()
}

/// How many rows loading finds, or why it finds none.
fn loaded_rows(alloc: Global, bytes: &[u8], limit: u16) -> Result<u64, StoreNo> {
    let Some(tape) = tape(alloc, bytes, &[]) else {
        return Err(StoreNo::NoMemory);
    };
    match Store::load(alloc, tape, limit as u64) {
        Ok(store) => {
            let rows = store.revision();
            drop(store);
            Ok(rows)
        }
        Err((why, tape)) => {
            drop(tape);
            Err(why)
        }
    }
}

/// Puts a secret where its path and its length keep their rules.
fn put(alloc: Global, store: &mut Store<MemTape>, path: &str, stored: &[u8]) -> Result<u64, PutNo> {
    let Ok(stored) = Bytes::copy(alloc, stored) else {
        return Err(PutNo::NoMemory);
    };
    if path_ok(path) && resource_ok("secrets") && stored.as_slice().len() <= 10_000 {
        store.put(path, "secrets", stored, NO_SECRET)
    } else {
        drop(stored);
        Err(PutNo::NoMemory)
    }
}

/// The revision of a put, or 0.
fn puts(alloc: Global, store: &mut Store<MemTape>, path: &str, stored: &[u8]) -> u64 {
    put(alloc, store, path, stored).unwrap_or(0)
}

/// The revision of another value, where the path has this revision.
fn replaces(
    alloc: Global,
    store: &mut Store<MemTape>,
    path: &str,
    revision: u64,
) -> Result<u64, PutNo> {
    let Ok(stored) = Bytes::copy(alloc, b"new") else {
        return Err(PutNo::NoMemory);
    };
    if path_ok(path) && stored.as_slice().len() <= 10_000 {
        store.replace_if(path, revision, stored, Check { value: 7 })
    } else {
        drop(stored);
        Err(PutNo::NoMemory)
    }
}

/// The revision of a deletion.
fn deletes(store: &mut Store<MemTape>, path: &str) -> Result<Option<u64>, PutNo> {
    if path_ok(path) {
        store.delete(path)
    } else {
        Err(PutNo::NoMemory)
    }
}

/// Whether the live row of a path has this revision and this value.
fn has(store: &Store<MemTape>, path: &str, revision: u64, stored: &[u8]) -> bool {
    match store.get(path) {
        Ok(Some(row)) => {
            let is = is_row(row.get(), path, revision, stored);
            drop(row);
            is
        }
        Ok(None) | Err(_) => false,
    }
}

fn is_row(row: &Row, path: &str, revision: u64, stored: &[u8]) -> bool {
    row.path.as_str() == path && row.revision == revision && row.stored.as_slice() == stored
}

/// The revision of the live row with the least path above, or 0.
fn successor_revision(store: &Store<MemTape>, path: &str) -> u64 {
    match store.successor(path) {
        Ok(Some(row)) => {
            let revision = row.get().revision;
            drop(row);
            revision
        }
        Ok(None) | Err(_) => 0,
    }
}

/// Whether a put at `/s` fills a store, and then a put and a delete are refused.
fn fills(alloc: Global, store: &mut Store<MemTape>) -> bool {
    puts(alloc, store, "/s", b"hi") == 1
        && put(alloc, store, "/t", b"") == Err(PutNo::Full { needed: 78 })
        && deletes(store, "/s") == Err(PutNo::Full { needed: 57 })
}

/// Whether a store of at most 44 bytes is filled so, and leaves these bytes.
fn is_written(alloc: Global, wanted: &[u8]) -> bool {
    let Some(tape) = tape(alloc, b"", &[]) else {
        return false;
    };
    match Store::load(alloc, tape, 44) {
        Ok(mut store) => {
            let is = fills(alloc, &mut store);
            let tape = store.close();
            let leaves = tape.bytes() == wanted;
            drop(tape);
            is && leaves
        }
        Err(refused) => {
            drop(refused);
            false
        }
    }
}

#[test]
fn writes_the_file(rt: HostRuntime) {
    assert!(rt; is_written(rt.alloc(), ONE_ROW));
}

/// Whether `/b`, `/a` and `/c`, of which `/b` is deleted, are found by their paths.
fn finds(alloc: Global, store: &mut Store<MemTape>) -> bool {
    puts(alloc, store, "/b", b"1");
    puts(alloc, store, "/a", b"2");
    puts(alloc, store, "/c", b"3");
    deletes(store, "/b") == Ok(Some(4))
        && successor_revision(store, "") == 2
        && successor_revision(store, "/a") == 3
        && successor_revision(store, "/c") == 0
        && store.live_count() == 2
}

/// The check of the path's live row: none where the row has none, or there is no row.
fn check(store: &Store<MemTape>, path: &str) -> Option<Check> {
    match store.get(path) {
        Ok(Some(row)) => {
            let check = row.get().check;
            drop(row);
            check
        }
        Ok(None) | Err(_) => None,
    }
}

/// Whether another row takes the place of a file's only row, with this check.
fn replaces_row(alloc: Global, store: &mut Store<MemTape>, wanted: Option<Check>) -> bool {
    has(store, "/s", 1, b"hi")
        && replaces(alloc, store, "/s", 2) == Err(PutNo::Changed { revision: 1 })
        && replaces(alloc, store, "/s", 1) == Ok(2)
        && has(store, "/s", 2, b"new")
        && check(store, "/s") == wanted
}

/// How the row with this revision is lent: a put by the length of its value, a delete by 1,000, and
/// none by 2,000.
fn lent(store: &Store<MemTape>, revision: u64) -> usize {
    match store.row_by_revision(revision) {
        Some(RowRef::Put(row)) => row.stored.as_slice().len(),
        Some(RowRef::Delete(_)) => 1_000,
        None => 2_000,
    }
}

/// Whether the rows 0 to 3 are lent so, once the only put is deleted.
fn lends(store: &mut Store<MemTape>) -> bool {
    deletes(store, "/s") == Ok(Some(2))
        && lent(store, 0) == 2_000
        && lent(store, 1) == 2
        && lent(store, 2) == 1_000
        && lent(store, 3) == 2_000
}

/// Whether a store has this format and this length, and then this one with a put at `/t`.
fn grows(
    alloc: Global,
    store: &mut Store<MemTape>,
    format: Format,
    length: u64,
    then: u64,
) -> bool {
    store.format() == format
        && store.length() == length
        && puts(alloc, store, "/t", b"") > 0
        && store.length() == then
}

/// Whether a store is torn behind a write that failed, and no more behind the next one.
fn tears(alloc: Global, store: &mut Store<MemTape>) -> bool {
    puts(alloc, store, "/s", b"1") == 0
        && store.torn()
        && puts(alloc, store, "/s", b"2") == 1
        && !store.torn()
}

/// Whether each call at one path is answered in its turn, where the second write fails: a put, one
/// that fails and leaves the rows as they were, a put, two deletes, and another value.
fn takes_each(alloc: Global, store: &mut Store<MemTape>) -> bool {
    puts(alloc, store, "/s", b"1") == 1
        && put(alloc, store, "/s", b"2") == Err(PutNo::Failed)
        && store.revision() == 1
        && has(store, "/s", 1, b"1")
        && puts(alloc, store, "/s", b"3") == 2
        && deletes(store, "/s") == Ok(Some(3))
        && deletes(store, "/s") == Ok(None)
        && replaces(alloc, store, "/s", 2) == Err(PutNo::Changed { revision: 3 })
        && store.revision() == 3
}

/// What is asked of the store of a file.
#[derive(Clone, Copy)]
enum Ask {
    Finds,
    Each,
    Replaces(Option<Check>),
    Lends,
    Grows {
        format: Format,
        length: u64,
        then: u64,
    },
    Tears,
}

fn answer(alloc: Global, store: &mut Store<MemTape>, ask: Ask) -> bool {
    match ask {
        Ask::Finds => finds(alloc, store),
        Ask::Each => takes_each(alloc, store),
        Ask::Replaces(check) => replaces_row(alloc, store, check),
        Ask::Lends => lends(store),
        Ask::Grows {
            format,
            length,
            then,
        } => grows(alloc, store, format, length, then),
        Ask::Tears => tears(alloc, store),
    }
}

/// Whether the store of a file whose writes with these numbers fail answers so.
fn answers(alloc: Global, bytes: &[u8], fails: &[u64], ask: Ask) -> bool {
    match loaded(alloc, bytes, fails) {
        Some(mut store) => {
            let is = answer(alloc, &mut store, ask);
            drop(store);
            is
        }
        None => false,
    }
}

// The first format keeps no check.
#[test]
fn finds_and_replaces_rows(rt: HostRuntime) {
    let alloc = rt.alloc();
    assert!(rt; answers(alloc, b"", &[], Ask::Finds));
    assert!(rt; answers(alloc, ONE_ROW, &[], Ask::Replaces(Some(Check { value: 7 }))));
    assert!(rt; answers(alloc, OLD_ROW, &[], Ask::Replaces(None)));
    assert!(rt; answers(alloc, ONE_ROW, &[], Ask::Lends));
}

#[test]
fn a_path_is_put_deleted_and_not_replaced(rt: HostRuntime) {
    assert!(rt; answers(rt.alloc(), b"", &[2], Ask::Each));
}

/// Whether the first bytes of a file of one row are answered as they must be.
fn is_torn_right(alloc: Global, row: &[u8], length: usize) -> bool {
    let Some(cut) = row.get(..length) else {
        return false;
    };
    match loaded_rows(alloc, cut, 44) {
        Ok(rows) => rows == 0 && (length == 0 || length == 8),
        Err(StoreNo::Torn { at: 0 }) => length > 0 && length < 8,
        Err(StoreNo::Torn { at: 8 }) => length > 8,
        Err(_) => false,
    }
}

/// Whether each cut of a file of one row is.
fn all_torn_right(alloc: Global, row: &[u8]) -> bool {
    for length in 0..row.len() {
        if !is_torn_right(alloc, row, length) {
            return false;
        }
    }
    true
}

#[test]
fn refuses_every_cut_of_a_row(rt: HostRuntime) {
    one_file();
    one_breach();
    some_answer();
    one_row();
    one_listing();
    let alloc = rt.alloc();
    assert!(rt; all_torn_right(alloc, ONE_ROW) && all_torn_right(alloc, OLD_ROW));
    assert_eq!(rt; loaded_rows(alloc, ONE_ROW, 44), Ok(1));
    assert_eq!(rt; loaded_rows(alloc, ONE_ROW, 43), Err(StoreNo::TooLong));
}

/// Whether a file has this format, and is so long then.
fn keeps(alloc: Global, bytes: &[u8], format: Format, then: u64) -> bool {
    let length = bytes.len() as u64;
    answers(
        alloc,
        bytes,
        &[],
        Ask::Grows {
            format,
            length,
            then,
        },
    )
}

// The first format keeps no check, so its rows are 8 bytes shorter.
#[test]
fn keeps_the_format(rt: HostRuntime) {
    let alloc = rt.alloc();
    assert!(rt; keeps(alloc, b"", Format::Two, 42));
    assert!(rt; keeps(alloc, b"KRSTORE2", Format::Two, 42));
    assert!(rt; keeps(alloc, b"KRSTORE1", Format::One, 34));
    assert!(rt; keeps(alloc, OLD_ROW, Format::One, 62));
}

fn set(bytes: &mut [u8], at: usize, byte: u8) {
    if let Some(place) = bytes.get_mut(at) {
        *place = byte;
    }
}

/// Why a file of one row in which one byte is another isn't loaded.
fn refusal(alloc: Global, at: usize, byte: u8) -> Option<StoreNo> {
    match Vec::from_slice(alloc, ONE_ROW) {
        Ok(mut changed) => {
            set(changed.as_mut_slice(), at, byte);
            let found = loaded_rows(alloc, changed.as_slice(), 44).err();
            drop(changed);
            found
        }
        Err(_) => None,
    }
}

fn is_refused(alloc: Global, at: usize, byte: u8, why: StoreNo) -> bool {
    refusal(alloc, at, byte) == Some(why)
}

// A delete has nothing behind its path, and here nothing to delete.
#[test]
fn refuses_other_bytes(rt: HostRuntime) {
    let alloc = rt.alloc();
    assert!(rt;
        is_refused(alloc, 0, 0, StoreNo::Magic) && is_refused(alloc, 7, b'3', StoreNo::Magic)
    );
    let bad = StoreNo::BadRow { at: 8 };
    assert!(rt; is_refused(alloc, 8, 2, bad) && is_refused(alloc, 8, 3, bad));
    assert!(rt; is_refused(alloc, 17, 5, bad) && is_refused(alloc, 23, b'S', bad));
    assert!(rt; is_refused(alloc, 16, 2, StoreNo::Order { at: 8 }));
}

/// Puts four rows, two of them longer than what is read ahead holds beside another.
fn puts_long(alloc: Global, store: &mut Store<MemTape>, half: &[u8], long: &[u8]) {
    puts(alloc, store, "/a", half);
    puts(alloc, store, "/b", half);
    puts(alloc, store, "/c", long);
    puts(alloc, store, "/d", b"end");
}

/// Whether its rows are there when such a tape is loaded.
fn has_long(store: &Store<MemTape>, half: &[u8], long: &[u8]) -> bool {
    has(store, "/a", 1, half)
        && has(store, "/b", 2, half)
        && has(store, "/c", 3, long)
        && has(store, "/d", 4, b"end")
}

/// The store of the file of another store that is closed.
fn again(alloc: Global, store: Store<MemTape>) -> Option<Store<MemTape>> {
    let tape = store.close();
    let again = loaded(alloc, tape.bytes(), &[]);
    drop(tape);
    again
}

fn reads_long(alloc: Global, half: &[u8], long: &[u8]) -> bool {
    let Some(mut store) = loaded(alloc, b"", &[]) else {
        return false;
    };
    puts_long(alloc, &mut store, half, long);
    match again(alloc, store) {
        Some(again) => {
            let is = has_long(&again, half, long);
            drop(again);
            is
        }
        None => false,
    }
}

// The file is longer than what is read ahead: its parts are read from what was read, behind a
// refill, and by themselves.
#[test]
fn reads_long_files(rt: HostRuntime) -> Result<(), Fail> {
    let alloc = rt.alloc();
    let half = vec![in alloc; 7u8; 5_000]?;
    let long = vec![in alloc; 9u8; 9_000]?;
    assert!(rt; reads_long(alloc, half.as_slice(), long.as_slice()));
    Ok(())
}

/// Puts the bytes 1 to 6; how many of them it refused. A row that was answered is there.
fn refusals(alloc: Global, store: &mut Store<MemTape>) -> Option<u64> {
    let mut refused = 0u64;
    for byte in 1..7u8 {
        let revision = puts(alloc, store, "/s", &[byte]);
        if revision == 0 {
            refused = refused.wrapping_add(1);
        } else if !has(store, "/s", revision, &[byte]) {
            return None;
        }
    }
    Some(refused)
}

/// Whether there is a store, of this revision.
fn has_revision(store: Option<Store<MemTape>>, revision: u64) -> bool {
    match store {
        Some(store) => {
            let is = store.revision() == revision;
            drop(store);
            is
        }
        None => false,
    }
}

/// Whether of six puts, of which calls on the tape with these numbers fail, so many are refused,
/// and the others are there when the tape is loaded again.
fn loses(alloc: Global, fails: &[u64], refused: u64) -> bool {
    match loaded(alloc, b"", fails) {
        Some(mut store) => {
            let is = refusals(alloc, &mut store) == Some(refused) && store.faults() == refused;
            has_revision(again(alloc, store), 6u64.wrapping_sub(refused)) && is
        }
        None => false,
    }
}

// With the second and the third a write fails, and then the cut before the next one.
#[test]
fn loses_no_row_that_was_answered(rt: HostRuntime) {
    let alloc = rt.alloc();
    for fails in 1..6u64 {
        assert!(rt; loses(alloc, &[fails], 1));
    }
    assert!(rt; loses(alloc, &[2, 3], 2));
    assert!(rt; answers(alloc, b"", &[1], Ask::Tears));
}

// A run doesn't overwrite a file that another program rewrote after it was loaded.
use c_terms::{NoMemory, Text};
use outer_io::{MemShelf, MemSink};
use par_match::FreeGate;
use spatch_run::run;
use std::alloc::Global;
use std::test::Fail;
use std::thread::Threads;

const PATCH: &[u8] = b"@@\n@@\n- g(a);\n+ h(a);\n";

const FILE: &[u8] = b"void f(void) { g(a); }\n";

const EDITED: &[u8] = b"void f(void) { h(a); }\n";

const LINE: &[u8] = b"spatch: k.c: cannot write\n";

/// The run's calls: the patch is loaded, the file is loaded, and it is stored.
const LOAD: u64 = 1;

const STORE: u64 = 2;

/// What a run leaves: its status, the file, the error output, and the number of stores that succeeded or failed.
type Left = (u8, Vec<u8>, Vec<u8>, u64);

fn text(alloc: Global, bytes: &[u8]) -> Result<Text, NoMemory> {
    Text::from_bytes(alloc, bytes)
}

/// Runs in place, while another program rewrites the file before the call with this number.
fn run_beside<R: AllocGlobal + Threads + Sync>(rt: &R, call: u64) -> Result<Left, Fail> {
    let alloc = rt.alloc();
    let mut words = Vec::new(alloc);
    for word in ["--in-place", "--sp-file", "p", "k.c"] {
        words.push(text(alloc, word.as_bytes())?)?;
    }
    let mut entries = Vec::new(alloc);
    entries.push((text(alloc, b"p")?, PATCH.to_vec(alloc)?))?;
    entries.push((text(alloc, b"k.c")?, FILE.to_vec(alloc)?))?;
    let mut rewrites = Vec::new(alloc);
    rewrites.push((call, text(alloc, b"k.c")?))?;
    let mut shelf = MemShelf::new(entries, Vec::new(alloc))?;
    shelf.set_rewrites(rewrites);
    let mut out = MemSink::new(alloc, Vec::new(alloc));
    let mut err = MemSink::new(alloc, Vec::new(alloc));
    let status = run(rt, &words, &mut shelf, &mut out, &mut err, &FreeGate);
    let file = match shelf.bytes_of(b"k.c") {
        Some(bytes) => bytes.to_vec(alloc)?,
        None => Vec::new(alloc),
    };
    Ok((status, file, err.bytes().to_vec(alloc)?, shelf.stores()))
}

#[test]
fn what_another_program_wrote_is_not_stored_on(rt: HostRuntime) -> Result<(), Fail> {
    let (status, file, err, stores) = run_beside(&rt, STORE)?;
    assert_eq!(rt; status, 6);
    assert_eq!(rt; file.as_slice(), FILE);
    assert_eq!(rt; err.as_slice(), LINE);
    assert_eq!(rt; stores, 1);
    Ok(())
}

#[test]
fn what_was_written_before_the_load_is_stored_on(rt: HostRuntime) -> Result<(), Fail> {
    let (status, file, err, stores) = run_beside(&rt, LOAD)?;
    assert_eq!(rt; status, 0);
    assert_eq!(rt; file.as_slice(), EDITED);
    assert!(rt; err.is_empty());
    assert_eq!(rt; stores, 1);
    Ok(())
}

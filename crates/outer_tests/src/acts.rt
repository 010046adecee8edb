// The printed lines, each act once, and each act when it fails.
use c_terms::{NoMemory, Text};
use outer_io::{CalmShelf, CalmSink, Loads, MemShelf, MemSink, Shelf, Sink};
use run_acts::{
    Loaded, Status, Stopped, cannot_print, cannot_read, cannot_write, line_of, load, print, report,
    store,
};
use std::alloc::Global;
use std::test::Fail;

const OLD: &[u8] = b"int x;";

const NEW: &[u8] = b"int y;";

fn entries(alloc: Global) -> Result<Vec<(Text, Vec<u8>)>, NoMemory> {
    let mut entries = Vec::new(alloc);
    entries.push((Text::from_bytes(alloc, b"k.c")?, OLD.to_vec(alloc)?))?;
    Ok(entries)
}

#[test]
fn the_lines_are_these(rt: HostRuntime) -> Result<(), Fail> {
    let alloc = rt.alloc();
    let line = line_of(alloc, "k.c", "not yet")?;
    assert_eq!(rt; line.as_slice(), b"spatch: k.c: not yet\n".as_slice());
    let line = cannot_read(alloc, "k.c")?;
    assert_eq!(rt; line.as_slice(), b"spatch: k.c: cannot read\n".as_slice());
    let line = cannot_write(alloc, "k.c")?;
    assert_eq!(rt; line.as_slice(), b"spatch: k.c: cannot write\n".as_slice());
    assert_eq!(rt; cannot_print(), "spatch: cannot print\n");
    Ok(())
}

#[test]
fn the_statuses_have_these_numbers(rt: HostRuntime) {
    let numbers = [
        (Status::Done, 0),
        (Status::WordsRefused, 1),
        (Status::PatchRefused, 2),
        (Status::IsosRefused, 3),
        (Status::FileRefused, 4),
        (Status::CannotRead, 5),
        (Status::CannotWrite, 6),
        (Status::NoMemory, 7),
        (Status::Found, 8),
    ];
    for (status, number) in numbers {
        assert_eq!(rt; status.number(), number);
    }
}

/// An act on `k.c`, or on the outputs.
#[derive(Clone, Copy, Debug)]
enum Act {
    /// A load of the file with this name, with this limit.
    Load(&'static str, u64),
    Store,
    Print,
    Report,
}

/// What an act returns.
#[derive(Clone, Copy, Debug, PartialEq, Eq)]
enum Answer {
    OldBytes,
    NewBytes,
    OtherBytes,
    TooLong,
    Absent,
    Done,
    Stopped(Status),
}

fn answer_of_load<S: Loads, E: Sink>(
    alloc: Global,
    shelf: &mut S,
    err: &mut E,
    name: &str,
    limit: u64,
) -> Answer {
    match load(alloc, shelf, err, name, limit) {
        Ok(Loaded::Bytes(bytes)) => answer_of_bytes(&bytes),
        Ok(Loaded::TooLong) => Answer::TooLong,
        Ok(Loaded::Absent) => Answer::Absent,
        Err(stopped) => Answer::Stopped(stopped.status()),
    }
}

fn answer_of_bytes(bytes: &[u8]) -> Answer {
    if bytes == OLD {
        Answer::OldBytes
    } else if bytes == NEW {
        Answer::NewBytes
    } else {
        Answer::OtherBytes
    }
}

fn answer_of_store<S: Shelf, E: Sink>(
    alloc: Global,
    shelf: &mut S,
    err: &mut E,
    bytes: &[u8],
) -> Answer {
    answer_of(store(alloc, shelf, err, "k.c", bytes))
}

fn answer_of_print<O: Sink, E: Sink>(out: &mut O, err: &mut E, bytes: &[u8]) -> Answer {
    answer_of(print(out, err, bytes))
}

fn answer_of_report<E: Sink>(err: &mut E, line: &[u8]) -> Answer {
    answer_of(report(err, line))
}

fn answer_of(end: Result<(), Stopped>) -> Answer {
    match end {
        Ok(()) => Answer::Done,
        Err(stopped) => Answer::Stopped(stopped.status()),
    }
}

fn do_act<S: Shelf, O: Sink, E: Sink>(
    alloc: Global,
    act: Act,
    shelf: &mut S,
    out: &mut O,
    err: &mut E,
) -> Answer {
    match act {
        Act::Load(name, limit) => answer_of_load(alloc, shelf, err, name, limit),
        Act::Store => answer_of_store(alloc, shelf, err, NEW),
        Act::Print => answer_of_print(out, err, b"text"),
        Act::Report => answer_of_report(err, b"line\n"),
    }
}

#[test]
fn each_act_is_done_where_nothing_fails(rt: HostRuntime) -> Result<(), Fail> {
    let mut shelf = CalmShelf::new(entries(rt.alloc())?)?;
    let mut out = CalmSink::new(rt.alloc());
    let mut err = CalmSink::new(rt.alloc());
    let acts = [
        (Act::Load("k.c", 6), Answer::OldBytes),
        (Act::Load("k.c", 5), Answer::TooLong),
        (Act::Load("p", 6), Answer::Absent),
        (Act::Store, Answer::Done),
        (Act::Load("k.c", 6), Answer::NewBytes),
        (Act::Print, Answer::Done),
        (Act::Report, Answer::Done),
    ];
    for (act, wanted) in acts {
        let answer = do_act(rt.alloc(), act, &mut shelf, &mut out, &mut err);
        assert_eq!(rt; answer, wanted, "{act:?}");
    }
    assert_eq!(rt; out.bytes(), b"text".as_slice());
    assert_eq!(rt; err.bytes(), b"line\n".as_slice());
    assert_eq!(rt; (shelf.calls(), shelf.stores()), (5, 1));
    assert_eq!(rt; (out.calls(), err.calls()), (1, 1));
    Ok(())
}

#[test]
fn acts_on_a_million_bytes_are_done(rt: HostRuntime) -> Result<(), Fail> {
    let alloc = rt.alloc();
    let long = vec![in alloc; b' '; 1_000_000]?;
    let mut shelf = CalmShelf::new(Vec::new(alloc))?;
    let mut out = CalmSink::new(alloc);
    let mut err = CalmSink::new(alloc);
    let stored = answer_of_store(alloc, &mut shelf, &mut err, &long);
    assert_eq!(rt; stored, Answer::Done);
    let loaded = answer_of_load(alloc, &mut shelf, &mut err, "k.c", 1_000_000);
    assert_eq!(rt; loaded, Answer::OtherBytes);
    assert_eq!(rt; answer_of_print(&mut out, &mut err, &long), Answer::Done);
    assert_eq!(rt; answer_of_report(&mut err, &long), Answer::Done);
    assert!(rt; shelf.bytes_of(b"k.c") == Some(long.as_slice()));
    assert!(rt; out.bytes() == long.as_slice() && err.bytes() == long.as_slice());
    Ok(())
}

/// The number of calls made: of the shelf, of stores among them, of the output and of the error output.
#[derive(Clone, Copy, Debug, PartialEq, Eq)]
struct Calls {
    shelf: u64,
    stores: u64,
    out: u64,
    err: u64,
}

/// Returns the calls of an act that fails: its own, and the output of its line.
fn calls_of(act: Act) -> Calls {
    let (shelf, stores, out) = match act {
        Act::Load(_, _) => (1, 0, 0),
        Act::Store => (1, 1, 0),
        Act::Print => (0, 0, 1),
        Act::Report => (0, 0, 0),
    };
    Calls {
        shelf,
        stores,
        out,
        err: 1,
    }
}

/// An act whose call fails, and possibly the output of its line too: its status, and what is on the two outputs.
#[derive(Clone, Copy)]
struct Broken {
    act: Act,
    line_fails: bool,
    status: Status,
    out: &'static [u8],
    err: &'static [u8],
}

impl Broken {
    fn of(
        act: Act,
        line_fails: bool,
        status: Status,
        out: &'static [u8],
        err: &'static [u8],
    ) -> Broken {
        Broken {
            act,
            line_fails,
            status,
            out,
            err,
        }
    }
}

/// Does the act, and returns whether it ended as described, with the calls of such an act and the old bytes on the shelf.
fn ends_so(alloc: Global, broken: &Broken) -> Result<bool, NoMemory> {
    let first = [0].to_vec(alloc)?;
    let line = if broken.line_fails {
        first.clone()?
    } else {
        Vec::new(alloc)
    };
    let mut shelf = MemShelf::new(entries(alloc)?, first.clone()?)?;
    let mut out = MemSink::new(alloc, first);
    let mut err = MemSink::new(alloc, line);
    let answer = do_act(alloc, broken.act, &mut shelf, &mut out, &mut err);
    let calls = Calls {
        shelf: shelf.calls(),
        stores: shelf.stores(),
        out: out.calls(),
        err: err.calls(),
    };
    Ok(
        answer == Answer::Stopped(broken.status)
            && calls == calls_of(broken.act)
            && shelf.bytes_of(b"k.c") == Some(OLD)
            && out.bytes() == broken.out
            && err.bytes() == broken.err,
    )
}

#[test]
fn an_act_that_fails_is_reported_by_its_line(rt: HostRuntime) -> Result<(), Fail> {
    let load = Act::Load("k.c", 6);
    let (read, write) = (Status::CannotRead, Status::CannotWrite);
    let rows = [
        Broken::of(load, false, read, b"", b"spatch: k.c: cannot read\n"),
        Broken::of(load, true, write, b"", b"spatch: k.c:"),
        Broken::of(
            Act::Store,
            false,
            write,
            b"",
            b"spatch: k.c: cannot write\n",
        ),
        Broken::of(Act::Store, true, write, b"", b"spatch: k.c: "),
        Broken::of(Act::Print, false, write, b"te", b"spatch: cannot print\n"),
        Broken::of(Act::Print, true, write, b"te", b"spatch: ca"),
        Broken::of(Act::Report, true, write, b"", b"li"),
    ];
    for row in rows {
        assert!(rt;
            ends_so(rt.alloc(), &row)?,
            "{:?}, {}",
            row.act,
            row.line_fails
        );
    }
    Ok(())
}

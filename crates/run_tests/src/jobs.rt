// A run with two jobs matches two items at the same time.
use c_terms::{NoMemory, Text};
use outer_io::{CalmShelf, CalmSink};
use par_match::Gate;
use spatch_run::run;
use std::alloc::Global;
use std::sync::atomic::{AtomicBool, Ordering};
use std::test::Fail;
use std::thread;
use std::time::Duration;

/// How often a job looks for the other, once per millisecond, before it continues alone.
const LOOKS: u32 = 5_000;

const PATCH: &[u8] = b"@@\n@@\n- g(a);\n";

const FILE: &[u8] =
    b"void f(void)\n{\n\tg(a);\n\th();\n}\n\nvoid k(void)\n{\n\tif (b)\n\t\th();\n\tg(a);\n}\n";

/// The calls of `g` are gone, and the blanks before them remain.
const EDITED: &[u8] =
    b"void f(void)\n{\n\t\n\th();\n}\n\nvoid k(void)\n{\n\tif (b)\n\t\th();\n\t\n}\n";

/// A gate that holds each of two jobs until the other has arrived too.
#[derive(Drop)]
struct Meeting<'a> {
    rt: &'a HostRuntime,
    /// Whether each job has arrived.
    here: [AtomicBool; 2],
    /// Whether each job has seen the other.
    seen: [AtomicBool; 2],
}

impl<'a> Meeting<'a> {
    fn new(rt: &'a HostRuntime) -> Meeting<'a> {
        Meeting {
            rt,
            here: [AtomicBool::new(false), AtomicBool::new(false)],
            seen: [AtomicBool::new(false), AtomicBool::new(false)],
        }
    }

    fn has_seen(&self, job: usize) -> bool {
        match self.seen.get(job) {
            Some(seen) => seen.load(Ordering::SeqCst),
            None => false,
        }
    }
}

impl Gate for Meeting<'_> {
    fn reached(&self, job: usize) {
        let (Some(mine), Some(seen)) = (self.here.get(job), self.seen.get(job)) else {
            return;
        };
        let Some(other) = self.here.get(1_usize.wrapping_sub(job)) else {
            return;
        };
        mine.store(true, Ordering::SeqCst);
        for _ in 0..LOOKS {
            if other.load(Ordering::SeqCst) {
                seen.store(true, Ordering::SeqCst);
                return;
            }
            thread::sleep(self.rt, Duration::from_millis(1));
        }
    }
}

fn files(alloc: Global) -> Result<CalmShelf, NoMemory> {
    let mut entries = Vec::new(alloc);
    entries.push((Text::from_bytes(alloc, b"p")?, PATCH.to_vec(alloc)?))?;
    entries.push((Text::from_bytes(alloc, b"k.c")?, FILE.to_vec(alloc)?))?;
    CalmShelf::new(entries)
}

fn words(alloc: Global) -> Result<Vec<Text>, NoMemory> {
    let mut words = Vec::new(alloc);
    for word in ["--jobs", "2", "--sp-file", "p", "k.c"] {
        words.push(Text::from_bytes(alloc, word.as_bytes())?)?;
    }
    Ok(words)
}

/// If the jobs run one after another, the first looks in vain for five seconds and continues without having seen the other.
#[test]
fn two_items_are_matched_side_by_side(rt: HostRuntime) -> Result<(), Fail> {
    let words = words(rt.alloc())?;
    let mut shelf = files(rt.alloc())?;
    let mut out = CalmSink::new(rt.alloc());
    let mut err = CalmSink::new(rt.alloc());
    let gate = Meeting::new(&rt);
    let status = run(&rt, &words, &mut shelf, &mut out, &mut err, &gate);
    assert_eq!(rt; status, 0);
    assert_eq!(rt; out.bytes(), EDITED);
    assert!(rt; err.bytes().is_empty());
    for job in [0, 1] {
        assert!(rt; gate.has_seen(job), "job {job} saw nothing of the other");
    }
    Ok(())
}

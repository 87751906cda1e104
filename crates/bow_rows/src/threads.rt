// The program with threads: a lane that goes on while another waits at the gate, and one server beside one thread.
// bow_rows tests_may=Threads+Wait; it stands on images::patterns and on tool as it takes rt and the gate.
use crate::images::patterns;
use bow_disk::MemDisk;
use bow_tool::tool;
use bow_units::{Gate, Geometry, MemSink, MemSource, OpenGate, Phase, Seen};
use std::alloc::Global;
use std::sync::Wait;
use std::sync::atomic::{AtomicU64, Ordering};
use std::test::Fail;
use std::thread::Threads;
use vold_meta::MemKeeper;

// What the program told with these words over 16 blocks of 512 bytes, where it ended with status 0.
fn told_by<H: Threads + Wait + Sync, G: Gate + Sync>(
    rt: &H,
    alloc: Global,
    own: &[&str],
    script: &str,
    gate: &G,
) -> Result<Vec<u8>, Fail> {
    let mut words = Vec::new(alloc);
    for word in ["image", "attempts", "512"].iter().chain(own) {
        words.push(String::from_str(alloc, word)?)?;
    }
    let sizes = Geometry {
        block_size: 512,
        blocks: 16,
    };
    let image = patterns(alloc, 16)?;
    if image.len() != 8192 {
        return Err(Fail::from("the size of the image"));
    }
    let disk = MemDisk::new(alloc, sizes, image, 400)?;
    let keeper = MemKeeper::new(alloc, None);
    let mut source = MemSource::new(alloc, script.as_bytes().to_vec(alloc)?);
    let mut sink = MemSink::new(alloc, 65_536)?;
    let ended = tool(
        rt,
        alloc,
        &words,
        disk,
        keeper,
        &mut source,
        &mut sink,
        gate,
    );
    if ended.status != 0 {
        return Err(Fail::from("a status other than 0"));
    }
    Ok(sink.bytes().to_vec(alloc)?)
}

// Where the line begins in the text, if it stands there once.
fn place_of(told: &[u8], line: &str) -> Option<usize> {
    let mut place = None;
    for i in 0..told.len() {
        if told[i..].starts_with(line.as_bytes()) {
            if place.is_some() {
                return None;
            }
            place = Some(i);
        }
    }
    place
}

// Lets request 0 of lane 0 start only once it was asked for request 1 of lane 1. It notes whether it gave that up, the
// version and the phase with which it was first asked for that one, and whether the version of a lane ever fell.
#[derive(Drop)]
struct LastFirst {
    asked: AtomicU64,
    refused: AtomicU64,
    gave_up: AtomicU64,
    version: AtomicU64,
    is_trim: AtomicU64,
    last: [AtomicU64; 2],
    fell: AtomicU64,
}

impl LastFirst {
    fn new() -> LastFirst {
        LastFirst {
            asked: AtomicU64::new(0),
            refused: AtomicU64::new(0),
            gave_up: AtomicU64::new(0),
            version: AtomicU64::new(0),
            is_trim: AtomicU64::new(0),
            last: [AtomicU64::new(0), AtomicU64::new(0)],
            fell: AtomicU64::new(0),
        }
    }

    fn note_version(&self, lane: u32, version: u64) {
        if let Some(last) = self.last.get(lane as usize) {
            if last.swap(version, Ordering::SeqCst) > version {
                self.fell.store(1, Ordering::SeqCst);
            }
        }
    }

    fn note_asked(&self, seen: Seen) {
        if self.asked.load(Ordering::SeqCst) == 0 {
            self.version.store(seen.version, Ordering::SeqCst);
            let is_trim = if seen.status.phase == Phase::Trim {
                1
            } else {
                0
            };
            self.is_trim.store(is_trim, Ordering::SeqCst);
            self.asked.store(1, Ordering::SeqCst);
        }
    }

    fn may_be_first(&self) -> bool {
        if self.asked.load(Ordering::SeqCst) == 1 {
            return true;
        }
        if self.refused.fetch_add(1, Ordering::SeqCst) >= 10_000_000 {
            self.gave_up.store(1, Ordering::SeqCst);
            return true;
        }
        false
    }
}

impl Gate for LastFirst {
    fn may_start(&self, lane: u32, number: u32, seen: Seen) -> bool {
        self.note_version(lane, seen.version);
        if lane == 1 && number == 1 {
            self.note_asked(seen);
        }
        if lane == 0 && number == 0 {
            return self.may_be_first();
        }
        true
    }
}

const LINES: [&str; 6] = [
    "1.0 wrote 2\n",
    "1.0 done\n",
    "0.0 wrote 1\n",
    "0.0 done\n",
    "1.1 wrote 2\n",
    "1.1 done\n",
];

// Where each of these lines begins, where all stand once in an order in which lane 0 waited, with nothing between them.
fn places_in(told: &[u8]) -> Option<[usize; 6]> {
    let mut places = [0usize; 6];
    let mut bytes = 0usize;
    for i in 0..6usize {
        places[i] = place_of(told, LINES[i])?;
        bytes = bytes.saturating_add(LINES[i].len());
    }
    let begins = places[0] == 0 && places[0] < places[1];
    let waited = places[1] < places[2] && places[2] < places[3];
    let went_on = places[1] < places[4] && places[4] < places[5];
    let end = (places[3].saturating_add(9)).max(places[5].saturating_add(9));
    if begins && waited && went_on && end == bytes {
        return Some(places);
    }
    None
}

const SCRIPT: &str = "lane\nwrite 1 1 5\nlane\nwrite 2 1 6\nwrite 2 1 7\n";

#[test]
fn a_lane_goes_on_while_another_waits_at_the_gate(rt: HostRuntime) -> Result<(), Fail> {
    let gate = LastFirst::new();
    let told = told_by(&rt, rt.alloc(), &["run", "2"], SCRIPT, &gate)?;
    assert_eq!(rt; gate.gave_up.load(Ordering::SeqCst), 0);
    assert_eq!(rt; gate.version.load(Ordering::SeqCst), 3);
    assert_eq!(rt; gate.is_trim.load(Ordering::SeqCst), 1);
    assert_eq!(rt; gate.fell.load(Ordering::SeqCst), 0);
    assert!(rt; places_in(told.as_slice()).is_some());
    assert_eq!(rt; told.len(), 63);
    Ok(())
}

// The number of lines before this place.
fn lines_before(told: &[u8], place: usize) -> usize {
    let mut lines = 0usize;
    for i in 0..told.len().min(place) {
        if told[i] == b'\n' {
            lines = lines.saturating_add(1);
        }
    }
    lines
}

#[test]
fn a_caller_goes_on_while_another_waits_at_the_gate(rt: HostRuntime) -> Result<(), Fail> {
    let gate = LastFirst::new();
    let alloc: Global = rt.alloc();
    let told = told_by(&rt, alloc, &["callers"], SCRIPT, &gate)?;
    assert_eq!(rt; gate.gave_up.load(Ordering::SeqCst), 0);
    assert_eq!(rt; gate.fell.load(Ordering::SeqCst), 0);
    let told = told.as_slice();
    let places = places_in(told).ok_or("a line that is not in order")?;
    let p = lines_before(told, places[3]);
    let q = lines_before(told, places[1]);
    let r = lines_before(told, places[5]);
    let receipts = format!(in alloc;
        "receipt 0.0 at {p}\nreceipt 1.0 at {q}\nreceipt 1.1 at {r}\n"
    )?;
    assert!(rt; told.ends_with(receipts.as_bytes()));
    assert_eq!(rt; told.len(), receipts.len().saturating_add(63));
    Ok(())
}

#[test]
fn one_server_tells_what_one_thread_tells(rt: HostRuntime) -> Result<(), Fail> {
    let script = "discard 8 8\nprepare\nwrite 1 1 5\n";
    let alone = told_by(&rt, rt.alloc(), &["play", "0"], script, &OpenGate)?;
    let told = told_by(&rt, rt.alloc(), &["run", "1"], script, &OpenGate)?;
    assert_eq!(rt; told.as_slice(), alone.as_slice());
    assert_eq!(rt;
        told.as_slice(),
        b"0.0 done\n0.1 done\n0.2 wrote 1\n0.2 done\n".as_slice()
    );
    Ok(())
}

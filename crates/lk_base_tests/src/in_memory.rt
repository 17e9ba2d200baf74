//! The outside in memory: each call once, and a failure of each call.

use lk_outside::{
    Answer, Device, Files, FreeTurnstile, LengthAnswer, MemoryDevice, MemoryFiles, MemorySink,
    ReadAnswer, Sink, Stamp, StatAnswer, SureDevice, SureFiles, SureSink, Turnstile,
};
use lk_report::{Bytes, Name, NoMemory};
use std::alloc::Global;

const STAMP: Stamp = Stamp {
    length: 3,
    modified: -7,
};

/// Whether the read got these bytes.
pub fn is_got(answer: &ReadAnswer, bytes: &[u8]) -> bool {
    match answer {
        ReadAnswer::Got(got) => got.as_slice() == bytes,
        _ => false,
    }
}

/// Whether the file is found with this stamp and read with these bytes.
fn is_there<F: Files>(files: &mut F, path: &Name, stamp: Option<Stamp>, bytes: &[u8]) -> bool {
    let found = files.stat(path) == StatAnswer::Found(stamp);
    let read = is_got(&files.read(path), bytes);
    found && read
}

/// Whether no file is found and none is read.
fn is_absent<F: Files>(files: &mut F, path: &Name) -> bool {
    let missed = files.stat(path) == StatAnswer::Absent;
    let unread = matches!(files.read(path), ReadAnswer::Absent);
    missed && unread
}

/// Whether the look-up and the read fail.
fn failures<F: Files>(files: &mut F, path: &Name) -> (bool, bool) {
    let stat = files.stat(path) == StatAnswer::Failed;
    let read = matches!(files.read(path), ReadAnswer::Failed);
    (stat, read)
}

/// Whether a file of these bytes was put.
fn is_put(
    files: &mut MemoryFiles,
    path: &str,
    bytes: Result<Bytes, NoMemory>,
    stamp: Option<Stamp>,
) -> bool {
    match bytes {
        Ok(bytes) => files.put(path, bytes, stamp).is_ok(),
        Err(_) => false,
    }
}

fn bytes(alloc: Global, of: &[u8]) -> Result<Bytes, NoMemory> {
    Bytes::from_slice(alloc, of)
}

#[test]
fn files_in_memory_are_found_and_read(rt: HostRuntime) -> Result<(), NoMemory> {
    let path = Name::from_slice(rt.alloc(), b"a.o")?;
    let mut files = MemoryFiles::new(rt.alloc());
    assert!(rt; is_absent(&mut files, &path));
    assert!(rt; is_put(&mut files, "a.o", bytes(rt.alloc(), b"old"), None));
    assert!(rt; is_there(&mut files, &path, None, b"old"));
    assert!(rt; is_put(&mut files, "b.o", bytes(rt.alloc(), b"other"), None));
    assert!(rt; is_put(&mut files, "a.o", bytes(rt.alloc(), b"new"), Some(STAMP)));
    assert!(rt; is_there(&mut files, &path, Some(STAMP), b"new"));
    assert_eq!(rt; files.reads(), 3);
    Ok(())
}

/// Which calls fail, the look-up or the read, where the call of this number is to.
fn failures_at(alloc: Global, path: &Name, n: u64) -> (bool, bool) {
    let mut files = MemoryFiles::new(alloc);
    files.fail_call(n);
    failures(&mut files, path)
}

#[test]
fn a_named_call_on_files_fails(rt: HostRuntime) -> Result<(), NoMemory> {
    let path = Name::from_slice(rt.alloc(), b"a.o")?;
    for (n, stat, read) in [(1, true, false), (2, false, true), (3, false, false)] {
        assert_eq!(rt; failures_at(rt.alloc(), &path, n), (stat, read), "call {n}");
    }
    Ok(())
}

/// Files that never fail, with one of the bytes `abc` at `a.o`.
fn with_abc(alloc: Global, mut files: SureFiles) -> Result<SureFiles, NoMemory> {
    let bytes = Bytes::from_slice(alloc, b"abc")?;
    files.put("a.o", bytes, Some(STAMP))?;
    Ok(files)
}

#[test]
fn sure_files_are_found_and_read(rt: HostRuntime) -> Result<(), NoMemory> {
    let path = Name::from_slice(rt.alloc(), b"a.o")?;
    let mut none = SureFiles::new(rt.alloc());
    assert!(rt; is_absent(&mut none, &path));
    let mut files = with_abc(rt.alloc(), none)?;
    assert!(rt; is_there(&mut files, &path, Some(STAMP), b"abc"));
    assert_eq!(rt; files.reads(), 2);
    Ok(())
}

fn write(device: &mut MemoryDevice, at: u64, bytes: &[u8]) -> Answer {
    if at > device.bytes().len() as u64 {
        return Answer::Failed;
    }
    device.write_at(at, bytes)
}

fn cut(device: &mut MemoryDevice, length: u64) -> Answer {
    if length > device.bytes().len() as u64 {
        return Answer::Failed;
    }
    device.cut(length)
}

/// The first byte.
fn first(device: &mut MemoryDevice) -> Option<u8> {
    if device.bytes().is_empty() {
        return None;
    }
    let mut into = [0u8];
    match device.read_at(0, &mut into) {
        Answer::Done => Some(into[0]),
        Answer::Failed => None,
    }
}

/// Which of the five calls were done, on a device that begins with `a`.
fn calls_done(device: &mut MemoryDevice) -> [bool; 5] {
    let length = device.length() != LengthAnswer::Failed;
    let read = first(device) == Some(b'a');
    let written = write(device, 0, b"x") == Answer::Done;
    let synced = device.sync() == Answer::Done;
    let cut = cut(device, 1) == Answer::Done;
    [length, read, written, synced, cut]
}

fn device_of(alloc: Global, bytes: &[u8]) -> Result<MemoryDevice, NoMemory> {
    MemoryDevice::of(alloc, &Bytes::from_slice(alloc, bytes)?)
}

#[test]
fn a_device_in_memory_takes_writes_and_cuts(rt: HostRuntime) -> Result<(), NoMemory> {
    let mut device = device_of(rt.alloc(), b"abcdef")?;
    for (at, text, after) in [
        (1, b"XY".as_slice(), b"aXYdef".as_slice()),
        (5, b"+--".as_slice(), b"aXYde+--".as_slice()),
        (8, b"!".as_slice(), b"aXYde+--!".as_slice()),
    ] {
        assert_eq!(rt; write(&mut device, at, text), Answer::Done);
        assert_eq!(rt; device.bytes(), after);
    }
    assert_eq!(rt; calls_done(&mut device), [true; 5]);
    assert_eq!(rt; device.bytes(), b"x".as_slice());
    Ok(())
}

/// Which of the five calls were done on `abc` where the call of this number is to fail, and whether
/// the device then holds the bytes `after`.
fn calls_done_but(alloc: Global, n: u64, after: &[u8]) -> Result<([bool; 5], bool), NoMemory> {
    let mut device = device_of(alloc, b"abc")?;
    device.fail_call(n);
    let done = calls_done(&mut device);
    Ok((done, device.bytes() == after))
}

#[test]
fn a_named_call_on_a_device_fails(rt: HostRuntime) -> Result<(), NoMemory> {
    for (n, after) in [
        (1, b"x".as_slice()),
        (2, b"x".as_slice()),
        (3, b"a".as_slice()),
        (4, b"x".as_slice()),
        (5, b"xbc".as_slice()),
    ] {
        let done = [n != 1, n != 2, n != 3, n != 4, n != 5];
        assert_eq!(rt;
            calls_done_but(rt.alloc(), n, after)?,
            (done, true),
            "call {n}"
        );
    }
    Ok(())
}

/// Which of the five calls were done on `abc` where every call after this one is to fail.
fn calls_done_up_to(alloc: Global, last: u64) -> Result<[bool; 5], NoMemory> {
    let mut device = device_of(alloc, b"abc")?;
    device.stop_after(last);
    Ok(calls_done(&mut device))
}

#[test]
fn a_device_stops_after_a_call(rt: HostRuntime) -> Result<(), NoMemory> {
    for last in 0..6 {
        let done = [last > 0, last > 1, last > 2, last > 3, last > 4];
        assert_eq!(rt; calls_done_up_to(rt.alloc(), last)?, done, "{last} calls");
    }
    Ok(())
}

/// Writes a byte at the start, syncs, and cuts the file to nothing.
fn use_sure_device(device: &mut SureDevice) -> [bool; 4] {
    let length = device.length() == LengthAnswer::Known(3);
    let written = device.write_at(0, b"x") == Answer::Done;
    let synced = device.sync() == Answer::Done;
    let cut = device.cut(0) == Answer::Done;
    [length, written, synced, cut]
}

#[test]
fn a_sure_device_takes_writes_and_cuts(rt: HostRuntime) -> Result<(), NoMemory> {
    let bytes = Bytes::from_slice(rt.alloc(), b"abc")?;
    let mut device = SureDevice::of(rt.alloc(), &bytes)?;
    let mut into = [0u8; 0];
    assert_eq!(rt; device.read_at(0, &mut into), Answer::Done);
    assert_eq!(rt; use_sure_device(&mut device), [true; 4]);
    assert!(rt; device.bytes().is_empty());
    Ok(())
}

/// The text put twice.
fn put_twice<S: Sink>(sink: &mut S, text: &[u8]) -> (Answer, Answer) {
    let first = sink.put(text);
    let second = sink.put(text);
    (first, second)
}

#[test]
fn a_sink_in_memory_keeps_what_is_put(rt: HostRuntime) {
    let mut sink = MemorySink::new(rt.alloc());
    sink.fail_call(4);
    assert_eq!(rt; put_twice(&mut sink, b"ab"), (Answer::Done, Answer::Done));
    assert_eq!(rt; put_twice(&mut sink, b"c"), (Answer::Done, Answer::Failed));
    assert_eq!(rt; sink.bytes(), b"ababc".as_slice());
}

#[test]
fn a_sure_sink_keeps_what_is_put(rt: HostRuntime) {
    let mut sink = SureSink::new(rt.alloc());
    assert_eq!(rt; put_twice(&mut sink, b"ab"), (Answer::Done, Answer::Done));
    assert_eq!(rt; sink.bytes(), b"abab".as_slice());
}

/// Enters a gate.
fn enter<T: Turnstile>(gate: &T) {
    gate.enter(3);
}

#[test]
fn the_free_gate_holds_nobody(_rt: HostRuntime) {
    enter(&FreeTurnstile);
}

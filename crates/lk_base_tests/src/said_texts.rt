//! The text of each kind of status and its exit code, and that nothing is put after a failed put.

use crate::books::Book;
use lk_report::{
    Cause, Fault, FaultList, InputFault, LimitFault, LimitKind, List, Name, NoMemory, OptionRecord,
    Outcome, Site, Status, UsageFault, Waiting, say,
};
use std::alloc::Global;
use std::process::Abort;
use std::test::Fail;

fn expect_said(rt: &impl Abort, alloc: Global, status: Status, text: &[u8]) {
    let mut book = Book::new(alloc, 0);
    say(&status, &mut book);
    assert_eq!(rt; book.bytes.as_slice(), text);
    assert_eq!(rt; book.faults, 0);
}

fn expect_code(rt: &impl Abort, status: Status, code: u8) {
    assert_eq!(rt; status.exit_code(), code);
}

fn name(alloc: Global, text: &[u8]) -> Result<Name, NoMemory> {
    Name::from_slice(alloc, text)
}

pub fn site(alloc: Global) -> Result<Site, NoMemory> {
    Ok(Site {
        path: name(alloc, b"a.o")?,
        section: 1,
        offset: 255,
    })
}

pub fn options(alloc: Global, patch: u32) -> Result<OptionRecord, NoMemory> {
    Ok(OptionRecord {
        entry: name(alloc, b"_start")?,
        interp: name(alloc, b"")?,
        runpath: name(alloc, b"")?,
        patch,
        export_dynamic: false,
        dynamic: true,
    })
}

pub fn changed(alloc: Global) -> Result<Cause, NoMemory> {
    Ok(Cause::OptionsChanged {
        before: options(alloc, 10)?,
        now: options(alloc, 50)?,
    })
}

fn small_hole(alloc: Global) -> Result<Cause, NoMemory> {
    Ok(Cause::SmallHole {
        section: name(alloc, b".eh_frame")?,
        size: 8,
    })
}

fn undefined(alloc: Global) -> Result<Fault, NoMemory> {
    Ok(Fault::Undefined {
        name: name(alloc, b"g")?,
        site: site(alloc)?,
    })
}

fn bad_relocation(alloc: Global) -> Result<Fault, NoMemory> {
    Ok(Fault::Input {
        path: name(alloc, b"b.o")?,
        fault: InputFault::BadRela(2, 0),
    })
}

fn added(mut faults: FaultList, fault: Fault) -> Result<FaultList, NoMemory> {
    faults.push(fault)?;
    Ok(faults)
}

pub fn two_faults(alloc: Global) -> Result<FaultList, NoMemory> {
    let one = added(List::new(alloc), undefined(alloc)?)?;
    added(one, bad_relocation(alloc)?)
}

#[test]
fn links_are_said(rt: HostRuntime) -> Result<(), Fail> {
    let alloc = rt.alloc();
    let cause = changed(alloc)?;
    expect_said(
        &rt,
        alloc,
        Status::Done(Outcome::Full(Some(cause))),
        b"full link: options changed\n",
    );
    expect_said(
        &rt,
        alloc,
        Status::Done(Outcome::Full(None)),
        b"full link\n",
    );
    expect_said(&rt, alloc, Status::Done(Outcome::Updated), b"updated\n");
    Ok(())
}

#[test]
fn faults_are_said(rt: HostRuntime) -> Result<(), Fail> {
    let alloc = rt.alloc();
    let faults = two_faults(alloc)?;
    let lines = b"error: undefined g at a.o:1+0xff\nerror: b.o: BadRela 2 0\n";
    expect_said(&rt, alloc, Status::LinkError(faults), lines);
    let open = UsageFault::OpenLib(4294967295);
    expect_said(
        &rt,
        alloc,
        Status::Usage(open),
        b"usage: word 4294967295: lib not ended\n",
    );
    Ok(())
}

#[test]
fn failures_are_said(rt: HostRuntime) -> Result<(), Fail> {
    let alloc = rt.alloc();
    let path = name(alloc, b"c.o")?;
    expect_said(
        &rt,
        alloc,
        Status::ReadFault(path),
        b"error: cannot read c.o\n",
    );
    expect_said(
        &rt,
        alloc,
        Status::DeviceFault,
        b"error: output device failed\n",
    );
    expect_said(&rt, alloc, Status::NoMemory, b"error: no memory\n");
    Ok(())
}

#[test]
fn refusals_are_said(rt: HostRuntime) -> Result<(), Fail> {
    let alloc = rt.alloc();
    let cause = small_hole(alloc)?;
    expect_said(
        &rt,
        alloc,
        Status::NotUpdated(cause),
        b"not updated: hole of 0x8 in .eh_frame\n",
    );
    let fault = LimitFault {
        which: LimitKind::Memory,
        number: 10145709240540261760,
    };
    expect_said(
        &rt,
        alloc,
        Status::Limit(fault),
        b"error: limit Memory: 10145709240540261760\n",
    );
    Ok(())
}

#[test]
fn what_waits_is_said(rt: HostRuntime) -> Result<(), Fail> {
    let alloc = rt.alloc();
    let path = name(alloc, b"a.o")?;
    expect_said(
        &rt,
        alloc,
        Status::NotYet(Waiting::Form { path }),
        b"not built yet: a.o\n",
    );
    expect_said(
        &rt,
        alloc,
        Status::NotYet(Waiting::Words),
        b"not built yet: words\n",
    );
    Ok(())
}

/// Says a status into a sink whose put of this number fails, and compares what was said.
fn expect_stopped(rt: &impl Abort, alloc: Global, status: &Status, fail_at: u64, whole: &[u8]) {
    let mut book = Book::new(alloc, fail_at);
    say(status, &mut book);
    assert_eq!(rt; book.puts, fail_at);
    assert_eq!(rt; book.faults, 1);
    assert!(rt; whole.starts_with(book.bytes.as_slice()), "at {fail_at}");
    assert!(rt; book.bytes.len() < whole.len());
}

#[test]
fn nothing_is_put_after_a_failed_put(rt: HostRuntime) -> Result<(), Fail> {
    let alloc = rt.alloc();
    let status = Status::LinkError(two_faults(alloc)?);
    let mut whole = Book::new(alloc, 0);
    say(&status, &mut whole);
    assert!(rt; whole.puts > 10 && whole.puts < 100);
    for fail_at in 1..=whole.puts {
        expect_stopped(&rt, alloc, &status, fail_at, whole.bytes.as_slice());
    }
    Ok(())
}

#[test]
fn each_status_with_a_payload_has_its_exit_code(rt: HostRuntime) -> Result<(), Fail> {
    let alloc = rt.alloc();
    let faults = two_faults(alloc)?;
    expect_code(&rt, Status::LinkError(faults), 1);
    let path = name(alloc, b"c.o")?;
    expect_code(&rt, Status::ReadFault(path), 3);
    Ok(())
}

#[test]
fn each_other_status_has_its_exit_code(rt: HostRuntime) {
    let limit = LimitFault {
        which: LimitKind::Inputs,
        number: 4097,
    };
    expect_code(&rt, Status::Done(Outcome::Updated), 0);
    expect_code(&rt, Status::Usage(UsageFault::NoInput), 2);
    expect_code(&rt, Status::DeviceFault, 4);
    expect_code(&rt, Status::NoMemory, 5);
    expect_code(&rt, Status::Limit(limit), 6);
    expect_code(&rt, Status::NotUpdated(Cause::NoBase), 7);
    expect_code(&rt, Status::NotYet(Waiting::Words), 8);
}

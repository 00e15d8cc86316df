//! The files of the system. What is read of them is compared in a function beside each test, which answers nothing where the system has no room for a file.

use fx_outside::{FileError, Files, Folder};
use std::io::{PipeWriter, Write};
use std::os::fd::AsRawFd;
use std::sync::Wait;
use std::thread::Threads;
use std::time::Duration;
use std::{env, fs, io, thread};

#[test]
fn a_folder_reads_the_files_of_the_system(rt: HostRuntime) {
    assert_eq!(rt; first_amiss_of_five(&rt), Some(None), "by the rows from 0");
}

#[test]
fn a_long_file_is_read_up_to_its_limit_and_one_byte(rt: HostRuntime) {
    assert_eq!(rt; first_limit_amiss(&rt), Some(None));
}

#[test]
fn a_pipe_is_read_to_its_end(rt: HostRuntime) {
    assert_eq!(rt; is_pipe_read(&rt, &rt), Some(true));
}

// The first of these that gives something else: a file by its limit, a file that isn't there, and a folder.
fn first_amiss_of_five(rt: &HostRuntime) -> Option<Option<usize>> {
    let name = file_name(rt, "a_folder_reads_the_files.txt")?;
    let missing = file_name(rt, "no_such_file/none.txt")?;
    fs::write(rt, name.as_str(), "12345").ok()?;
    let amiss = first_amiss(
        rt,
        &[
            (name.as_str(), 10, Ok("12345")),
            (name.as_str(), 5, Ok("12345")),
            (name.as_str(), 3, Ok("1234")),
            (missing.as_str(), 10, Err(FileError::Failed)),
            ("/", 10, Err(FileError::Failed)),
        ],
    )?;
    fs::remove_file(rt, name.as_str()).ok()?;
    Some(amiss)
}

// The name of a file for a test, in the system's folder for files that don't last.
fn file_name(rt: &HostRuntime, name: &str) -> Option<String> {
    let folder = env::temp_dir(rt).ok()?;
    let folder = folder.as_path().to_str()?;
    format!(in rt.alloc(); "{folder}/fx_edges_{name}").ok()
}

// The first row whose file, read to its limit, gives something else.
fn first_amiss(
    rt: &HostRuntime,
    rows: &[(&str, u16, Result<&str, FileError>)],
) -> Option<Option<usize>> {
    let mut files = Folder::new(rt.alloc(), *rt);
    Some(rows.iter().position(|(name, limit, want)| !gives(rt, &mut files, name, *limit, *want)))
}

fn gives(
    rt: &HostRuntime,
    files: &mut Folder<HostRuntime>,
    name: &str,
    limit: u16,
    want: Result<&str, FileError>,
) -> bool {
    match (files.take(rt.alloc(), name, u64::from(limit)), want) {
        (Ok(bytes), Ok(want)) => bytes.as_slice() == want.as_bytes(),
        (Err(error), Err(want)) => error == want,
        _ => false,
    }
}

// The first limit up to which something else is read of a file of 10,000 bytes.
fn first_limit_amiss(rt: &HostRuntime) -> Option<Option<u16>> {
    let name = file_name(rt, "a_long_file.txt")?;
    fs::write(rt, name.as_str(), numbered(rt, 10000)?.as_slice()).ok()?;
    let amiss = limit_amiss(rt, name.as_str())?;
    fs::remove_file(rt, name.as_str()).ok()?;
    Some(amiss)
}

fn limit_amiss(rt: &HostRuntime, name: &str) -> Option<Option<u16>> {
    for limit in [4095, 4096, 9999, 10000, 10001] {
        if !is_front(rt, name, limit, u64::from(limit) + 1)? {
            return Some(Some(limit));
        }
    }
    Some(None)
}

fn is_pipe_read<R: Threads + Wait>(threads: &R, rt: &HostRuntime) -> Option<bool> {
    let (reader, writer) = io::pipe(rt).ok()?;
    let fd = reader.as_raw_fd();
    let name = format!(in rt.alloc(); "/dev/fd/{fd}").ok()?;
    let own = *rt;
    let feeder = thread::spawn(threads, move || feed(&own, writer).is_ok()).ok()?;
    let mut files = Folder::new(rt.alloc(), *rt);
    let is_read = gives(rt, &mut files, name.as_str(), 100, Ok("onetwothree"));
    let is_fed = feeder.join(threads);
    drop(reader);
    Some(is_read && is_fed)
}

// Writes pieces with waits between them, and closes the pipe.
fn feed(rt: &HostRuntime, mut writer: PipeWriter) -> io::Result<()> {
    for piece in ["one", "two", "three"] {
        writer.write_all(piece.as_bytes())?;
        thread::sleep(rt, Duration::from_millis(50));
    }
    Ok(())
}

// Whether that many bytes are taken from a file of 10,000 numbered ones, or all.
fn is_front(rt: &HostRuntime, name: &str, limit: u16, size: u64) -> Option<bool> {
    let mut files = Folder::new(rt.alloc(), *rt);
    let found = files.take(rt.alloc(), name, u64::from(limit)).ok()?;
    Some(found == numbered(rt, size.min(10000))?)
}

// So many bytes, of which each is another one than those beside it.
fn numbered(rt: &HostRuntime, count: u64) -> Option<Vec<u8>> {
    let mut bytes = Vec::new(rt.alloc());
    for number in 0..count {
        bytes.push((number % 251) as u8).ok()?;
    }
    Some(bytes)
}

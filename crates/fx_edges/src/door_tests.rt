//! A door over sockets. What a peer and a door do together is a function beside each test, which answers nothing where the system has no socket for it.

use fx_outside::{Door, DoorError, Listener, ReadFailed, Source, write_all};
use std::io::{Read, Write};
use std::net::{Ipv4Addr, SocketAddr, TcpListener, TcpStream};
use std::sync::Wait;
use std::thread::Threads;
use std::time::Duration;
use std::{io, thread};

// A patience in seconds that no test uses up.
const LONG: u64 = 30;

#[test]
fn a_listener_takes_connections_one_after_another(rt: HostRuntime) {
    assert_eq!(rt; takes_two(&rt, &rt), Some(true));
}

#[test]
fn a_listener_that_is_not_started_or_has_no_address_fails(rt: HostRuntime) {
    assert_eq!(rt; fails_at_first(&rt), Some(true));
}

#[test]
fn a_listener_that_is_started_again_is_at_the_new_address_alone(rt: HostRuntime) {
    assert_eq!(rt; is_at_the_new_address(&rt, &rt), Some(true));
}

#[test]
fn a_reply_comes_whole_where_much_of_the_request_is_unread(rt: HostRuntime) {
    assert_eq!(rt; answers_a_long_request(&rt, &rt), Some(true));
}

#[test]
fn a_client_is_answered_behind_one_that_is_silent(rt: HostRuntime) {
    assert_eq!(rt; answers_behind_a_silent_one(&rt, &rt), Some(true));
}

#[test]
fn a_peer_that_sends_a_byte_now_and_then_is_cut_off(rt: HostRuntime) {
    assert_eq!(rt; cuts_off_a_drip(&rt, &rt), Some(true));
}

#[test]
fn a_peer_that_takes_nothing_is_cut_off(rt: HostRuntime) {
    assert_eq!(rt; cuts_off_who_takes_nothing(&rt), Some(true));
}

#[test]
fn what_came_before_a_peer_went_away_is_read(rt: HostRuntime) {
    assert_eq!(rt; reads_what_came_before(&rt), Some(true));
}

fn takes_two<R: Threads + Wait>(threads: &R, rt: &HostRuntime) -> Option<bool> {
    let (mut door, port) = started(rt, Duration::from_secs(LONG))?;
    // The peer sends more than is read, and reads to the end what is written.
    Some(serves(threads, rt, &mut door, port, 1)? && serves(threads, rt, &mut door, port, 1)?)
}

fn fails_at_first(rt: &HostRuntime) -> Option<bool> {
    let mut door = Listener::new(*rt);
    let is_closed = door.accept(rt.alloc()).is_err();
    Some(is_closed && door.start(rt.alloc(), "nowhere") == Err(DoorError::Failed))
}

fn is_at_the_new_address<R: Threads + Wait>(threads: &R, rt: &HostRuntime) -> Option<bool> {
    let (mut door, old) = started(rt, Duration::from_secs(LONG))?;
    let new = start(rt, &mut door)?;
    let is_gone = TcpStream::connect(rt, (Ipv4Addr::LOCALHOST, old)).is_err();
    Some(is_gone && serves(threads, rt, &mut door, new, 1)?)
}

// The pieces come while the connection is to be closed.
fn answers_a_long_request<R: Threads + Wait>(threads: &R, rt: &HostRuntime) -> Option<bool> {
    let (mut door, port) = started(rt, Duration::from_secs(LONG))?;
    serves(threads, rt, &mut door, port, 10)
}

fn answers_behind_a_silent_one<R: Threads + Wait>(threads: &R, rt: &HostRuntime) -> Option<bool> {
    let (mut door, port) = started(rt, Duration::from_millis(200))?;
    let silent = TcpStream::connect(rt, (Ipv4Addr::LOCALHOST, port)).ok()?;
    let answered = is_cut_off(rt, &mut door)? && serves(threads, rt, &mut door, port, 1)?;
    drop(silent);
    Some(answered)
}

fn cuts_off_a_drip<R: Threads + Wait>(threads: &R, rt: &HostRuntime) -> Option<bool> {
    let (mut door, port) = started(rt, Duration::from_millis(300))?;
    let own = *rt;
    // Whether it could not send all of its bytes.
    let peer = thread::spawn(threads, move || drip(&own, port).is_err()).ok()?;
    let is_cut = is_cut_off(rt, &mut door)?;
    Some(peer.join(threads) && is_cut)
}

fn cuts_off_who_takes_nothing(rt: &HostRuntime) -> Option<bool> {
    let (mut door, port) = started(rt, Duration::from_millis(200))?;
    let silent = TcpStream::connect(rt, (Ipv4Addr::LOCALHOST, port)).ok()?;
    let is_cut = takes_nothing(rt, &mut door)?;
    drop(silent);
    Some(is_cut)
}

fn reads_what_came_before(rt: &HostRuntime) -> Option<bool> {
    let (mut door, port) = started(rt, Duration::from_secs(LONG))?;
    send(rt, port).ok()?;
    has_three_bytes(rt, &mut door)
}

// A port of this machine that nobody listens at.
fn free_port(rt: &HostRuntime) -> Option<u16> {
    let free = TcpListener::bind(rt, SocketAddr::from((Ipv4Addr::LOCALHOST, 0))).ok()?;
    Some(free.local_addr().ok()?.port())
}

// A door that is started, with this patience, and its port.
fn started(rt: &HostRuntime, patience: Duration) -> Option<(Listener<HostRuntime>, u16)> {
    let mut door = Listener::with_patience(*rt, patience);
    let port = start(rt, &mut door)?;
    Some((door, port))
}

// Starts a door at a port that nobody listens at.
fn start(rt: &HostRuntime, door: &mut Listener<HostRuntime>) -> Option<u16> {
    let port = free_port(rt)?;
    let address = format!(in rt.alloc(); "127.0.0.1:{port}").ok()?;
    door.start(rt.alloc(), address.as_str()).ok()?;
    Some(port)
}

// Whether a peer whose request has so many pieces, of which the door reads two bytes, gets the reply.
fn serves<R: Threads + Wait>(
    threads: &R,
    rt: &HostRuntime,
    door: &mut Listener<HostRuntime>,
    port: u16,
    pieces: u64,
) -> Option<bool> {
    let own = *rt;
    let peer = thread::spawn(threads, move || is_answered(&own, port, pieces)).ok()?;
    answer(rt, door)?;
    Some(peer.join(threads))
}

// Whether one of the first 30 reads from the next connection fails, and the one behind it.
fn is_cut_off(rt: &HostRuntime, door: &mut Listener<HostRuntime>) -> Option<bool> {
    let mut conn = door.accept(rt.alloc()).ok()?;
    let is_cut = fails_for_good(&mut conn);
    door.finish(rt.alloc(), conn).ok()?;
    Some(is_cut)
}

fn fails_for_good<S: Source>(conn: &mut S) -> bool {
    let mut into = [0u8; 1];
    for _ in 0..30 {
        if conn.read(&mut into) == Err(ReadFailed) {
            return conn.read(&mut into) == Err(ReadFailed);
        }
    }
    false
}

// Whether 256 MB can't be written to the next connection.
fn takes_nothing(rt: &HostRuntime, door: &mut Listener<HostRuntime>) -> Option<bool> {
    let mut conn = door.accept(rt.alloc()).ok()?;
    let mut is_cut = false;
    for _ in 0..4096 {
        if write_all(&mut conn, &[7u8; 65536]).is_err() {
            is_cut = true;
            break;
        }
    }
    door.finish(rt.alloc(), conn).ok()?;
    Some(is_cut)
}

// Sends three bytes to a port of this machine, and goes away.
fn send(rt: &HostRuntime, port: u16) -> io::Result<()> {
    TcpStream::connect(rt, (Ipv4Addr::LOCALHOST, port))?.write_all(b"abc")
}

// Whether the next connection gives three bytes, and then its end.
fn has_three_bytes(rt: &HostRuntime, door: &mut Listener<HostRuntime>) -> Option<bool> {
    let mut conn = door.accept(rt.alloc()).ok()?;
    let mut into = [0u8; 2];
    let all = conn.read(&mut into) == Ok(2)
        && conn.read(&mut into) == Ok(1)
        && conn.read(&mut into) == Ok(0);
    door.finish(rt.alloc(), conn).ok()?;
    Some(all)
}

// Reads two bytes at most from the next connection, and writes the reply.
fn answer(rt: &HostRuntime, door: &mut Listener<HostRuntime>) -> Option<()> {
    let mut conn = door.accept(rt.alloc()).ok()?;
    conn.read(&mut [0u8; 2]).ok()?;
    write_all(&mut conn, b"reply").ok()?;
    door.finish(rt.alloc(), conn).ok()
}

// Whether a request of so many pieces, to a port of this machine, gets the reply, and nothing behind it.
fn is_answered(rt: &HostRuntime, port: u16, pieces: u64) -> bool {
    ask(rt, port, pieces).is_ok_and(|is| is)
}

fn ask(rt: &HostRuntime, port: u16, pieces: u64) -> io::Result<bool> {
    let mut stream = TcpStream::connect(rt, (Ipv4Addr::LOCALHOST, port))?;
    for _ in 0..pieces {
        stream.write_all(&[7u8; 1000])?;
        thread::sleep(rt, Duration::from_millis(20));
    }
    let mut reply = [0u8; 5];
    stream.read_exact(&mut reply)?;
    Ok(&reply == b"reply" && stream.read(&mut reply)? == 0)
}

// Sends a byte 50 times a second for four seconds, or until the connection is closed.
fn drip(rt: &HostRuntime, port: u16) -> io::Result<()> {
    let mut stream = TcpStream::connect(rt, (Ipv4Addr::LOCALHOST, port))?;
    for _ in 0..200 {
        stream.write_all(b"a")?;
        thread::sleep(rt, Duration::from_millis(20));
    }
    Ok(())
}

//! A wire over sockets. What an exchange gives is compared in a function beside each test, which answers nothing where the system has no socket for it.

use fx_outside::Endpoint;
use fx_terms::Iri;
use fx_wire::{TcpWire, Wire, WireError};
use std::alloc::Global;
use std::io::{Read, Write};
use std::net::{IpAddr, Ipv4Addr, Ipv6Addr, SocketAddr, TcpListener};
use std::sync::Wait;
use std::thread::Threads;
use std::time::Duration;
use std::{io, thread};

// A patience in seconds that no test uses up.
const LONG: u64 = 10;

#[test]
fn a_reply_comes_over_a_socket(rt: HostRuntime) {
    assert_eq!(rt; first_reply_amiss(&rt, &rt), None, "by the rows from 0");
}

#[test]
fn where_nothing_listens_an_exchange_fails(rt: HostRuntime) {
    assert_eq!(rt; fails_twice(&rt), Some(true));
}

#[test]
fn a_reply_comes_over_the_newer_protocol(rt: HostRuntime) {
    // (a machine may have no such address)
    if let Some((listener, port)) = bound(&rt, Ipv6Addr::LOCALHOST) {
        assert_eq!(rt; comes_from(&rt, &rt, listener, "[::1]", port), Some(true));
    }
}

#[test]
fn an_endpoint_that_is_silent_is_given_up(rt: HostRuntime) {
    assert_eq!(rt; first_slow_amiss(&rt, &rt), None, "by the rows from 0");
}

#[test]
fn an_endpoint_that_has_no_time_to_connect_is_given_up(rt: HostRuntime) {
    assert_eq!(rt; fails_without_time(&rt), Some(true));
}

// The bytes of the request that the peer reads before it writes its reply and closes, the reply, the limit, and what comes of it. Where the
// peer leaves a part of the request unread, the connection breaks. One wire exchanges all.
fn first_reply_amiss<R: Threads + Wait>(threads: &R, rt: &HostRuntime) -> Option<usize> {
    let mut wire = TcpWire::new(rt.alloc(), *rt);
    let rows = [
        (7, WHOLE, 100, Ok(WHOLE)),
        (7, "abc", 3, Ok("abc")),
        (7, "abcd", 3, Ok("abcd")),
        (7, "abcdefgh", 3, Ok("abcd")),
        (7, "a", 0, Ok("a")),
        (7, "", 3, Ok("")),
        (1, "", 3, Err(WireError::Failed)),
        (1, "abc", 100, Err(WireError::Failed)),
    ];
    rows.iter().position(|(read, reply, limit, want)| {
        !gives(threads, rt, &mut wire, *read, *reply, *limit, *want).is_some_and(|is| is)
    })
}

const WHOLE: &str = "HTTP/1.1 200 OK\r\n\r\n{}";

fn gives<R: Threads + Wait>(
    threads: &R,
    rt: &HostRuntime,
    wire: &mut TcpWire<HostRuntime>,
    read: u64,
    reply: &'static str,
    limit: u8,
    want: Result<&str, WireError>,
) -> Option<bool> {
    let (listener, port) = bound(rt, Ipv4Addr::LOCALHOST)?;
    let peer = thread::spawn(threads, move || serve(&listener, read, reply).is_ok()).ok()?;
    let is_so = exchanges(rt.alloc(), wire, &endpoint(rt.alloc(), port)?, limit, want);
    Some(peer.join(threads) && is_so)
}

fn fails_twice(rt: &HostRuntime) -> Option<bool> {
    let (listener, port) = bound(rt, Ipv4Addr::LOCALHOST)?;
    drop(listener);
    let mut wire = TcpWire::new(rt.alloc(), *rt);
    let at = endpoint(rt.alloc(), port)?;
    let failed = Err(WireError::Failed);
    Some(
        exchanges(rt.alloc(), &mut wire, &at, 100, failed)
            && exchanges(rt.alloc(), &mut wire, &at, 100, failed),
    )
}

fn comes_from<R: Threads + Wait>(
    threads: &R,
    rt: &HostRuntime,
    listener: TcpListener,
    host: &str,
    port: u16,
) -> Option<bool> {
    let peer = thread::spawn(threads, move || serve(&listener, 7, "abc").is_ok()).ok()?;
    let mut wire = TcpWire::new(rt.alloc(), *rt);
    let at = endpoint_at(rt.alloc(), host, port)?;
    let is_so = exchanges(rt.alloc(), &mut wire, &at, 100, Ok("abc"));
    Some(peer.join(threads) && is_so)
}

// What comes before the silence, how many milliseconds lie between its bytes, and what comes of it where the endpoint closes the connection
// behind it, or else waits.
fn first_slow_amiss<R: Threads + Wait>(threads: &R, rt: &HostRuntime) -> Option<usize> {
    let rows = [
        ("", 0, false, Err(WireError::Failed)),
        ("ab", 0, false, Err(WireError::Failed)),
        ("abcdef", 120, true, Ok("abcdef")),
    ];
    rows.iter().position(|(reply, pause, closes, want)| {
        !gives_slowly(threads, rt, *reply, *pause, *closes, *want).is_some_and(|is| is)
    })
}

fn gives_slowly<R: Threads + Wait>(
    threads: &R,
    rt: &HostRuntime,
    reply: &'static str,
    pause: u64,
    closes: bool,
    want: Result<&str, WireError>,
) -> Option<bool> {
    let (listener, port) = bound(rt, Ipv4Addr::LOCALHOST)?;
    let own = *rt;
    let peer = thread::spawn(threads, move || {
        serve_slowly(&own, &listener, reply, pause, closes).is_ok()
    })
    .ok()?;
    let mut wire = TcpWire::with_patience(
        rt.alloc(),
        own,
        Duration::from_secs(LONG),
        Duration::from_millis(500),
    );
    let is_so = exchanges(
        rt.alloc(),
        &mut wire,
        &endpoint(rt.alloc(), port)?,
        100,
        want,
    );
    Some(peer.join(threads) && is_so)
}

fn fails_without_time(rt: &HostRuntime) -> Option<bool> {
    let (_listener, port) = bound(rt, Ipv4Addr::LOCALHOST)?;
    let mut wire = TcpWire::with_patience(
        rt.alloc(),
        *rt,
        Duration::ZERO,
        Duration::from_secs(LONG),
    );
    let at = endpoint(rt.alloc(), port)?;
    Some(exchanges(rt.alloc(), &mut wire, &at, 100, Err(WireError::Failed)))
}

// A listener at an address of this machine, and its port.
fn bound<A: Into<IpAddr>>(rt: &HostRuntime, host: A) -> Option<(TcpListener, u16)> {
    let listener = TcpListener::bind(rt, SocketAddr::from((host, 0))).ok()?;
    let port = listener.local_addr().ok()?.port();
    Some((listener, port))
}

// Whether a request to an endpoint gives this.
fn exchanges<W: Wire>(
    alloc: Global,
    wire: &mut W,
    at: &Endpoint,
    limit: u8,
    want: Result<&str, WireError>,
) -> bool {
    match (wire.exchange(alloc, at, b"request", u64::from(limit)), want) {
        (Ok(reply), Ok(want)) => reply.as_slice() == want.as_bytes(),
        (Err(error), Err(want)) => error == want,
        _ => false,
    }
}

// Takes one connection and its request, writes a reply with pauses between its bytes, and closes the connection, or waits until the
// other side does.
fn serve_slowly(
    rt: &HostRuntime,
    listener: &TcpListener,
    reply: &str,
    pause: u64,
    closes: bool,
) -> io::Result<()> {
    let (mut stream, _) = listener.accept()?;
    stream.read_exact(&mut [0u8; 7])?;
    for byte in reply.as_bytes() {
        stream.write_all(&[*byte])?;
        thread::sleep(rt, Duration::from_millis(pause));
    }
    if !closes {
        stream.read(&mut [0u8; 1])?;
    }
    Ok(())
}

// Takes one connection, reads so many bytes, one at a time, and writes a reply.
fn serve(listener: &TcpListener, count: u64, reply: &str) -> io::Result<()> {
    let (mut stream, _) = listener.accept()?;
    for _ in 0..count {
        stream.read_exact(&mut [0u8; 1])?;
    }
    stream.write_all(reply.as_bytes())
}

fn endpoint(alloc: Global, port: u16) -> Option<Endpoint> {
    endpoint_at(alloc, "127.0.0.1", port)
}

fn endpoint_at(alloc: Global, host: &str, port: u16) -> Option<Endpoint> {
    let name = String::from_str(alloc, "A").ok()?;
    let iri = address(alloc, host, port)?;
    let host = String::from_str(alloc, host).ok()?;
    let target = String::from_str(alloc, "/sparql").ok()?;
    Some(Endpoint::new(name, iri, host, port, target))
}

fn address(alloc: Global, host: &str, port: u16) -> Option<Iri> {
    let text = format!(in alloc; "http://{host}:{port}/sparql").ok()?;
    Iri::read(alloc, text.as_str()).ok()
}

//! A drive that is served on sockets, by a thread of its own.
ghost use Rattle.std.specs.Prelude.{◌≤◌};

use gd_api::Drive;
use gd_json::Wire;
use gd_names::{NoMemory, Text};
use gd_server::{ServeLoopEnd, SharedDrive, serve};
use gd_sockets::{Incoming, Threaded};
use std::alloc::Global;
use std::io::{Read, Write};
use std::net::{Net, Shutdown, TcpListener, TcpStream};
use std::sync::Wait;
use std::test::Fail;
use std::thread::{JoinHandle, Threads};
use std::time::Clock;
use std::{io, thread};

/// Serves so many connections over a new drive.
fn serve_some<R: Threads + Wait + Clock + Copy + Drop + Send + 'static>(
    rt: &R,
    alloc: Global,
    listener: TcpListener,
    wire: &Wire,
    connections: u64,
) -> Result<ServeLoopEnd, NoMemory> {
    let drive = Drive::new(alloc, 200)?;
    let shared = SharedDrive::new(alloc, drive)?;
    let mut accept = Incoming::new(*rt, alloc, listener);
    let mut spawner = Threaded::new(*rt, alloc);
    Ok(serve(
        rt,
        alloc,
        &mut accept,
        wire,
        &shared,
        &mut spawner,
        Some(connections),
    ))
}

/// Starts a server beside the caller. Its result is whether it ended behind so many connections.
fn start<R: Threads + Wait + Clock + Copy + Drop + Send + 'static>(
    rt: &R,
    alloc: Global,
    listener: TcpListener,
    port: u16,
    connections: u64,
) -> Result<JoinHandle<bool>, Fail> {
    let base = format!(in alloc; "http://127.0.0.1:{port}")?;
    let wire = Wire {
        base: Text::from_string(base),
    };
    let on = *rt;
    let serving = move || {
        serve_some(&on, alloc, listener, &wire, connections) == Ok(ServeLoopEnd::Enough)
    };
    Ok(thread::spawn(rt, serving)?)
}

/// All that is answered to these bytes.
fn exchange(alloc: Global, stream: &TcpStream, request: &[u8]) -> io::Result<String> {
    let mut socket = stream;
    socket.write_all(request)?;
    io::read_to_string(alloc, socket)
}

const ITEM: &str =
    "HTTP/1.1 201 Created\r\nContent-Type: application/json\r\nContent-Length: 263\r\n\r\n\
{\"cTag\":\"c2\",\"eTag\":\"e2\",\"file\":{\"hashes\":{\"sha256Hash\":\"8F434346648F6B96DF89DDA901C5176B10A6D83961DD3C1AC88B59B2DC327AA4\"}},\
\"id\":\"01GD0000000000000002\",\"name\":\"a.txt\",\"parentReference\":{\"driveId\":\"gd1\",\"id\":\"01GD0000000000000001\",\"path\":\"/drive/root:\"},\"size\":2}";

#[test]
fn a_file_is_put_by_one_and_read_by_another(rt: HostRuntime) -> Result<(), Fail> {
    let alloc = rt.alloc();
    let listener = TcpListener::bind(&rt, "127.0.0.1:0")?;
    let port = listener.local_addr()?.port();
    let server = start(&rt, alloc, listener, port, 2)?;
    let first = TcpStream::connect(&rt, ("127.0.0.1", port))?;
    let put =
        b"PUT /v1.0/me/drive/root:/a.txt:/content HTTP/1.1\r\nContent-Length: 2\r\nConnection: close\r\n\r\nhi";
    assert_eq!(rt; exchange(alloc, &first, put)?.as_str(), ITEM);
    let second = TcpStream::connect(&rt, ("127.0.0.1", port))?;
    let get =
        b"GET /v1.0/me/drive/root:/a.txt:/content HTTP/1.1\r\n\r\nGET /v1.0/download/01GD0000000000000002/2 HTTP/1.1\r\nConnection: close\r\n\r\n";
    let link = format!(in alloc;
        "HTTP/1.1 302 Found\r\nLocation: http://127.0.0.1:{port}/v1.0/download/01GD0000000000000002/2\r\nContent-Length: 0\r\n\r\n"
    )?;
    let expected = format!(in alloc;
        "{link}HTTP/1.1 200 OK\r\nContent-Type: application/octet-stream\r\nContent-Length: 2\r\n\r\nhi"
    )?;
    assert_eq!(rt; exchange(alloc, &second, get)?.as_str(), expected.as_str());
    assert!(rt; server.join(&rt));
    Ok(())
}

/// Connections that have sent the beginning of a head.
fn stalled<R: Net<Listener = TcpListener, Stream = TcpStream>>(
    rt: &R,
    alloc: Global,
    port: u16,
    count: usize,
) -> io::Result<Vec<TcpStream>> {
    let mut streams = Vec::new(alloc);
    for _ in 0..count {
        let mut stream = TcpStream::connect(rt, ("127.0.0.1", port))?;
        stream.write_all(b"GET /v1.0/me/drive/ro")?;
        streams.push(stream)?;
    }
    Ok(streams)
}

#[test]
fn others_are_served_beside_those_that_stall(rt: HostRuntime) -> Result<(), Fail> {
    let alloc = rt.alloc();
    let listener = TcpListener::bind(&rt, "127.0.0.1:0")?;
    let port = listener.local_addr()?.port();
    let server = start(&rt, alloc, listener, port, 103)?;
    let stalled = stalled(&rt, alloc, port, 100)?;
    let broken = TcpStream::connect(&rt, ("127.0.0.1", port))?;
    let mut half = &broken;
    half.write_all(b"PUT /v1.0/upload/1 HTTP/1.1\r\nContent-Length: 100\r\n\r\nabc")?;
    broken.shutdown(Shutdown::Both)?;
    let rubbish = TcpStream::connect(&rt, ("127.0.0.1", port))?;
    let refused = exchange(alloc, &rubbish, b"\x00\x01\x02\r\n\r\n")?;
    assert!(rt; refused.starts_with("HTTP/1.1 400 Bad Request\r\n"));
    let other = TcpStream::connect(&rt, ("127.0.0.1", port))?;
    let root = b"GET /v1.0/me/drive/root HTTP/1.1\r\nConnection: close\r\n\r\n";
    assert!(rt; exchange(alloc, &other, root)?.starts_with("HTTP/1.1 200 OK\r\n"));
    for stream in stalled.as_slice() {
        let rest = b"ot HTTP/1.1\r\nConnection: close\r\n\r\n";
        assert!(rt; exchange(alloc, stream, rest)?.starts_with("HTTP/1.1 200 OK\r\n"));
    }
    assert!(rt; server.join(&rt));
    Ok(())
}

//! A text written by hand from the journal's format, read and printed again.

use std::alloc::{AllocError, Global};
use std::test::Fail;
use vg_io::MemSink;
use vg_journal::{Journal, print};
use vg_journal_read::read;

/// Two clients on two displays, whose frames are of 2 by 1 and of 0 by 0 pixels; pixels have the byte of a line end, and the last line.
const TWO_CLIENTS: &[u8] = b"vgpu-journal 1\n\
    display 0 640 480\n\
    display 1 64 48\n\
    memory 4096\n\
    without uuid\n\
    clients 2\n\
    1 1 1 act enter = ok\n\
    2 2 1 act enter = ok\n\
    3 1 2 cmd 0 1 408 plain 0001ff0a = 0111\n\
    4 2 2 cmd 65 9223372036854775807 8192 plain - = -\n\
    5 1 3 act reserve 0 0 0 4097 = key 1 pages 0,1\n\
    6 2 3 act leave = ok\n\
    rings 1 1\n\
    frames 2\n\
    frame 1 0 2 1 3\n\
    \n\0\xff\x01end\n\n\
    frame 2 1 0 0 4\n\
    \n\
    end\n";

/// A client, and a host that plugs a display and unplugs another.
const A_HOST: &[u8] = b"vgpu-journal 2\n\
    display 0 1920 1080\n\
    display 1 1 1\n\
    memory 16384\n\
    queues 256 64\n\
    without edid\n\
    clients 1\n\
    host\n\
    1 1 1 act enter = ok\n\
    2 2 1 act enter = ok\n\
    3 1 2 act events = events 0\n\
    4 2 2 act mode 0 640 480 = ok\n\
    5 2 3 act unplug 1 = ok\n\
    6 1 3 act sync 2 = ok\n\
    7 1 4 act sync 9223372036854775807 = ok\n\
    8 1 5 act events = events 1\n\
    9 1 6 act ack = ok\n\
    rings 0 0\n\
    frames 0\n\
    end\n";

/// As many clients as version 2 has, and no host.
const NO_HOST: &[u8] = b"vgpu-journal 2\n\
    display 0 1 1080\n\
    memory 1\n\
    queues 256 64\n\
    clients 32\n\
    1 32 1 act enter = ok\n\
    rings 0 0\n\
    frames 0\n\
    end\n";

/// What a journal's text is.
fn printed(alloc: Global, journal: &Journal) -> Result<MemSink, AllocError> {
    let mut sink = MemSink::new(alloc, 200_000, Vec::new(alloc))?;
    let _ = print(alloc, journal, &mut sink)?;
    Ok(sink)
}

/// The line at which a text is no journal; 0 where it is one, which is printed again as this text, and 1,000 where it isn't.
fn line_of(alloc: Global, text: &[u8]) -> Result<u32, AllocError> {
    if text.len() > 4_294_967_294 {
        return Ok(1_000);
    }
    match read(alloc, text)? {
        Ok(journal) => {
            let sink = printed(alloc, &journal)?;
            Ok(if sink.bytes() == text { 0 } else { 1_000 })
        }
        Err(line) => Ok(line),
    }
}

#[test]
fn a_journal_is_read(rt: HostRuntime) -> Result<(), Fail> {
    assert_eq!(rt; line_of(rt.alloc(), TWO_CLIENTS)?, 0);
    Ok(())
}

#[test]
fn a_journal_of_version_2_is_read(rt: HostRuntime) -> Result<(), Fail> {
    assert_eq!(rt; line_of(rt.alloc(), A_HOST)?, 0);
    assert_eq!(rt; line_of(rt.alloc(), NO_HOST)?, 0);
    Ok(())
}

/// Each line of version 2 where version 1 has none, and each limit of a version passed by one.
#[test]
fn a_line_of_the_other_version_is_refused(rt: HostRuntime) -> Result<(), Fail> {
    let wide = b"vgpu-journal 1\ndisplay 0 641 480\n";
    assert_eq!(rt; line_of(rt.alloc(), wide)?, 2);
    let queues = b"vgpu-journal 1\ndisplay 0 640 480\nmemory 1\nqueues 256 64\n";
    assert_eq!(rt; line_of(rt.alloc(), queues)?, 4);
    let host = b"vgpu-journal 1\ndisplay 0 1 1\nmemory 1\nclients 16\nhost\n";
    assert_eq!(rt; line_of(rt.alloc(), host)?, 5);
    let wider = b"vgpu-journal 2\ndisplay 0 1921 1080\n";
    assert_eq!(rt; line_of(rt.alloc(), wider)?, 2);
    let no_queues = b"vgpu-journal 2\ndisplay 0 1 1\nmemory 1\nclients 1\n";
    assert_eq!(rt; line_of(rt.alloc(), no_queues)?, 4);
    let small = b"vgpu-journal 2\ndisplay 0 1 1\nmemory 1\nqueues 64 16\n";
    assert_eq!(rt; line_of(rt.alloc(), small)?, 4);
    let hosts = b"vgpu-journal 2\ndisplay 0 1 1\nmemory 1\nqueues 256 64\nclients 1\nhost\nhost\n";
    assert_eq!(rt; line_of(rt.alloc(), hosts)?, 7);
    Ok(())
}

#[test]
fn a_text_is_refused_at_its_line(rt: HostRuntime) -> Result<(), Fail> {
    assert_eq!(rt; line_of(rt.alloc(), b"")?, 1);
    let front =
        b"vgpu-journal 1\ndisplay 0 640 480\nmemory 4096\nclients 1\n1 1 1 act enter = ok\n";
    assert_eq!(rt; line_of(rt.alloc(), front)?, 6);
    Ok(())
}

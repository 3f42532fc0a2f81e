//! Requests laid out by hand from VIRTIO 1.2, 5.7.6.7 to 5.7.6.10. A field's bytes are one more than their places, so that
//! all fields differ.

use std::alloc::{AllocError, Global};
use std::process::Abort;
use std::test::Fail;
use vg_wire::Queue;
use vg_wire_ext::{read_request, write_request};

/// A request's kind, how many bytes stand behind its header, which words stand among them in place of the bytes of their
/// places, what is read, and where four bytes of padding stand.
type Row = (
    u16,
    u8,
    &'static [(usize, u32)],
    &'static str,
    &'static [usize],
);

/// What stands in the header behind the kind's low bytes.
const HEADER: [u8; 22] = [
    0, 0, 3, 0, 0, 0, 0x88, 0x87, 0x86, 0x85, 0x84, 0x83, 0x82, 0x81, 0x94, 0x93, 0x92, 0x91, 63,
    0, 0, 0,
];

/// A header of this kind, and these bytes.
pub(crate) fn header_and(alloc: Global, kind: u16, fields: &[u8]) -> Result<Vec<u8>, AllocError> {
    let mut bytes = kind.to_le_bytes().as_slice().to_vec(alloc)?;
    bytes.extend_from_slice(&HEADER)?;
    bytes.extend_from_slice(fields)?;
    Ok(bytes)
}

/// Puts a word at its place behind the header.
pub(crate) fn put_word(bytes: &mut [u8], at: usize, word: u32) {
    let from = at.saturating_add(24);
    if let Some(place) = bytes.get_mut(from..from.saturating_add(4)) {
        place.copy_from_slice(&word.to_le_bytes());
    }
}

/// A request's bytes, with padding that isn't 0.
fn bytes_of(alloc: Global, row: &Row) -> Result<Vec<u8>, AllocError> {
    let (kind, count, words, _, _) = *row;
    let mut fields = Vec::new(alloc);
    for place in 0..count {
        fields.push(place + 1)?;
    }
    let mut bytes = header_and(alloc, kind, fields.as_slice())?;
    for (at, word) in words {
        put_word(bytes.as_mut_slice(), *at, *word);
    }
    Ok(bytes)
}

/// What is read, in words.
fn told(alloc: Global, bytes: &[u8], queue: Queue) -> Result<String, AllocError> {
    match read_request(alloc, bytes, queue)? {
        Ok((_, command)) => format!(in alloc; "{command:?}"),
        Err(malformed) => format!(in alloc; "{malformed:?}"),
    }
}

/// A request that is read, and written again, or nothing where nothing is read.
fn again(alloc: Global, bytes: &[u8], queue: Queue) -> Result<Vec<u8>, AllocError> {
    match read_request(alloc, bytes, queue)? {
        Ok((header, command)) if header.kind == command.kind() => {
            write_request(alloc, &header, &command)
        }
        _ => Ok(Vec::new(alloc)),
    }
}

/// Whether these bytes were written, in one allocation of their size.
pub(crate) fn is_written(written: &Vec<u8>, bytes: &[u8]) -> bool {
    written.as_slice() == bytes && written.capacity() == written.len()
}

/// Reads a request.
fn check_read(rt: &impl Abort, alloc: Global, queue: Queue, row: &Row) -> Result<(), AllocError> {
    let bytes = bytes_of(alloc, row)?;
    let told = told(alloc, bytes.as_slice(), queue)?;
    assert!(rt; told.as_str() == row.3, "{told}");
    Ok(())
}

/// Writes a request, whose padding is 0.
fn check_written(
    rt: &impl Abort,
    alloc: Global,
    queue: Queue,
    row: &Row,
) -> Result<(), AllocError> {
    let mut bytes = bytes_of(alloc, row)?;
    for at in row.4 {
        put_word(bytes.as_mut_slice(), *at, 0);
    }
    let written = again(alloc, bytes.as_slice(), queue)?;
    assert!(rt; is_written(&written, bytes.as_slice()), "{}", row.3);
    Ok(())
}

fn check_all(rt: &impl Abort, alloc: Global, queue: Queue, rows: &[Row]) -> Result<(), AllocError> {
    for row in rows {
        check_read(rt, alloc, queue, row)?;
        check_written(rt, alloc, queue, row)?;
    }
    Ok(())
}

fn check_refused(
    rt: &impl Abort,
    alloc: Global,
    queue: Queue,
    rows: &[Row],
) -> Result<(), AllocError> {
    for row in rows {
        check_read(rt, alloc, queue, row)?;
    }
    Ok(())
}

static CONTROL: [Row; 22] = [
    (0x0100, 0, &[], "TwoD(DisplayInfo)", &[]),
    (
        0x0101,
        16,
        &[],
        "TwoD(Create2d { resource: 67305985, format: 134678021, width: 202050057, height: 269422093 })",
        &[],
    ),
    (0x0102, 8, &[], "TwoD(Unref { resource: 67305985 })", &[4]),
    (
        0x0103,
        24,
        &[],
        "TwoD(SetScanout { rect: Rect { x: 67305985, y: 134678021, width: 202050057, height: 269422093 }, scanout: 336794129, resource: 404166165 })",
        &[],
    ),
    (
        0x0104,
        24,
        &[],
        "TwoD(Flush { rect: Rect { x: 67305985, y: 134678021, width: 202050057, height: 269422093 }, resource: 336794129 })",
        &[20],
    ),
    (
        0x0105,
        32,
        &[],
        "TwoD(Transfer { rect: Rect { x: 67305985, y: 134678021, width: 202050057, height: 269422093 }, offset: 1735880461161533969, resource: 471538201 })",
        &[28],
    ),
    (
        0x0106,
        8,
        &[(4, 0)],
        "TwoD(Attach { resource: 67305985, entries: Seq { elements: [] } })",
        &[],
    ),
    (
        0x0106,
        56,
        &[(4, 3)],
        "TwoD(Attach { resource: 67305985, entries: Seq { elements: [MemEntry { addr: 1157159078456920585, length: 336794129 }, MemEntry { addr: 2314601843866147353, length: 606282273 }, MemEntry { addr: 3472044609275374121, length: 875770417 }] } })",
        &[20, 36, 52],
    ),
    (0x0107, 8, &[], "TwoD(Detach { resource: 67305985 })", &[4]),
    (0x0108, 8, &[], "CapsetInfo { index: 67305985 }", &[4]),
    (
        0x0109,
        8,
        &[],
        "Capset { id: 67305985, version: 134678021 }",
        &[],
    ),
    (0x010a, 8, &[], "Edid { scanout: 67305985 }", &[4]),
    (0x010b, 8, &[], "AssignUuid { resource: 67305985 }", &[4]),
    (
        0x010c,
        32,
        &[(12, 0)],
        "CreateBlob { resource: 67305985, mem: 134678021, flags: 202050057, blob_id: 1735880461161533969, size: 2314601843866147353, entries: Seq { elements: [] } }",
        &[],
    ),
    (
        0x010c,
        80,
        &[(12, 3)],
        "CreateBlob { resource: 67305985, mem: 134678021, flags: 202050057, blob_id: 1735880461161533969, size: 2314601843866147353, entries: Seq { elements: [MemEntry { addr: 2893323226570760737, length: 741026345 }, MemEntry { addr: 4050765991979987505, length: 1010514489 }, MemEntry { addr: 5208208757389214273, length: 1280002633 }] } }",
        &[44, 60, 76],
    ),
    (
        0x010d,
        72,
        &[],
        "SetScanoutBlob { rect: Rect { x: 67305985, y: 134678021, width: 202050057, height: 269422093 }, scanout: 336794129, resource: 404166165, width: 471538201, height: 538910237, format: 606282273, stride: 741026345, offset: 1010514489 }",
        &[36, 44, 48, 52, 60, 64, 68],
    ),
    (
        0x0200,
        72,
        &[],
        "CtxCreate { nlen: 67305985, context_init: 134678021, name: [9, 10, 11, 12, 13, 14, 15, 16, 17, 18, 19, 20, 21, 22, 23, 24, 25, 26, 27, 28, 29, 30, 31, 32, 33, 34, 35, 36, 37, 38, 39, 40, 41, 42, 43, 44, 45, 46, 47, 48, 49, 50, 51, 52, 53, 54, 55, 56, 57, 58, 59, 60, 61, 62, 63, 64, 65, 66, 67, 68, 69, 70, 71, 72] }",
        &[],
    ),
    (0x0201, 0, &[], "CtxDestroy", &[]),
    (0x0202, 8, &[], "CtxAttach { resource: 67305985 }", &[4]),
    (0x0203, 8, &[], "CtxDetach { resource: 67305985 }", &[4]),
    (
        0x0207,
        8,
        &[(0, 0)],
        "Submit { stream: Seq { elements: [] } }",
        &[4],
    ),
    (
        0x0207,
        13,
        &[(0, 5)],
        "Submit { stream: Seq { elements: [9, 10, 11, 12, 13] } }",
        &[4],
    ),
];

/// Cursors may stand left of the screen and above it.
static CURSOR: [Row; 6] = [
    (
        0x0300,
        32,
        &[],
        "UpdateCursor { scanout: 67305985, x: 134678021, y: 202050057, resource: 336794129, hot_x: 404166165, hot_y: 471538201 }",
        &[12, 28],
    ),
    (
        0x0301,
        32,
        &[],
        "MoveCursor { scanout: 67305985, x: 134678021, y: 202050057 }",
        &[12, 16, 20, 24, 28],
    ),
    (
        0x0301,
        32,
        &[(4, 0), (8, 0xffff_ffff)],
        "MoveCursor { scanout: 67305985, x: 0, y: -1 }",
        &[12, 16, 20, 24, 28],
    ),
    (
        0x0301,
        32,
        &[(4, 0xffff_fffe), (8, 1)],
        "MoveCursor { scanout: 67305985, x: -2, y: 1 }",
        &[12, 16, 20, 24, 28],
    ),
    (
        0x0301,
        32,
        &[(4, 0x7fff_ffff), (8, 0x8000_0000)],
        "MoveCursor { scanout: 67305985, x: 2147483647, y: -2147483648 }",
        &[12, 16, 20, 24, 28],
    ),
    (
        0x0301,
        32,
        &[(4, 0x8000_0000), (8, 0x7fff_ffff)],
        "MoveCursor { scanout: 67305985, x: -2147483648, y: 2147483647 }",
        &[12, 16, 20, 24, 28],
    ),
];

#[test]
fn requests_have_their_fields_at_their_places(rt: HostRuntime) -> Result<(), Fail> {
    check_all(&rt, rt.alloc(), Queue::Control, &CONTROL)?;
    check_all(&rt, rt.alloc(), Queue::Cursor, &CURSOR)?;
    Ok(())
}

/// Kinds of no command.
static UNKNOWN: [Row; 12] = [
    (0x0000, 0, &[], "UnknownKind { kind: 0 }", &[]),
    (0x00ff, 0, &[], "UnknownKind { kind: 255 }", &[]),
    (0x010e, 0, &[], "UnknownKind { kind: 270 }", &[]),
    (0x01ff, 0, &[], "UnknownKind { kind: 511 }", &[]),
    (0x0204, 0, &[], "UnknownKind { kind: 516 }", &[]),
    (0x0205, 0, &[], "UnknownKind { kind: 517 }", &[]),
    (0x0206, 0, &[], "UnknownKind { kind: 518 }", &[]),
    (0x0208, 0, &[], "UnknownKind { kind: 520 }", &[]),
    (0x02ff, 0, &[], "UnknownKind { kind: 767 }", &[]),
    (0x0302, 0, &[], "UnknownKind { kind: 770 }", &[]),
    (0x1100, 0, &[], "UnknownKind { kind: 4352 }", &[]),
    (0xffff, 0, &[], "UnknownKind { kind: 65535 }", &[]),
];

/// Requests of the other queue, and requests less their last byte.
static REFUSED: [Row; 8] = [
    (0x0300, 0, &[], "WrongQueue", &[]),
    (0x0301, 32, &[], "WrongQueue", &[]),
    (0x0101, 15, &[], "ShortBody", &[]),
    (0x0106, 23, &[(4, 1)], "ShortBody", &[]),
    (0x0106, 24, &[(4, 0x1000_0001)], "ShortBody", &[]),
    (0x0200, 71, &[], "ShortBody", &[]),
    (0x0207, 12, &[(0, 5)], "ShortBody", &[]),
    (0x0207, 8, &[(0, 0xffff_ffff)], "ShortBody", &[]),
];

#[test]
fn other_requests_are_refused(rt: HostRuntime) -> Result<(), Fail> {
    check_refused(&rt, rt.alloc(), Queue::Control, &UNKNOWN)?;
    check_refused(&rt, rt.alloc(), Queue::Cursor, &UNKNOWN)?;
    check_refused(&rt, rt.alloc(), Queue::Control, &REFUSED)?;
    Ok(())
}

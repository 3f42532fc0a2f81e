//! Responses laid out by hand from VIRTIO 1.2, 5.7.6.7 to 5.7.6.9.

use super::requests::{header_and, is_written, put_word};
use std::alloc::{AllocError, Global};
use std::process::Abort;
use std::test::Fail;
use vg_wire_ext::{read_response, write_response};

/// A word at its place behind a header.
type Word = (usize, u32);

/// A response's kind, how many bytes stand behind its header, which of their words aren't 0, and the beginning of what is read.
type Row = (u16, usize, &'static [Word], &'static str);

fn bytes_of(alloc: Global, kind: u16, count: usize, words: &[Word]) -> Result<Vec<u8>, AllocError> {
    let zeros = vec![in alloc; 0u8; count]?;
    let mut bytes = header_and(alloc, kind, zeros.as_slice())?;
    for (at, word) in words {
        put_word(bytes.as_mut_slice(), *at, *word);
    }
    Ok(bytes)
}

/// What is read, in words.
fn told(alloc: Global, bytes: &[u8]) -> Result<String, AllocError> {
    match read_response(alloc, bytes)? {
        Some((_, response)) => format!(in alloc; "{response:?}"),
        None => String::from_str(alloc, "None"),
    }
}

/// A response that is read, and written again, or nothing where nothing is read.
fn again(alloc: Global, bytes: &[u8]) -> Result<Vec<u8>, AllocError> {
    match read_response(alloc, bytes)? {
        Some((header, response)) if header.kind == response.kind() => {
            write_response(alloc, &header, &response)
        }
        _ => Ok(Vec::new(alloc)),
    }
}

/// Whether a response is read.
fn is_read(alloc: Global, bytes: &[u8]) -> Result<bool, AllocError> {
    Ok(read_response(alloc, bytes)?.is_some())
}

/// Reads a response, and writes it again in one allocation of its size.
fn check_row(rt: &impl Abort, alloc: Global, row: &Row) -> Result<(), AllocError> {
    let (kind, count, words, text) = *row;
    let bytes = bytes_of(alloc, kind, count, words)?;
    let told = told(alloc, bytes.as_slice())?;
    assert!(rt; told.starts_with(text), "{told} and not {text}");
    let written = again(alloc, bytes.as_slice())?;
    assert!(rt; is_written(&written, bytes.as_slice()), "{text}");
    Ok(())
}

/// Bytes that are a response.
static GOOD: [Row; 15] = [
    (0x1100, 0, &[], "Nodata"),
    (0x1200, 0, &[], "Error { code: 4608 }"),
    (0x1201, 0, &[], "Error { code: 4609 }"),
    (0x1202, 0, &[], "Error { code: 4610 }"),
    (0x1203, 0, &[], "Error { code: 4611 }"),
    (0x1204, 0, &[], "Error { code: 4612 }"),
    (0x1205, 0, &[], "Error { code: 4613 }"),
    (
        0x1101,
        384,
        &[],
        "DisplayInfo { modes: Modes { items: [] } }",
    ),
    (
        0x1101,
        384,
        &[(8, 0x0000_0201), (12, 0x0000_0403), (16, 1)],
        "DisplayInfo { modes: Modes { items: [Some((513, 1027))] } }",
    ),
    (
        0x1101,
        384,
        &[
            (8, 0x0000_0201),
            (12, 0x0000_0403),
            (16, 1),
            (56, 0x0000_0605),
            (60, 0x0000_0807),
            (64, 1),
        ],
        "DisplayInfo { modes: Modes { items: [Some((513, 1027)), None, Some((1541, 2055))] } }",
    ),
    (
        0x1102,
        16,
        &[(0, 63), (4, 1), (8, 16)],
        "CapsetInfo { capset_id: 63, max_version: 1, max_size: 16 }",
    ),
    (0x1103, 0, &[], "Capset { data: Seq { elements: [] } }"),
    (
        0x1103,
        16,
        &[
            (0, 0x0403_0201),
            (4, 0x0807_0605),
            (8, 0x0c0b_0a09),
            (12, 0x100f_0e0d),
        ],
        "Capset { data: Seq { elements: [1, 2, 3, 4, 5, 6, 7, 8, 9, 10, 11, 12, 13, 14, 15, 16] } }",
    ),
    (
        0x1104,
        1032,
        &[(0, 128), (8, 0x0403_0201), (132, 0x807f_7e7d)],
        "Edid { block: [1, 2, 3, 4, 0, 0,",
    ),
    (
        0x1105,
        16,
        &[
            (0, 0x0403_0201),
            (4, 0x0807_0605),
            (8, 0x0c0b_0a09),
            (12, 0x100f_0e0d),
        ],
        "Uuid { bytes: [1, 2, 3, 4, 5, 6, 7, 8, 9, 10, 11, 12, 13, 14, 15, 16] }",
    ),
];

#[test]
fn responses_have_their_fields_at_their_places(rt: HostRuntime) -> Result<(), Fail> {
    for row in &GOOD {
        check_row(&rt, rt.alloc(), row)?;
    }
    Ok(())
}

type Bad = (u16, usize, &'static [Word]);

/// Bytes that are none: other kinds, another length, padding that isn't zeros, a mode that is neither enabled nor zeros, another size of an EDID, and
/// bytes behind its block.
static BAD: [Bad; 28] = [
    (0x10ff, 0, &[]),
    (0x1101, 0, &[]),
    (0x1102, 0, &[]),
    (0x1102, 15, &[]),
    (0x1102, 17, &[]),
    (0x1102, 16, &[(12, 1)]),
    (0x11ff, 0, &[]),
    (0x1206, 0, &[]),
    (0x1100, 1, &[]),
    (0x1200, 1, &[]),
    (0x1101, 383, &[]),
    (0x1101, 385, &[]),
    (0x1101, 384, &[(0, 1), (8, 1), (12, 1), (16, 1)]),
    (0x1101, 384, &[(4, 1), (8, 1), (12, 1), (16, 1)]),
    (0x1101, 384, &[(8, 1), (12, 1), (16, 2)]),
    (0x1101, 384, &[(8, 1), (12, 1)]),
    (0x1101, 384, &[(8, 1), (12, 1), (16, 0x0000_0101)]),
    (0x1101, 384, &[(8, 1), (12, 1), (16, 1), (20, 1)]),
    (0x1101, 384, &[(8, 1)]),
    (0x1104, 1031, &[(0, 128)]),
    (0x1104, 1033, &[(0, 128)]),
    (0x1104, 1032, &[(0, 127)]),
    (0x1104, 1032, &[(0, 0x0000_0180)]),
    (0x1104, 1032, &[(0, 128), (4, 1)]),
    (0x1104, 1032, &[(0, 128), (4, 0x0100_0000)]),
    (0x1104, 1032, &[(0, 128), (136, 1)]),
    (0x1105, 15, &[]),
    (0x1105, 17, &[]),
];

fn check_bad(rt: &impl Abort, alloc: Global, row: &Bad) -> Result<(), AllocError> {
    let (kind, count, words) = *row;
    let bytes = bytes_of(alloc, kind, count, words)?;
    assert!(rt; !is_read(alloc, bytes.as_slice())?, "{kind:#x} {count}");
    Ok(())
}

#[test]
fn other_bytes_are_no_response(rt: HostRuntime) -> Result<(), Fail> {
    for row in &BAD {
        check_bad(&rt, rt.alloc(), row)?;
    }
    Ok(())
}

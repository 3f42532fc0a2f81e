//! Walks of chains laid out by hand, and the descriptors of each shape, in the split form (VIRTIO 1.2, 2.7.5).

ghost use Rattle.std.specs.Prelude.{◌≡◌};
ghost use Rattle.vg_chain.specs.declared.form.Form.TheVariants.{Split};
ghost use Rattle.vg_chain.specs.Made.{IsCount};

use std::alloc::{AllocError, Global};
use std::process::Abort;
use std::test::Fail;
use vg_chain::{Chain, ChainFault, Descriptor, Extent, Form, Parts, Shape, walk};

pub(crate) const BASE: u64 = 0x1_0000_0000_0000;

pub(crate) const ROOM: u64 = BASE + 49152;

pub(crate) const TABLES: u64 = BASE + 57344;

/// An address, a length, flags, and the next descriptor's place.
pub(crate) type Row = (u64, u32, u16, u16);

/// The first descriptors of a ring of four and of a table of two, the head, and the fault's number or 0.
type Case = (&'static [Row], &'static [Row], u16, u8);

const NONE: Row = (0, 0, 0, 0);

const READ: Row = (BASE, 24, 0, 0);

const WRITE: Row = (ROOM, 8, 2, 0);

static CASES: [Case; 27] = [
    // whole chains: one part, two parts, a table of one, a table of two after a part
    (&[NONE, READ], &[], 1, 0),
    (&[(BASE, 8, 1, 2), NONE, WRITE], &[], 0, 0),
    (&[(TABLES, 16, 4, 0)], &[READ], 0, 0),
    (
        &[(BASE, 8, 1, 3), NONE, NONE, (TABLES, 32, 6, 9)],
        &[(BASE, 8, 1, 1), WRITE],
        0,
        0,
    ),
    // no bytes at a part's end, and one past it
    (&[(BASE + 24, 0, 1, 1), (ROOM + 8, 0, 2, 0)], &[], 0, 0),
    (&[(BASE + 25, 0, 0, 0)], &[], 0, 7),
    // the last byte that there is
    (&[(0xffff_ffff_ffff_ffff, 0xffff_ffff, 0, 0)], &[], 0, 7),
    (&[(0xffff_ffff_ffff_ffff, 2, 2, 0)], &[], 0, 7),
    // each fault alone
    (&[], &[], 4, 1),
    (&[(BASE, 8, 1, 4)], &[], 0, 1),
    (&[(TABLES, 16, 4, 0)], &[(BASE, 8, 1, 1), READ], 0, 1),
    (&[(BASE, 8, 1, 1), (BASE, 8, 1, 0)], &[], 0, 2),
    (
        &[(TABLES, 32, 4, 0)],
        &[(BASE, 8, 1, 1), (BASE, 8, 1, 1)],
        0,
        2,
    ),
    (&[(TABLES, 16, 4, 0)], &[(TABLES, 16, 4, 0)], 0, 3),
    (&[(TABLES, 16, 5, 1), READ], &[READ], 0, 4),
    (&[(TABLES, 24, 4, 0)], &[READ], 0, 5),
    (&[(ROOM, 8, 3, 1), READ], &[], 0, 6),
    (&[(BASE, 25, 0, 0)], &[], 0, 7),
    (&[(TABLES + 1, 32, 4, 0)], &[READ], 0, 7),
    // each two faults that one visit can have
    (&[(BASE, 8, 1, 1), (ROOM, 8, 3, 0)], &[], 0, 2),
    (&[(TABLES, 16, 4, 0)], &[(TABLES, 16, 5, 0)], 0, 3),
    (&[(TABLES, 16, 4, 0)], &[(TABLES, 0, 4, 0)], 0, 3),
    (&[(TABLES, 16, 4, 0)], &[(BASE, 16, 4, 0)], 0, 3),
    (&[(TABLES, 0, 5, 1)], &[], 0, 4),
    (&[(BASE, 16, 5, 1)], &[], 0, 4),
    (&[(BASE, 80, 4, 0)], &[], 0, 5),
    (&[(ROOM, 8, 3, 1), (ROOM, 9, 0, 0)], &[], 0, 6),
];

/// The row's descriptor, or one of no bytes.
pub(crate) fn descriptor_of(row: Option<&Row>) -> Descriptor {
    let (addr, len, flags, next) = row.copied().unwrap_or(NONE);
    Descriptor {
        addr,
        len,
        flags,
        next,
    }
}

fn put(out: &mut Vec<u8>, descriptor: Descriptor) -> Result<(), AllocError> {
    out.extend_from_slice(&descriptor.addr.to_le_bytes())?;
    out.extend_from_slice(&descriptor.len.to_le_bytes())?;
    out.extend_from_slice(&descriptor.flags.to_le_bytes())?;
    out.extend_from_slice(&descriptor.next.to_le_bytes())
}

/// The fault's number, or 0.
pub(crate) fn number_of(walked: &Result<Chain, ChainFault>) -> u8 {
    match walked {
        Ok(_) => 0,
        Err(ChainFault::Index) => 1,
        Err(ChainFault::Loop) => 2,
        Err(ChainFault::Nested) => 3,
        Err(ChainFault::NextWithIndirect) => 4,
        Err(ChainFault::TableLength) => 5,
        Err(ChainFault::Order) => 6,
        Err(ChainFault::Range) => 7,
    }
}

/// The parts of a request of 24 bytes and a room of 8, with these tables.
fn parts_with(tables: &[u8]) -> Parts<'_>
    ensures { result.form ≡ Split }
{
    Parts {
        form: Form::Split,
        base: BASE,
        request: 24,
        room: 8,
        tables,
    }
}

/// The fault's number or 0, and how many segments are read.
fn walked(
    alloc: Global,
    ring: &[Descriptor],
    head: u16,
    parts: &Parts,
) -> Result<(u8, usize), AllocError>
    requires { parts.now.form ≡ Split }
{
    let walked = walk(alloc, ring, head, parts)?;
    let segments = match &walked {
        Ok(chain) => chain.readable.len(),
        Err(_) => 0,
    };
    Ok((number_of(&walked), segments))
}

fn fault_of(alloc: Global, case: &Case) -> Result<u8, AllocError> {
    let (ring, table, head, _) = *case;
    let ring = [
        descriptor_of(ring.get(0)),
        descriptor_of(ring.get(1)),
        descriptor_of(ring.get(2)),
        descriptor_of(ring.get(3)),
    ];
    let mut tables = Vec::new(alloc);
    for place in 0..2 {
        put(&mut tables, descriptor_of(table.get(place)))?;
    }
    let (fault, _) = walked(alloc, &ring, head, &parts_with(tables.as_slice()))?;
    Ok(fault)
}

#[test]
fn walks_end_at_the_first_fault(rt: HostRuntime) -> Result<(), Fail> {
    for case in &CASES {
        assert!(rt; fault_of(rt.alloc(), case)? == case.3);
    }
    Ok(())
}

/// Rows that stand at these places of a ring of 64, the head, and the fault's number or 0 and how many segments are read. Elsewhere
/// each descriptor is of no bytes, and the one behind it is its next.
type Wide = (&'static [(u16, Row)], u16, u8, usize);

static WIDE: [Wide; 10] = [
    // all of them, the last without a next, with one past the ring, and with the first
    (&[(63, NONE)], 0, 0, 64),
    (&[], 0, 1, 0),
    (&[(63, (0, 0, 1, 0))], 0, 2, 0),
    // a head past the ring
    (&[], 64, 1, 0),
    // a table of 64 descriptors, of which the first is the last, and one of 65
    (&[(0, (57344, 1024, 4, 0))], 0, 0, 1),
    (&[(0, (57344, 1040, 4, 0))], 0, 5, 0),
    // an end that 64 bits take for 1
    (&[(0, (0xffff_ffff_ffff_ffff, 2, 0, 0))], 0, 7, 0),
    // all of the room, and a byte more
    (&[(0, (49152, 24, 2, 0))], 0, 0, 0),
    (&[(0, (49152, 25, 2, 0))], 0, 7, 0),
    // what is read behind what is written, a byte too long
    (&[(0, (49152, 24, 3, 1)), (1, (0, 25, 0, 0))], 0, 6, 0),
];

// A function of its own, so that no goal sees how many zeros there are.
fn zeros(alloc: Global, count: usize) -> Result<Vec<u8>, AllocError> {
    vec![in alloc; 0u8; count]
}

/// The row at this place.
fn row_at(rows: &[(u16, Row)], place: u16) -> Row {
    for (at, row) in rows {
        if *at == place {
            return *row;
        }
    }
    (0, 0, 1, place.wrapping_add(1))
}

/// The fault's number or 0, and how many segments are read, where parts begin at address 0 and tables are zeros.
fn wide(alloc: Global, case: &Wide) -> Result<(u8, usize), AllocError> {
    let (rows, head, _, _) = *case;
    let mut ring = Vec::new(alloc);
    for place in 0..64 {
        ring.push(descriptor_of(Some(&row_at(rows, place))))?;
    }
    let tables = zeros(alloc, 1040)?;
    let parts = Parts {
        form: Form::Split,
        base: 0,
        request: 24,
        room: 24,
        tables: tables.as_slice(),
    };
    walked(alloc, ring.as_slice(), head, &parts)
}

#[test]
fn hostile_chains_of_a_full_ring(rt: HostRuntime) -> Result<(), Fail> {
    for case in &WIDE {
        assert!(rt; wide(rt.alloc(), case)? == (case.2, case.3));
    }
    Ok(())
}

/// A table of so many descriptors, each of which is followed by the next one and refers to no byte.
fn table_of(alloc: Global, count: u16) -> Result<Vec<u8>, AllocError> {
    let mut tables = Vec::new(alloc);
    for place in 0..count {
        let more = if place + 1 < count { 1 } else { 0 };
        put(
            &mut tables,
            descriptor_of(Some(&(BASE, 0, more, place + 1))),
        )?;
    }
    Ok(tables)
}

/// How a queue of 64 is walked whose first descriptor refers to such a table.
fn long_table(alloc: Global, count: u16) -> Result<(u8, usize), AllocError> {
    let tables = table_of(alloc, count)?;
    let first = descriptor_of(Some(&(TABLES, 16 * u32::from(count), 4, 0)));
    let ring = [first; 64];
    walked(alloc, &ring, 0, &parts_with(tables.as_slice()))
}

/// How many descriptors a table has, and the fault's number and the segments that are read.
static LENGTHS: [(u16, u8, usize); 4] = [(0, 5, 0), (1, 0, 1), (64, 0, 64), (65, 5, 0)];

#[test]
fn a_table_has_as_many_descriptors_as_the_queue(rt: HostRuntime) -> Result<(), Fail> {
    for (count, fault, segments) in LENGTHS {
        assert!(rt; long_table(rt.alloc(), count)? == (fault, segments));
    }
    Ok(())
}

/// The shapes: plain, indirect, mixed, 2 to 8 pieces, and the seven bad ones.
fn shape_of(number: u8) -> Shape
    ensures { IsCount result }
{
    let fault = match number {
        0 => return Shape::Plain,
        1 => return Shape::Indirect,
        2 => return Shape::Mixed,
        3..=9 => return Shape::Pieces { n: number - 1 },
        10 => ChainFault::Index,
        11 => ChainFault::Loop,
        12 => ChainFault::Nested,
        13 => ChainFault::NextWithIndirect,
        14 => ChainFault::TableLength,
        15 => ChainFault::Order,
        _ => ChainFault::Range,
    };
    Shape::Bad { fault }
}

/// How many descriptors each shape needs for requests of 0, 1, 23, 24, 25, 4,832 and 49,152 bytes, each
/// with rooms of 0, 24 and 8,192 bytes.
static NEEDED: [[u16; 21]; 17] = [
    [
        1, 1, 1, 1, 2, 2, 1, 2, 2, 1, 2, 2, 1, 2, 2, 1, 2, 2, 1, 2, 2,
    ],
    [
        1, 1, 1, 1, 1, 1, 1, 1, 1, 1, 1, 1, 1, 1, 1, 1, 1, 1, 1, 1, 1,
    ],
    [
        1, 1, 1, 1, 2, 2, 1, 2, 2, 1, 2, 2, 2, 2, 2, 2, 2, 2, 2, 2, 2,
    ],
    [
        1, 1, 1, 1, 2, 2, 2, 3, 3, 2, 3, 3, 2, 3, 3, 2, 3, 3, 2, 3, 3,
    ],
    [
        1, 1, 1, 1, 2, 2, 3, 4, 4, 3, 4, 4, 3, 4, 4, 3, 4, 4, 3, 4, 4,
    ],
    [
        1, 1, 1, 1, 2, 2, 4, 5, 5, 4, 5, 5, 4, 5, 5, 4, 5, 5, 4, 5, 5,
    ],
    [
        1, 1, 1, 1, 2, 2, 5, 6, 6, 5, 6, 6, 5, 6, 6, 5, 6, 6, 5, 6, 6,
    ],
    [
        1, 1, 1, 1, 2, 2, 6, 7, 7, 6, 7, 7, 5, 6, 6, 6, 7, 7, 6, 7, 7,
    ],
    [
        1, 1, 1, 1, 2, 2, 6, 7, 7, 6, 7, 7, 7, 8, 8, 7, 8, 8, 7, 8, 8,
    ],
    [
        1, 1, 1, 1, 2, 2, 8, 9, 9, 8, 9, 9, 7, 8, 8, 8, 9, 9, 8, 9, 9,
    ],
    [
        1, 1, 1, 1, 1, 1, 1, 1, 1, 1, 1, 1, 1, 1, 1, 1, 1, 1, 1, 1, 1,
    ],
    [
        1, 1, 1, 1, 1, 1, 1, 1, 1, 1, 1, 1, 1, 1, 1, 1, 1, 1, 1, 1, 1,
    ],
    [
        1, 1, 1, 1, 1, 1, 1, 1, 1, 1, 1, 1, 1, 1, 1, 1, 1, 1, 1, 1, 1,
    ],
    [
        2, 2, 2, 2, 2, 2, 2, 2, 2, 2, 2, 2, 2, 2, 2, 2, 2, 2, 2, 2, 2,
    ],
    [
        1, 1, 1, 1, 1, 1, 1, 1, 1, 1, 1, 1, 1, 1, 1, 1, 1, 1, 1, 1, 1,
    ],
    [
        2, 2, 2, 2, 2, 2, 2, 2, 2, 2, 2, 2, 2, 2, 2, 2, 2, 2, 2, 2, 2,
    ],
    [
        1, 1, 1, 1, 1, 1, 1, 1, 1, 1, 1, 1, 1, 1, 1, 1, 1, 1, 1, 1, 1,
    ],
];

static REQUESTS: [u32; 7] = [0, 1, 23, 24, 25, 4832, 49152];

static ROOMS: [u32; 3] = [0, 24, 8192];

fn check_needed(rt: &impl Abort, number: u8, row: &[u16; 21]) {
    let mut at = 0;
    for request in REQUESTS {
        for room in ROOMS {
            let needed = shape_of(number).needed(request, room);
            assert!(rt; row.get(at).copied() == Some(needed), "shape {number}");
            at = at.wrapping_add(1);
        }
    }
}

#[test]
fn shapes_need_so_many_descriptors(rt: HostRuntime) {
    let mut number = 0u8;
    for row in &NEEDED {
        check_needed(&rt, number, row);
        number = number.wrapping_add(1);
    }
}

/// A table of the request's 24 bytes, and of the 8 bytes behind them that the device writes.
static TABLE: [u8; 32] = [
    0, 0, 0, 0, 0, 0, 1, 0, 24, 0, 0, 0, 1, 0, 1, 0, 0, 192, 0, 0, 0, 0, 1, 0, 8, 0, 0, 0, 2, 0, 0,
    0,
];

#[test]
fn a_table_is_its_descriptors_in_their_bytes(rt: HostRuntime) -> Result<(), Fail> {
    let extent = Extent {
        base: BASE,
        request: 24,
        room: 8,
    };
    let tables = Shape::Indirect.tables(rt.alloc(), Form::Split, &extent)?;
    assert!(rt; tables.as_slice() == TABLE.as_slice());
    Ok(())
}

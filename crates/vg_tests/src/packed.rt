//! Indirect tables of the packed form, laid out by hand (VIRTIO 1.2, 2.8 and 2.8.7), and walks of them. A descriptor is an address of
//! eight bytes, a length of four, an id of two and flags of two.

use crate::chain::{BASE, ROOM, Row, TABLES, descriptor_of, number_of};
use std::alloc::{AllocError, Global};
use std::test::Fail;
use vg_chain::{ChainFault, Extent, Form, Parts, Shape, walk};

/// A table of the request's 24 bytes, and of the 8 bytes of its room, which the device writes: WRITE is 2.
static TABLE: [u8; 32] = [
    0, 0, 0, 0, 0, 0, 1, 0, 24, 0, 0, 0, 0, 0, 0, 0, 0, 192, 0, 0, 0, 0, 1, 0, 8, 0, 0, 0, 0, 0, 2,
    0,
];

/// The same with ids, and with all flags but WRITE in the first, and all flags in the second.
static NOISY: [u8; 32] = [
    0, 0, 0, 0, 0, 0, 1, 0, 24, 0, 0, 0, 2, 1, 253, 255, 0, 192, 0, 0, 0, 0, 1, 0, 8, 0, 0, 0, 255,
    255, 255, 255,
];

/// The room in front of the request.
static SWAPPED: [u8; 32] = [
    0, 192, 0, 0, 0, 0, 1, 0, 8, 0, 0, 0, 0, 0, 2, 0, 0, 0, 0, 0, 0, 0, 1, 0, 24, 0, 0, 0, 0, 0, 0,
    0,
];

/// The ids of a table that the split form would read as flags, here WRITE in the first and INDIRECT in the second.
static IDS: [u8; 32] = [
    0, 0, 0, 0, 0, 0, 1, 0, 24, 0, 0, 0, 2, 0, 0, 0, 0, 192, 0, 0, 0, 0, 1, 0, 8, 0, 0, 0, 4, 0, 2,
    0,
];

/// One of the tables above.
enum Table {
    Plain,
    Noisy,
    Swapped,
    Ids,
}

/// The first descriptors of a ring of two, as they were linked, a table, the fault's number or 0, and how many segments are read
/// and written.
type Case = (&'static [Row], Table, u8, usize, usize);

static CASES: [Case; 15] = [
    // whole tables: ids and flags but WRITE don't count, and none refers to a table
    (&[(TABLES, 32, 4, 0)], Table::Plain, 0, 1, 1),
    (&[(TABLES, 32, 4, 0)], Table::Noisy, 0, 1, 1),
    (&[(TABLES, 32, 4, 0)], Table::Ids, 0, 1, 1),
    (&[(TABLES, 32, 6, 0)], Table::Noisy, 0, 1, 1),
    // the first descriptor alone, and the second
    (&[(TABLES, 16, 4, 0)], Table::Noisy, 0, 1, 0),
    (&[(TABLES + 16, 16, 4, 0)], Table::Noisy, 0, 0, 1),
    // no table at all
    (&[(BASE, 24, 1, 1), (ROOM, 8, 2, 0)], Table::Plain, 0, 1, 1),
    // a descriptor that refers to a table has no other one behind it, nor before it
    (
        &[(TABLES, 32, 5, 1), (BASE, 0, 0, 0)],
        Table::Plain,
        4,
        0,
        0,
    ),
    (
        &[(BASE, 8, 1, 1), (TABLES, 32, 4, 0)],
        Table::Plain,
        4,
        0,
        0,
    ),
    (
        &[(ROOM, 8, 3, 1), (TABLES, 32, 4, 0)],
        Table::Plain,
        4,
        0,
        0,
    ),
    // that comes before a bad length
    (&[(BASE, 8, 1, 1), (TABLES, 0, 4, 0)], Table::Plain, 4, 0, 0),
    // lengths of none, of no whole descriptor, and of more than the queue has
    (&[(TABLES, 0, 4, 0)], Table::Plain, 5, 0, 0),
    (&[(TABLES, 24, 4, 0)], Table::Plain, 5, 0, 0),
    (&[(TABLES, 48, 4, 0)], Table::Plain, 5, 0, 0),
    // what is read behind what is written
    (&[(TABLES, 32, 4, 0)], Table::Swapped, 6, 0, 0),
];

/// The fault's number or 0, and how many segments are read and written.
fn walked(alloc: Global, case: &Case) -> Result<(u8, usize, usize), AllocError> {
    let ring = [descriptor_of(case.0.get(0)), descriptor_of(case.0.get(1))];
    let table = match case.1 {
        Table::Plain => &TABLE,
        Table::Noisy => &NOISY,
        Table::Swapped => &SWAPPED,
        Table::Ids => &IDS,
    };
    let parts = Parts {
        form: Form::Packed,
        base: BASE,
        request: 24,
        room: 8,
        tables: table.as_slice(),
    };
    let walked = walk(alloc, &ring, 0, &parts)?;
    let (reads, writes) = match &walked {
        Ok(chain) => (chain.readable.len(), chain.writable.len()),
        Err(_) => (0, 0),
    };
    Ok((number_of(&walked), reads, writes))
}

#[test]
fn packed_tables_are_walked_by_place(rt: HostRuntime) -> Result<(), Fail> {
    for case in &CASES {
        assert!(rt; walked(rt.alloc(), case)? == (case.2, case.3, case.4));
    }
    Ok(())
}

/// Where a request of 24 bytes and a room of 8 lie.
static EXTENT: Extent = Extent {
    base: BASE,
    request: 24,
    room: 8,
};

#[test]
fn a_packed_table_is_its_descriptors_in_their_bytes(rt: HostRuntime) -> Result<(), Fail> {
    let tables = Shape::Indirect.tables(rt.alloc(), Form::Packed, &EXTENT)?;
    assert!(rt; tables.as_slice() == TABLE.as_slice());
    let next = Shape::Bad {
        fault: ChainFault::NextWithIndirect,
    };
    let tables = next.tables(rt.alloc(), Form::Packed, &EXTENT)?;
    assert!(rt; tables.as_slice() == TABLE.as_slice());
    let none = Shape::Plain.tables(rt.alloc(), Form::Packed, &EXTENT)?;
    assert!(rt; none.is_empty());
    Ok(())
}

#[test]
fn a_table_with_next_has_a_second_descriptor(rt: HostRuntime) {
    let next = Shape::Bad {
        fault: ChainFault::NextWithIndirect,
    };
    let first = descriptor_of(Some(&(TABLES, 32, 5, 7)));
    let second = descriptor_of(Some(&(BASE, 0, 0, 0)));
    assert!(rt; next.descriptor(&EXTENT, 16, 3, 0, 7) == Some(first));
    assert!(rt; next.descriptor(&EXTENT, 16, 3, 1, 9) == Some(second));
    assert!(rt; next.descriptor(&EXTENT, 16, 3, 2, 0).is_none());
}

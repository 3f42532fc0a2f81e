//! A ring as it is made, before its two ends have its name.

ghost use Rattle.std.specs.Prelude.{◌≡◌, length, replicate, IfOk};
ghost use Rattle.vg_ring.specs.Making.{IsSize, IsNewDriver, IsNewDevice};

use crate::device_end::DeviceEnd;
use crate::driver_end::DriverEnd;
use crate::naming::Naming;
use std::alloc::{AllocError, Global};
use std::marker::Model;
use std::sync::Arc;
use vg_cargo::Tag;
use vg_history::Tagged;
use vg_split::{Line, Pass, Places, make_line};
use vg_wire::Queue;

/// Makes rings.
pub enum Ring {}

/// A ring whose two ends have no name yet.
#[derive(Drop)]
pub struct Made<P: Tagged> {
    line: Arc<Line<P>>,
    other: Arc<Line<P>>,
    driver: Pass<P>,
    device: Pass<P>,
    queue: Queue,
    size: u16,
    places: Places,
    counts: Vec<u64>,
    tags: Vec<Tag>,
}

impl<P: Tagged> Model for Made<P> {
    ghost use Rattle.std.specs.Prelude.{◌≡◌};
    ghost use Rattle.vg_ring.specs.Making.{MadeData, IsMade};

    ghost Value = { MadeData };

    ghost view = { λ m. record { table = m.line.value.shared.table_id; queue = m.queue; size = m.size } };

    ghost invariant = { λ m. (m.other.value ≡ m.line.value) × IsMade m.line.value.shared.table_id m.line.value.shared.table_id m.other.value.shared.table_id m.driver.table_id m.device.table_id m.line.value.shared.key m.queue m.size m.driver.me m.device.me m.places.free.items m.places.links.items m.places.at m.counts.items m.tags.items };
}

/// A count of 0 for each lane.
fn no_counts(alloc: Global) -> Result<Vec<u64>, AllocError>
    ensures { IfOk result (λ counts. counts.items ≡ replicate 66 0) }
{
    vec![in alloc; 0u64; 66]
}

/// A tag for each head, which is none yet.
fn no_tags(alloc: Global, size: u16) -> Result<Vec<Tag>, AllocError>
    ensures { IfOk result (λ tags. length tags.items ≡ size) }
{
    let tag = Tag {
        lane: 0,
        ordinal: 0,
    };
    vec![in alloc; tag; size as usize]
}

impl Ring {
    /// A ring for this queue with so many descriptors, a power of two from 2 to 32,768.
    pub fn make<P: Tagged>(alloc: Global, queue: Queue, size: u16) -> Result<Made<P>, AllocError>
        requires { IsSize size }
        ensures { IfOk result (λ m. (m.queue ≡ queue) × (m.size ≡ size)) }
    {
        let places = Places::new(alloc, size)?;
        let counts = no_counts(alloc)?;
        let tags = no_tags(alloc, size)?;
        let (line, driver, device) = make_line::<P>(alloc, queue, size)?;
        let line = Arc::new(alloc, line)?;
        let other = Arc::try_clone(&line)?;
        Ok(Made {
            line,
            other,
            driver,
            device,
            queue,
            size,
            places,
            counts,
            tags,
        })
    }
}

impl<P: Tagged> Made<P> {
    /// The ring's two ends under its name.
    pub fn named<N: Naming>(self) -> (DriverEnd<P, N>, DeviceEnd<P, N>)
        requires { self.table ≡ N.ring }
        ensures driver { IsNewDriver self.queue self.size result.0 }
        ensures device { IsNewDevice self.queue self.size result.1 }
    {
        let Made {
            line,
            other,
            driver,
            device,
            queue,
            size,
            places,
            counts,
            tags,
        } = self;
        (
            DriverEnd::of(line, driver, queue, size, places, counts),
            DeviceEnd::of(other, device, size, tags),
        )
    }
}

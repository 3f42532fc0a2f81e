//! Sets of clients.

ghost use Rattle.std.specs.Prelude.{◌≡◌, ◌≤◌, IfOk};
ghost use Rattle.vg_drawn.specs.Words.{clients_in, has_client};

use std::alloc::{AllocError, Global};

/// The clients of a set, each once, rising. Bit c - 1 of it stands for client c, of 1 to 33.
pub fn clients_of(alloc: Global, set: u64) -> Result<Vec<u32>, AllocError>
    ensures { IfOk result (λ clients. clients.items ≡ clients_in set) }
{
    let mut clients = Vec::new(alloc);
    for before in 0..33u32 {
        if has_client(set, before + 1) {
            clients.push(before + 1)?;
        }
    }
    Ok(clients)
}

/// Whether the client is in the set.
fn has_client(set: u64, client: u32) -> bool
    requires some { 1 ≤ client }
    requires most { client ≤ 33 }
    ensures { result ≡ has_client set client }
{
    (set >> (client - 1)) & 1 == 1
}

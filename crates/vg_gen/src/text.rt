//! The text of a workload.

ghost use Rattle.std.specs.Prelude.{◌≡◌, ◌≤◌, ◌<◌, ◌++◌, ℕ, [], nat_lt, if◌then◌else◌, string_bytes, replicate, IfOk, OnOk};
ghost use Rattle.vg_script.specs.declared.types.Script.{Script};
ghost use Rattle.vg_script.specs.Grammar.{Parses};
ghost use Rattle.vg_gen.specs.Generated as lines;
ghost use Rattle.vg_gen.specs.Generated.{generated, text_of};

use crate::draws::draw;
use crate::laws::workloads_are_scripts;
use std::alloc::{AllocError, Global};
use vg_numbers::put_u32;

/// The script of a workload by its number, with 1 to 16 clients. Each has a display of 64 by 48 pixels, shows 20 pictures and moves a cursor ten
/// times; all but the first import a buffer of the client before, and all but the last wait for the next. What is drawn comes from the number.
#[tactic(auto, using(crate::proofs::TextLemmas::generated_is))]
pub fn generate(alloc: Global, number: u64, clients: u32) -> Result<String, AllocError>
    requires clients { (1 ≤ clients) × (clients ≤ 16) }
    ensures text { IfOk result (λ text. string_bytes text ≡ generated number clients) }
    ensures parses { IfOk result (λ text. (script : Script) × Parses (string_bytes text) script) }
{
    workloads_are_scripts();
    let mut text = String::new(alloc);
    put_displays(&mut text, clients)?;
    text.push_str("memory 4096\n")?;
    put_clients(alloc, &mut text, number, clients)?;
    Ok(text)
}

/// Adds a display for each client.
#[tactic(auto, using(crate::proofs::TextLemmas::displays_more))]
fn put_displays(text: &mut String, clients: u32) -> Result<(), AllocError>
    ensures { OnOk result (string_bytes text.new ≡ string_bytes text.old ++ text_of (replicate clients lines.display)) }
{
    for _display in 0..clients {
        text.push_str("display 64 48\n")?;
    }
    Ok(())
}

/// Adds the lines of each client.
#[tactic(auto, using(crate::proofs::TextLemmas::clients_more))]
fn put_clients(
    alloc: Global,
    text: &mut String,
    number: u64,
    clients: u32,
) -> Result<(), AllocError>
    requires clients { clients ≤ 16 }
    ensures { OnOk result (string_bytes text.new ≡ string_bytes text.old ++ text_of (lines.all_lines number clients clients)) }
{
    for client in 0..clients {
        put_client(alloc, text, number, clients, client + 1)?;
    }
    Ok(())
}

/// Adds the lines of a client.
#[tactic(auto, using(crate::proofs::TextLemmas::client_is))]
fn put_client(
    alloc: Global,
    text: &mut String,
    number: u64,
    clients: u32,
    client: u32,
) -> Result<(), AllocError>
    requires client { (1 ≤ client) × (client ≤ 16) }
    ensures { OnOk result (string_bytes text.new ≡ string_bytes text.old ++ text_of (lines.client_lines number clients client)) }
{
    put_opening(text, number, client)?;
    put_joining(text, client)?;
    put_pictures(alloc, text, number, client)?;
    put_cursor(alloc, text, number, client)?;
    put_moves(text, number, client)?;
    put_closing(text, clients, client)
}

#[tactic(auto, using(crate::proofs::TextLemmas::opening_is))]
fn put_opening(text: &mut String, number: u64, client: u32) -> Result<(), AllocError>
    requires client { (1 ≤ client) × (client ≤ 16) }
    ensures { OnOk result (string_bytes text.new ≡ string_bytes text.old ++ text_of (lines.opening number client)) }
{
    let scanout = client - 1;
    let ring = draw(number, client, 1) % 64;
    text.push_str("client\nbuffer A 64 48 1\nbuffer B 64 48 1\n")?;
    write!(text, "take {scanout}\ncontext K\nexport A X{client}\n")?;
    write!(text, "begin F{client} K:{ring} send A 0 0 64 48\n")
}

/// The first client has no one before it.
fn put_joining(text: &mut String, client: u32) -> Result<(), AllocError>
    requires client { (1 ≤ client) × (client ≤ 16) }
    ensures { OnOk result (string_bytes text.new ≡ string_bytes text.old ++ text_of (if nat_lt 1 client then lines.joining client else [])) }
{
    if 1 < client {
        put_import(text, client)
    } else {
        Ok(())
    }
}

#[tactic(auto, using(crate::proofs::TextLemmas::joining_is))]
fn put_import(text: &mut String, client: u32) -> Result<(), AllocError>
    requires client { (1 ≤ client) × (client ≤ 16) }
    ensures { OnOk result (string_bytes text.new ≡ string_bytes text.old ++ text_of (lines.joining client)) }
{
    let before = client - 1;
    write!(text, "import X{before} P\nawait F{before}\n")?;
    write!(text, "load P 0 4\nbegin G{client} - info\n")
}

#[tactic(auto, using(crate::proofs::TextLemmas::pictures_more))]
fn put_pictures(
    alloc: Global,
    text: &mut String,
    number: u64,
    client: u32,
) -> Result<(), AllocError>
    requires client { (1 ≤ client) × (client ≤ 16) }
    ensures { OnOk result (string_bytes text.new ≡ string_bytes text.old ++ text_of (lines.pictures number client 20)) }
{
    for n in 0..20 {
        put_picture(alloc, text, number, client, n + 1)?;
    }
    Ok(())
}

#[tactic(auto, using(crate::proofs::TextLemmas::picture_is))]
fn put_picture(
    alloc: Global,
    text: &mut String,
    number: u64,
    client: u32,
    n: u32,
) -> Result<(), AllocError>
    requires client { (1 ≤ client) × (client ≤ 16) }
    requires n { n ≤ 20 }
    ensures { OnOk result (string_bytes text.new ≡ string_bytes text.old ++ text_of (lines.picture number client n)) }
{
    let scanout = client - 1;
    let buffer = if n % 2 == 1 { "A" } else { "B" };
    let pixel = hex_of(alloc, draw(number, client, n + 1))?;
    write!(
        text,
        "store {buffer} 0 {pixel} 3072\nflip {scanout} {buffer}\n"
    )
}

#[tactic(auto, using(crate::proofs::TextLemmas::cursor_is))]
fn put_cursor(alloc: Global, text: &mut String, number: u64, client: u32) -> Result<(), AllocError>
    requires client { (1 ≤ client) × (client ≤ 16) }
    ensures { OnOk result (string_bytes text.new ≡ string_bytes text.old ++ text_of (lines.cursor number client)) }
{
    let scanout = client - 1;
    let pixel = hex_of(alloc, draw(number, client, 22))?;
    write!(
        text,
        "buffer C 64 64 1\nstore C 0 {pixel} 4096\nsend C 0 0 64 64\ncursor {scanout} C 1 1 0 0\n"
    )
}

#[tactic(auto, using(crate::proofs::TextLemmas::moves_more))]
fn put_moves(text: &mut String, number: u64, client: u32) -> Result<(), AllocError>
    requires client { (1 ≤ client) × (client ≤ 16) }
    ensures { OnOk result (string_bytes text.new ≡ string_bytes text.old ++ text_of (lines.moves number client 10)) }
{
    for n in 0..10 {
        put_move(text, number, client, n + 1)?;
    }
    Ok(())
}

#[tactic(auto, using(crate::proofs::TextLemmas::move_is))]
fn put_move(text: &mut String, number: u64, client: u32, n: u32) -> Result<(), AllocError>
    requires client { (1 ≤ client) × (client ≤ 16) }
    requires n { n ≤ 10 }
    ensures { OnOk result (string_bytes text.new ≡ string_bytes text.old ++ text_of (lines.move number client n)) }
{
    let scanout = client - 1;
    let x = draw(number, client, 21 + 2 * n) % 64;
    let y = draw(number, client, 22 + 2 * n) % 64;
    write!(text, "move {scanout} {x} {y}\n")
}

/// The last client has no one behind it.
fn put_closing(text: &mut String, clients: u32, client: u32) -> Result<(), AllocError>
    requires client { (1 ≤ client) × (client ≤ 16) }
    ensures { OnOk result (string_bytes text.new ≡ string_bytes text.old ++ text_of (if nat_lt client clients then lines.closing client else [])) }
{
    if client < clients {
        put_await(text, client)
    } else {
        Ok(())
    }
}

#[tactic(auto, using(crate::proofs::TextLemmas::closing_is))]
fn put_await(text: &mut String, client: u32) -> Result<(), AllocError>
    requires client { (1 ≤ client) × (client ≤ 16) }
    ensures { OnOk result (string_bytes text.new ≡ string_bytes text.old ++ text_of (lines.closing client)) }
{
    let next = client + 1;
    write!(text, "await G{next}\n")
}

/// The 4 bytes of a number, the lowest first, as digits.
fn hex_of(alloc: Global, number: u32) -> Result<String, AllocError>
    ensures { IfOk result (λ text. string_bytes text ≡ lines.hex_of number) }
{
    let mut bytes = Vec::new(alloc);
    put_u32(&mut bytes, number)?;
    hex::encode(alloc, bytes)
}

//! What the clients share beside the device: buffers of guest pages, tokens for them, and the leases of scanouts.

ghost use Rattle.std.specs.BTreeMap.{is_at};
ghost use Rattle.std.specs.Map.{lookup};
ghost use Rattle.std.specs.Ordering.{nat_cmp};
ghost use Rattle.std.specs.Prelude.{◌≡◌, ◌==◌, ◌+◌, ◌^◌, ◌-◌, ℕ, not, true, ◌<◌, [], Some, None, IfOk, IfErr, OnOk, OnErr, length, replicate, slice_get, option_copied};
ghost use Rattle.std.specs.Option.{option_map};
ghost use Rattle.vg_pages.specs.Memory.{AreTakeable, Memory, after_taking, fresh_memory};
ghost use Rattle.vg_share.specs.Cells.{pages_of};
ghost use Rattle.vg_share.specs.Share.{SharesPages, buffer_at, drop_refusal, ended, entered, export_refusal, exported, exported_key, free_refusal, freed, geometry_at, geometry_in, given_back, has_entered, has_holder, holds_once, import_refusal, imported, imported_buffer, imported_entries, some_hold, is_holder, is_leased, leased, new_buffer, pages_at, place_refusal, release_refusal, released, released_buffer, released_entries, some_holder, take_refusal, token_key, unleased, with_buffer};

use crate::holders::{add_hold, holds_in, some_hold, take_hold};
use crate::page_list::PageList;
use std::alloc::{AllocError, Global};
use std::collections::BTreeMap;
use std::marker::Model;
use vg_list::Seq;
use vg_pages::Pages;

/// Why an act is refused.
#[derive(Clone, Copy, Debug)]
pub enum ShareRefusal {
    /// Fewer pages are free than the buffer needs; so many are.
    GuestFull { free: u32 },
    /// No live buffer has the key, or there is no such scanout.
    UnknownKey,
    /// The client doesn't hold the buffer, doesn't take it down, or the scanout isn't leased to it.
    NotHeld,
    /// The scanout is leased to this client.
    ScanoutHeld { by: u32 },
    /// The bytes pass the end of the buffer, which has so many.
    OutOfRange { bytes: u32 },
    /// The buffer is shown on this scanout; or the scanout is bound, or its cursor is shown.
    InUse { scanout: u32 },
    /// The device has a resource with the buffer's key.
    ResourceLive,
}

/// What a buffer is for: width and height in pixels and the code of the pixels' format, as its client says them,
/// and how many bytes it has.
#[derive(Clone, Copy, Debug)]
pub struct Geometry {
    pub width: u32,
    pub height: u32,
    pub format: u32,
    pub bytes: u32,
}

/// A buffer that is live.
#[derive(Drop)]
pub struct Buffer {
    pub geometry: Geometry,
    /// Its guest pages, rising.
    pub pages: PageList,
    /// The clients that hold it, each with how many holds it has, which are none where it has given up all.
    pub holders: Seq<(u32, u64)>,
    /// The client that takes it down.
    pub taker: Option<u32>,
}

/// What the clients share.
#[derive(Drop)]
pub struct Share {
    buffers: BTreeMap<u32, Buffer>,
    reserved: u32,
    /// The key of each token's buffer, in the order of the tokens.
    exports: Vec<u32>,
    leases: Vec<Option<u32>>,
    /// The clients that have come, and whether each has left.
    clients: BTreeMap<u32, bool>,
}

impl Model for Share {
    ghost use Rattle.vg_share.specs.Share.{ShareState};

    ghost Value = { ShareState };

    ghost view = { λ s. record { buffers = s.buffers.entries; reserved = s.reserved; exports = s.exports.items; leases = s.leases.items; clients = s.clients.entries } };
}

impl Share {
    /// No buffers, and so many scanouts, none of them leased.
    pub fn new(alloc: Global, scanouts: u32) -> Result<Share, AllocError>
        ensures none { IfOk result (λ share. share ≡ record { buffers = []; reserved = 0; exports = []; leases = replicate scanouts None; clients = [] }) }
        // Memory of which no page is taken fits.
        ensures share { IfOk result (λ share. (pages : ℕ) → SharesPages (fresh_memory pages) share) }
    {
        let leases = vec![in alloc; None; scanouts as usize]?;
        Ok(Share {
            buffers: BTreeMap::new(alloc),
            reserved: 0,
            exports: Vec::new(alloc),
            leases,
            clients: BTreeMap::new(alloc),
        })
    }

    /// The key of the next buffer.
    pub fn next_key(&self) -> u32
        requires { self.now.reserved < 2 ^ 32 - 1 }
        ensures { result ≡ self.now.reserved + 1 }
    {
        self.reserved + 1
    }

    /// Takes the lowest free pages, which the list has, for a new buffer that the client holds once. Its key is the next.
    pub fn reserve(
        &mut self,
        alloc: Global,
        pages: &mut Pages,
        client: u32,
        geometry: &Geometry,
        list: &PageList,
    ) -> Result<(), AllocError>
        requires share { SharesPages pages.old self.old }
        requires number { self.old.reserved < 2 ^ 32 - 1 }
        requires free { AreTakeable pages.old.taken list.now }
        requires enough { length list.now ≡ pages_of geometry.now.bytes }
        ensures buffer { OnOk result (self.new ≡ with_buffer client geometry.now list.now self.old) }
        ensures taken { OnOk result (pages.new ≡ after_taking pages.old list.now) }
        ensures share { SharesPages pages.new self.new }
        ensures err { OnErr result ((self.new ≡ self.old) × (pages.new ≡ pages.old)) }
    {
        let key = self.next_key();
        let buffer = new_buffer(alloc, client, geometry, list)?;
        self.buffers.insert(key, buffer)?;
        self.reserved = key;
        pages.take_these(list.as_slice());
        Ok(())
    }

    /// The pages of a buffer that the client holds, where so many bytes from an offset on lie in it.
    pub fn place(
        &self,
        client: u32,
        key: u32,
        offset: u32,
        length: u128,
    ) -> Result<&[u32], ShareRefusal>
        ensures refused { IfErr result (λ refusal. place_refusal client key offset length self.now ≡ Some refusal) }
        ensures accepted { OnOk result (place_refusal client key offset length self.now ≡ None) }
        ensures pages { IfOk result (λ pages. pages.now ≡ pages_at key self.now) }
        ensures limit { OnOk result (offset + length < 2 ^ 32) }
    {
        let Some(buffer) = self.buffers.get(&key) else {
            return Err(ShareRefusal::UnknownKey);
        };
        if !buffer.is_held_by(client) {
            return Err(ShareRefusal::NotHeld);
        }
        let bytes = buffer.geometry.bytes;
        if u128::from(bytes) < length.saturating_add(u128::from(offset)) {
            return Err(ShareRefusal::OutOfRange { bytes });
        }
        Ok(buffer.pages.as_slice())
    }

    /// The pages of a buffer that is live, rising.
    pub fn pages(&self, key: u32) -> Option<&[u32]>
        ensures { option_copied result ≡ option_map (λ buffer. buffer.pages) (buffer_at key self.now) }
    {
        match self.buffers.get(&key) {
            Some(buffer) => Some(buffer.pages.as_slice()),
            None => None,
        }
    }

    /// Takes one hold of the client away, and tells whether it was the last of all: the client takes the buffer down then.
    /// `shown` is the least scanout leased to the client on which the buffer is shown.
    pub fn release(
        &mut self,
        client: u32,
        key: u32,
        shown: Option<u32>,
    ) -> Result<bool, ShareRefusal>
        ensures refused { IfErr result (λ refusal. release_refusal client key shown self.old ≡ Some refusal) }
        ensures kept { OnErr result (self.new ≡ self.old) }
        ensures accepted { OnOk result (release_refusal client key shown self.old ≡ None) }
        ensures after { OnOk result (self.new ≡ released client key self.old) }
        ensures last { IfOk result (λ last. last ≡ not (has_holder key self.new)) }
        ensures share { (memory : Memory) → SharesPages memory self.old → SharesPages memory self.new }
    {
        if let Some(refusal) = self.release_refusal(client, key, shown) {
            return Err(refusal);
        }
        Ok(release_in(&mut self.buffers, client, key))
    }

    /// Gives the next token, for a buffer that the client holds.
    pub fn export(&mut self, client: u32, key: u32) -> Result<Result<u32, ShareRefusal>, AllocError>
        requires number { length self.old.exports < 2 ^ 32 - 1 }
        ensures refused { IfOk result (λ done. IfErr done (λ refusal. export_refusal client key self.old ≡ Some refusal)) }
        ensures kept { IfOk result (λ done. OnErr done (self.new ≡ self.old)) }
        ensures accepted { IfOk result (λ done. OnOk done (export_refusal client key self.old ≡ None)) }
        ensures after { IfOk result (λ done. OnOk done (self.new ≡ exported key self.old)) }
        ensures token { IfOk result (λ done. IfOk done (λ token. token ≡ length self.old.exports + 1)) }
        ensures share { (memory : Memory) → SharesPages memory self.old → SharesPages memory self.new }
        ensures err { OnErr result (self.new ≡ self.old) }
    {
        if let Some(refusal) = self.export_refusal(client, key) {
            return Ok(Err(refusal));
        }
        self.exports.push(key)?;
        Ok(Ok(self.exports.len() as u32))
    }

    /// The key of a token's buffer, 0 where the token wasn't given.
    pub fn token_key(&self, token: u32) -> u32
        ensures { result ≡ token_key token self.now }
    {
        match self.exported_key(token) {
            Some(key) => key,
            None => 0,
        }
    }

    /// The pages of a token's buffer, rising, in the buffer's own list; none where there is no such buffer.
    pub fn token_pages(&self, alloc: Global, token: u32) -> Result<PageList, AllocError>
        ensures { IfOk result (λ list. list ≡ pages_at (token_key token self.now) self.now) }
    {
        match self.buffers.get(&self.token_key(token)) {
            Some(buffer) => buffer.pages.share(),
            None => PageList::from_vec(alloc, Vec::new(alloc)),
        }
    }

    /// Gives the client one more hold of a token's buffer, and tells the buffer's key and what it is for.
    pub fn import(
        &mut self,
        client: u32,
        token: u32,
    ) -> Result<Result<(u32, Geometry), ShareRefusal>, AllocError>
        ensures refused { IfOk result (λ done. IfErr done (λ refusal. import_refusal token self.old ≡ Some refusal)) }
        ensures kept { IfOk result (λ done. OnErr done (self.new ≡ self.old)) }
        ensures accepted { IfOk result (λ done. OnOk done (import_refusal token self.old ≡ None)) }
        ensures after { IfOk result (λ done. OnOk done (self.new ≡ imported client (token_key token self.old) self.old)) }
        ensures told { IfOk result (λ done. IfOk done (λ told. told ≡ (token_key token self.old, geometry_at (token_key token self.old) self.old))) }
        ensures share { (memory : Memory) → SharesPages memory self.old → SharesPages memory self.new }
        ensures err { OnErr result (self.new ≡ self.old) }
    {
        if let Some(refusal) = self.import_refusal(token) {
            return Ok(Err(refusal));
        }
        let key = self.token_key(token);
        let geometry = import_in(&mut self.buffers, client, key)?;
        Ok(Ok((key, geometry)))
    }

    /// Gives back the pages of a buffer that the client takes down. `live` says whether the device has a resource with
    /// its key.
    pub fn free(
        &mut self,
        pages: &mut Pages,
        client: u32,
        key: u32,
        live: bool,
    ) -> Result<(), ShareRefusal>
        requires { SharesPages pages.old self.old }
        ensures refused { IfErr result (λ refusal. free_refusal client key live self.old ≡ Some refusal) }
        ensures kept { OnErr result ((self.new ≡ self.old) × (pages.new ≡ pages.old)) }
        ensures accepted { OnOk result (free_refusal client key live self.old ≡ None) }
        ensures after { OnOk result ((self.new ≡ freed key self.old) × (pages.new ≡ given_back (pages_at key self.old) pages.old)) }
        ensures share { SharesPages pages.new self.new }
    {
        if let Some(refusal) = self.free_refusal(client, key, live) {
            return Err(refusal);
        }
        if let Some(buffer) = self.buffers.remove(&key) {
            pages.give(buffer.pages.as_slice());
        }
        Ok(())
    }

    /// Leases a scanout to the client.
    pub fn take_scanout(&mut self, client: u32, scanout: u32) -> Result<(), ShareRefusal>
        ensures refused { IfErr result (λ refusal. take_refusal scanout self.old ≡ Some refusal) }
        ensures kept { OnErr result (self.new ≡ self.old) }
        ensures accepted { OnOk result (take_refusal scanout self.old ≡ None) }
        ensures after { OnOk result (self.new ≡ leased client scanout self.old) }
    {
        match self.lease(scanout) {
            None => return Err(ShareRefusal::UnknownKey),
            Some(Some(by)) => return Err(ShareRefusal::ScanoutHeld { by }),
            Some(None) => {}
        }
        self.leases[scanout as usize] = Some(client);
        Ok(())
    }

    /// Ends the lease of a scanout. `shown` says whether it is bound or its cursor is shown.
    pub fn drop_scanout(
        &mut self,
        client: u32,
        scanout: u32,
        shown: bool,
    ) -> Result<(), ShareRefusal>
        ensures refused { IfErr result (λ refusal. drop_refusal client scanout shown self.old ≡ Some refusal) }
        ensures kept { OnErr result (self.new ≡ self.old) }
        ensures accepted { OnOk result (drop_refusal client scanout shown self.old ≡ None) }
        ensures after { OnOk result (self.new ≡ unleased scanout self.old) }
    {
        if !self.is_leased(client, scanout) {
            return Err(ShareRefusal::NotHeld);
        }
        if shown {
            return Err(ShareRefusal::InUse { scanout });
        }
        self.leases[scanout as usize] = None;
        Ok(())
    }

    /// Whether a scanout is leased to the client.
    pub fn is_leased(&self, client: u32, scanout: u32) -> bool
        ensures { result ≡ is_leased client scanout self.now }
    {
        match self.lease(scanout) {
            Some(Some(other)) => other == client,
            _ => false,
        }
    }

    /// The client to which a scanout is leased, or none. None of both where there is no such scanout.
    fn lease(&self, scanout: u32) -> Option<Option<u32>>
        ensures { result ≡ slice_get self.now.leases scanout }
    {
        self.leases.get(scanout as usize).copied()
    }

    /// Notes that the client has come. A second time changes nothing.
    pub fn enter(&mut self, client: u32) -> Result<(), AllocError>
        ensures ok { OnOk result (self.new ≡ entered client self.old) }
        ensures there { OnOk result (has_entered client self.new ≡ true) }
        ensures err { OnErr result (self.new ≡ self.old) }
    {
        if !self.clients.contains_key(&client) {
            self.clients.insert(client, false)?;
        }
        Ok(())
    }

    /// Notes that the client, which has come, has left. It takes no memory.
    pub fn end(&mut self, client: u32)
        requires { has_entered client self.old ≡ true }
        ensures { self.new ≡ ended client self.old }
    {
        let _ = self.clients.insert(client, true);
    }

    /// Why the client can't give up a hold of the buffer, if it can't.
    fn release_refusal(&self, client: u32, key: u32, shown: Option<u32>) -> Option<ShareRefusal>
        ensures { result ≡ release_refusal client key shown self.now }
    {
        let Some(buffer) = self.buffers.get(&key) else {
            return Some(ShareRefusal::UnknownKey);
        };
        if !buffer.is_held_by(client) {
            return Some(ShareRefusal::NotHeld);
        }
        if buffer.is_held_once_by(client) {
            return shown.map(|scanout| ShareRefusal::InUse { scanout });
        }
        None
    }

    /// Why the client can't export the buffer, if it can't.
    fn export_refusal(&self, client: u32, key: u32) -> Option<ShareRefusal>
        ensures { result ≡ export_refusal client key self.now }
    {
        let Some(buffer) = self.buffers.get(&key) else {
            return Some(ShareRefusal::UnknownKey);
        };
        if !buffer.is_held_by(client) {
            return Some(ShareRefusal::NotHeld);
        }
        None
    }

    /// The key of the buffer for which the token was given, if it was.
    fn exported_key(&self, token: u32) -> Option<u32>
        ensures { result ≡ exported_key token self.now }
    {
        if token == 0 {
            return None;
        }
        self.exports.get(token as usize - 1).copied()
    }

    /// Why the token's buffer can't be imported, if it can't.
    fn import_refusal(&self, token: u32) -> Option<ShareRefusal>
        ensures { result ≡ import_refusal token self.now }
    {
        let Some(key) = self.exported_key(token) else {
            return Some(ShareRefusal::UnknownKey);
        };
        if !self.has_holder(key) {
            return Some(ShareRefusal::UnknownKey);
        }
        None
    }

    /// Whether the buffer of the key has a holder.
    fn has_holder(&self, key: u32) -> bool
        ensures { result ≡ has_holder key self.now }
    {
        match self.buffers.get(&key) {
            Some(buffer) => some_hold(buffer.holders.as_slice()),
            None => false,
        }
    }

    /// Why the client can't give back the buffer's pages, if it can't.
    fn free_refusal(&self, client: u32, key: u32, live: bool) -> Option<ShareRefusal>
        ensures { result ≡ free_refusal client key live self.now }
    {
        let Some(buffer) = self.buffers.get(&key) else {
            return Some(ShareRefusal::UnknownKey);
        };
        if buffer.taker != Some(client) {
            return Some(ShareRefusal::NotHeld);
        }
        if live {
            return Some(ShareRefusal::ResourceLive);
        }
        None
    }
}

impl Buffer {
    /// Whether the client holds the buffer.
    fn is_held_by(&self, client: u32) -> bool
        ensures { result ≡ is_holder client self.now }
    {
        holds_in(self.holders.as_slice(), client) > 0
    }

    /// Whether the client holds the buffer exactly once.
    fn is_held_once_by(&self, client: u32) -> bool
        ensures { result ≡ holds_once client self.now }
    {
        holds_in(self.holders.as_slice(), client) == 1
    }

    /// Gives the client one more hold.
    fn import(&mut self, client: u32) -> Result<(), AllocError>
        ensures ok { OnOk result (self.new ≡ imported_buffer client self.old) }
        ensures err { OnErr result (self.new ≡ self.old) }
    {
        add_hold(&mut self.holders, client)
    }

    /// Takes one hold of the client away, and tells whether no hold is left: the client takes the buffer down then.
    fn release(&mut self, client: u32) -> bool
        ensures after { self.new ≡ released_buffer client self.old }
        ensures last { result ≡ not (some_hold self.new.holders) }
    {
        take_hold(&mut self.holders, client);
        if some_hold(self.holders.as_slice()) {
            return false;
        }
        self.taker = Some(client);
        true
    }
}

/// A buffer with these pages that the client holds once.
fn new_buffer(
    alloc: Global,
    client: u32,
    geometry: &Geometry,
    list: &PageList,
) -> Result<Buffer, AllocError>
    ensures { IfOk result (λ buffer. buffer ≡ new_buffer client geometry.now list.now) }
{
    let pages = list.share()?;
    let holders = Seq::from_vec(vec![in alloc; (client, 1)]?);
    Ok(Buffer {
        geometry: *geometry,
        pages,
        holders,
        taker: None,
    })
}

/// Takes one hold of the client away where a buffer has the key, and tells whether no hold is left.
fn release_in(buffers: &mut BTreeMap<u32, Buffer>, client: u32, key: u32) -> bool
    ensures entries { buffers.new.entries ≡ released_entries client key (lookup (is_at (nat_cmp key)) buffers.old.entries) buffers.old.entries }
    ensures last { result ≡ not (some_holder (lookup (is_at (nat_cmp key)) buffers.new.entries)) }
{
    if let Some(buffer) = buffers.get_mut(&key) {
        return buffer.release(client);
    }
    true
}

/// Gives the client one more hold where a buffer has the key, and tells what the buffer is for.
fn import_in(
    buffers: &mut BTreeMap<u32, Buffer>,
    client: u32,
    key: u32,
) -> Result<Geometry, AllocError>
    ensures entries { OnOk result (buffers.new.entries ≡ imported_entries client key (lookup (is_at (nat_cmp key)) buffers.old.entries) buffers.old.entries) }
    ensures geometry { IfOk result (λ geometry. geometry ≡ geometry_in (lookup (is_at (nat_cmp key)) buffers.old.entries)) }
    ensures err { OnErr result (buffers.new.entries ≡ buffers.old.entries) }
{
    if let Some(buffer) = buffers.get_mut(&key) {
        buffer.import(client)?;
        return Ok(buffer.geometry);
    }
    Ok(Geometry {
        width: 0,
        height: 0,
        format: 0,
        bytes: 0,
    })
}

//! What the acts of clients do, one function each.

ghost use Rattle.std.specs.Prelude.{◌≡◌, ◌^◌, ◌-◌, ◌+◌, ◌<◌, [], ◌∷◌, ◌++◌, length, Some, None, IfErr, IfOk, OnErr, OnOk};
ghost use Rattle.vg_pages.specs.Memory.{AreTakeable, Memory, after_taking};
ghost use Rattle.vg_client_holds.specs.declared.act.Act.TheVariants as acts;
ghost use Rattle.vg_client_holds.specs.declared.act.ActReply.TheVariants as act_replies;
ghost use Rattle.vg_device.specs.ActStep.{HasNoList, drop_step, effect_of, export_step, free_step, import_step, is_accepted, is_shown_on, load_step, release_step, reserve_step, shown_at, store_step, take_step};
ghost use Rattle.vg_share.specs.Cells.{pages_of};
ghost use Rattle.vg_client_holds.specs.Holds.{update};
ghost use Rattle.vg_plugs.specs.Plugs.{plugged, unplugged};
ghost use Rattle.vg_share.specs.Share.{SharesPages, ended, entered, geometry_at, import_refusal, imported, token_key, with_buffer};

use crate::device::Device;
use std::alloc::{AllocError, Global};
use vg_client_holds::{Act, ActReply, Holds};
use vg_list::Seq;
use vg_pages::Pages;
use vg_share::{
    Geometry, PageList, Share, ShareRefusal, load, pages_of, remove_number, store_times,
};

impl Device {
    /// Does an act, and gives its reply twice. What the client holds changes with it.
    pub(crate) fn perform(
        &mut self,
        alloc: Global,
        client: u32,
        holds: &mut Holds,
        act: &Act,
    ) -> Result<(ActReply, ActReply), AllocError>
        requires fresh { self.old.share.reserved < self.old.entries }
        requires tokens { length self.old.share.exports < self.old.entries }
        requires number { self.old.entries < 2 ^ 31 }
        ensures step { IfOk result (λ twice. effect_of self.old client act.now ≡ (self.new, twice.0)) }
        ensures same { IfOk result (λ twice. twice.1 ≡ twice.0) }
        ensures holds { IfOk result (λ twice. holds.new ≡ update holds.old act.now twice.0) }
        ensures err { OnErr result ((self.new ≡ self.old) × (holds.new ≡ holds.old)) }
    {
        match act {
            Act::Enter | Act::Await { .. } | Act::Denied { .. } | Act::Sync { .. } => {
                Ok((ActReply::Ok, ActReply::Ok))
            }
            Act::Reserve {
                width,
                height,
                format,
                bytes,
            } => {
                let geometry = Geometry {
                    width: *width,
                    height: *height,
                    format: *format,
                    bytes: *bytes,
                };
                self.reserve(alloc, client, holds, geometry)
            }
            Act::Store {
                key,
                offset,
                bytes,
                times,
            } => Ok(twice(self.store(alloc, client, *key, *offset, bytes.as_slice(), *times)?)),
            Act::Load {
                key,
                offset,
                length,
            } => self.load(alloc, client, *key, *offset, *length),
            Act::Export { key } => Ok(twice(self.export(client, *key)?)),
            Act::Import { token } => self.import(alloc, client, holds, *token),
            Act::Release { key } => Ok(twice(self.release(client, holds, *key)?)),
            Act::Free { key } => Ok(twice(self.free(client, holds, *key))),
            Act::Take { scanout } => Ok(twice(self.take(client, holds, *scanout)?)),
            Act::Drop { scanout } => Ok(twice(self.end_lease(client, holds, *scanout))),
            Act::Mode {
                scanout,
                width,
                height,
            } => {
                self.plug(*scanout, *width, *height);
                Ok((ActReply::Ok, ActReply::Ok))
            }
            Act::Unplug { scanout } => {
                self.unplug(*scanout);
                Ok((ActReply::Ok, ActReply::Ok))
            }
            Act::Events => {
                let set = self.plugs.changed();
                Ok((ActReply::Events { set }, ActReply::Events { set }))
            }
            Act::Ack => {
                self.clear_events();
                Ok((ActReply::Ok, ActReply::Ok))
            }
            Act::Leave => {
                self.leave(client)?;
                Ok((ActReply::Ok, ActReply::Ok))
            }
        }
    }

    /// The host plugs a display, or resizes it.
    fn plug(&mut self, scanout: u32, width: u32, height: u32)
        ensures { self.new ≡ record self.old { plugs = plugged scanout width height self.old.plugs } }
    {
        self.plugs.plug(scanout, width, height);
    }

    /// The host unplugs a display.
    fn unplug(&mut self, scanout: u32)
        ensures { self.new ≡ record self.old { plugs = unplugged scanout self.old.plugs } }
    {
        self.plugs.unplug(scanout);
    }

    fn reserve(
        &mut self,
        alloc: Global,
        client: u32,
        holds: &mut Holds,
        geometry: Geometry,
    ) -> Result<(ActReply, ActReply), AllocError>
        requires fresh { self.old.share.reserved < self.old.entries }
        requires number { self.old.entries < 2 ^ 31 }
        ensures step { IfOk result (λ twice. reserve_step self.old client geometry ≡ (self.new, twice.0)) }
        ensures same { IfOk result (λ twice. twice.1 ≡ twice.0) }
        ensures holds { IfOk result (λ twice. holds.new ≡ update holds.old (acts.Reserve geometry.width geometry.height geometry.format geometry.bytes) twice.0) }
        ensures err { OnErr result ((self.new ≡ self.old) × (holds.new ≡ holds.old)) }
    {
        let Some(list) = self.pages.lowest(alloc, pages_of(geometry.bytes))? else {
            return Ok(refused_twice(ShareRefusal::GuestFull {
                free: self.pages.free(),
            }));
        };
        let key = self.share.next_key();
        let list = PageList::from_vec(alloc, list)?;
        let copy = list.share()?;
        reserve_held(
            alloc,
            &mut self.share,
            &mut self.pages,
            client,
            holds,
            &geometry,
            &list,
        )?;
        Ok((reserved(key, list), reserved(key, copy)))
    }

    fn store(
        &mut self,
        alloc: Global,
        client: u32,
        key: u32,
        offset: u32,
        bytes: &[u8],
        times: u32,
    ) -> Result<ActReply, AllocError>
        ensures step { IfOk result (λ reply. store_step self.old client key offset bytes.now times ≡ (self.new, reply)) }
        ensures err { OnErr result (self.new ≡ self.old) }
    {
        let length = bytes.len() as u128 * u128::from(times);
        match self.share.place(client, key, offset, length) {
            Ok(pages) => {
                store_times(alloc, &mut self.pages, pages, offset, bytes, times)?;
                Ok(ActReply::Ok)
            }
            Err(refusal) => Ok(refused(refusal)),
        }
    }

    fn load(
        &mut self,
        alloc: Global,
        client: u32,
        key: u32,
        offset: u32,
        length: u32,
    ) -> Result<(ActReply, ActReply), AllocError>
        ensures step { IfOk result (λ twice. load_step self.old client key offset length ≡ (self.new, twice.0)) }
        ensures same { IfOk result (λ twice. twice.1 ≡ twice.0) }
        ensures err { OnErr result (self.new ≡ self.old) }
    {
        match self.share.place(client, key, offset, u128::from(length)) {
            Ok(pages) => {
                let bytes = load(alloc, &self.pages, pages, offset, length)?;
                let copy = bytes.as_slice().to_vec(alloc)?;
                Ok((loaded(bytes), loaded(copy)))
            }
            Err(refusal) => Ok(refused_twice(refusal)),
        }
    }

    fn export(&mut self, client: u32, key: u32) -> Result<ActReply, AllocError>
        requires fresh { length self.old.share.exports < self.old.entries }
        requires number { self.old.entries < 2 ^ 31 }
        ensures step { IfOk result (λ reply. export_step self.old client key ≡ (self.new, reply)) }
        ensures plain { IfOk result HasNoList }
        ensures err { OnErr result (self.new ≡ self.old) }
    {
        match self.share.export(client, key)? {
            Ok(token) => Ok(ActReply::Exported { token }),
            Err(refusal) => Ok(refused(refusal)),
        }
    }

    fn import(
        &mut self,
        alloc: Global,
        client: u32,
        holds: &mut Holds,
        token: u32,
    ) -> Result<(ActReply, ActReply), AllocError>
        ensures step { IfOk result (λ twice. import_step self.old client token ≡ (self.new, twice.0)) }
        ensures same { IfOk result (λ twice. twice.1 ≡ twice.0) }
        ensures holds { IfOk result (λ twice. holds.new ≡ update holds.old (acts.Import token) twice.0) }
        ensures err { OnErr result ((self.new ≡ self.old) × (holds.new ≡ holds.old)) }
    {
        let list = self.share.token_pages(alloc, token)?;
        let copy = list.share()?;
        let own = list.share()?;
        match import_held(&mut self.share, client, holds, token, own)? {
            Ok((key, geometry)) => {
                Ok((imported(key, geometry, list), imported(key, geometry, copy)))
            }
            Err(refusal) => Ok(refused_twice(refusal)),
        }
    }

    fn release(&mut self, client: u32, holds: &mut Holds, key: u32) -> Result<ActReply, AllocError>
        ensures step { IfOk result (λ reply. release_step self.old client key ≡ (self.new, reply)) }
        ensures holds { IfOk result (λ reply. holds.new ≡ update holds.old (acts.Release key) reply) }
        ensures err { OnErr result ((self.new ≡ self.old) × (holds.new ≡ holds.old)) }
    {
        let shown = self.shown_at(client, key);
        holds.taking_down.push(key)?;
        match self.share.release(client, key, shown) {
            Ok(true) => Ok(ActReply::Last),
            Ok(false) => {
                holds.taking_down.pop();
                holds.buffers.remove(key);
                Ok(ActReply::Kept)
            }
            Err(refusal) => {
                holds.taking_down.pop();
                Ok(refused(refusal))
            }
        }
    }

    /// The least scanout that is leased to the client and shows the buffer.
    fn shown_at(&self, client: u32, key: u32) -> Option<u32>
        ensures { result ≡ shown_at client key self.now }
    {
        (0..self.setup.displays.len() as u32).find(|scanout| self.shows(client, key, *scanout))
    }

    /// Whether a scanout is leased to the client and shows the buffer.
    fn shows(&self, client: u32, key: u32, scanout: u32) -> bool
        ensures { result ≡ is_shown_on client key self.now scanout }
    {
        match self.scanouts.binding(scanout) {
            Some(binding) => self.share.is_leased(client, scanout) && binding.resource == key,
            None => false,
        }
    }

    fn free(&mut self, client: u32, holds: &mut Holds, key: u32) -> ActReply
        ensures step { free_step self.old client key ≡ (self.new, result) }
        ensures holds { holds.new ≡ update holds.old (acts.Free key) result }
    {
        let live = self.has_resource(key);
        match self.share.free(&mut self.pages, client, key, live) {
            Ok(()) => {
                holds.buffers.remove(key);
                remove_number(&mut holds.taking_down, key);
                ActReply::Ok
            }
            Err(refusal) => refused(refusal),
        }
    }

    fn take(&mut self, client: u32, holds: &mut Holds, scanout: u32) -> Result<ActReply, AllocError>
        ensures step { IfOk result (λ reply. take_step self.old client scanout ≡ (self.new, reply)) }
        ensures holds { IfOk result (λ reply. holds.new ≡ update holds.old (acts.Take scanout) reply) }
        ensures err { OnErr result ((self.new ≡ self.old) × (holds.new ≡ holds.old)) }
    {
        holds.scanouts.push(scanout)?;
        match self.share.take_scanout(client, scanout) {
            Ok(()) => Ok(ActReply::Ok),
            Err(refusal) => {
                holds.scanouts.pop();
                Ok(refused(refusal))
            }
        }
    }

    fn end_lease(&mut self, client: u32, holds: &mut Holds, scanout: u32) -> ActReply
        ensures step { drop_step self.old client scanout ≡ (self.new, result) }
        ensures holds { holds.new ≡ update holds.old (acts.Drop scanout) result }
    {
        let shown = self.scanouts.binding(scanout).is_some() || self.has_cursor(scanout);
        match self.share.drop_scanout(client, scanout, shown) {
            Ok(()) => {
                remove_number(&mut holds.scanouts, scanout);
                ActReply::Ok
            }
            Err(refusal) => refused(refusal),
        }
    }

    fn leave(&mut self, client: u32) -> Result<(), AllocError>
        ensures ok { OnOk result (self.new ≡ record self.old { share = ended client (entered client self.old.share) }) }
        ensures err { OnErr result (self.new ≡ self.old) }
    {
        self.share.enter(client)?;
        self.share.end(client);
        Ok(())
    }
}

/// Takes these pages, the lowest free ones, for a new buffer that the client holds once, as its holds say then.
fn reserve_held(
    alloc: Global,
    share: &mut Share,
    pages: &mut Pages,
    client: u32,
    holds: &mut Holds,
    geometry: &Geometry,
    list: &PageList,
) -> Result<(), AllocError>
    requires share { SharesPages pages.old share.old }
    requires number { share.old.reserved < 2 ^ 32 - 1 }
    requires free { AreTakeable pages.old.taken list.now }
    requires enough { length list.now ≡ pages_of geometry.now.bytes }
    ensures buffer { OnOk result (share.new ≡ with_buffer client geometry.now list.now share.old) }
    ensures taken { OnOk result (pages.new ≡ after_taking pages.old list.now) }
    ensures share { SharesPages pages.new share.new }
    ensures holds { OnOk result (holds.new ≡ record holds.old { buffers = holds.old.buffers ++ (share.old.reserved + 1, list.now) ∷ [] }) }
    ensures err { OnErr result ((share.new ≡ share.old) × (pages.new ≡ pages.old) × (holds.new ≡ holds.old)) }
{
    holds.buffers.push(share.next_key(), list.share()?)?;
    let done = share.reserve(alloc, pages, client, geometry, list);
    if done.is_err() {
        holds.buffers.pop();
    }
    done
}

/// Gives the client one more hold of the token's buffer, as its holds say then, with these pages.
fn import_held(
    share: &mut Share,
    client: u32,
    holds: &mut Holds,
    token: u32,
    pages: PageList,
) -> Result<Result<(u32, Geometry), ShareRefusal>, AllocError>
    ensures refused { IfOk result (λ done. IfErr done (λ refusal. import_refusal token share.old ≡ Some refusal)) }
    ensures kept { IfOk result (λ done. OnErr done ((share.new ≡ share.old) × (holds.new ≡ holds.old))) }
    ensures accepted { IfOk result (λ done. OnOk done (import_refusal token share.old ≡ None)) }
    ensures after { IfOk result (λ done. OnOk done (share.new ≡ imported client (token_key token share.old) share.old)) }
    ensures told { IfOk result (λ done. IfOk done (λ told. told ≡ (token_key token share.old, geometry_at (token_key token share.old) share.old))) }
    ensures holds { IfOk result (λ done. OnOk done (holds.new ≡ record holds.old { buffers = holds.old.buffers ++ (token_key token share.old, pages) ∷ [] })) }
    ensures share { (memory : Memory) → SharesPages memory share.old → SharesPages memory share.new }
    ensures err { OnErr result ((share.new ≡ share.old) × (holds.new ≡ holds.old)) }
{
    holds.buffers.push(share.token_key(token), pages)?;
    let done = share.import(client, token);
    if !is_imported(&done) {
        holds.buffers.pop();
    }
    done
}

/// Whether it was imported.
fn is_imported(done: &Result<Result<(u32, Geometry), ShareRefusal>, AllocError>) -> bool
    ensures { result ≡ is_accepted done.now }
{
    match done {
        Ok(Ok(_)) => true,
        Ok(Err(_)) => false,
        Err(_) => false,
    }
}

fn refused(refusal: ShareRefusal) -> ActReply
    ensures { result ≡ act_replies.Refused refusal }
{
    ActReply::Refused { refusal }
}

fn refused_twice(refusal: ShareRefusal) -> (ActReply, ActReply)
    ensures { result ≡ (act_replies.Refused refusal, act_replies.Refused refusal) }
{
    (refused(refusal), refused(refusal))
}

fn reserved(key: u32, pages: PageList) -> ActReply
    ensures { result ≡ act_replies.Reserved key pages }
{
    ActReply::Reserved { key, pages }
}

fn imported(key: u32, geometry: Geometry, pages: PageList) -> ActReply
    ensures { result ≡ act_replies.Imported key geometry pages }
{
    ActReply::Imported {
        key,
        geometry,
        pages,
    }
}

fn loaded(bytes: Vec<u8>) -> ActReply
    ensures { result ≡ act_replies.Bytes bytes.items }
{
    ActReply::Bytes {
        bytes: Seq::from_vec(bytes),
    }
}

/// A reply without a list twice: that takes no memory.
fn twice(reply: ActReply) -> (ActReply, ActReply)
    requires { HasNoList reply }
    ensures { result ≡ (reply, reply) }
{
    match reply {
        ActReply::Ok => (ActReply::Ok, ActReply::Ok),
        ActReply::Exported { token } => {
            (ActReply::Exported { token }, ActReply::Exported { token })
        }
        ActReply::Kept => (ActReply::Kept, ActReply::Kept),
        ActReply::Events { set } => (ActReply::Events { set }, ActReply::Events { set }),
        ActReply::Last => (ActReply::Last, ActReply::Last),
        ActReply::Refused { refusal } => refused_twice(refusal),
        ActReply::Reserved { .. } | ActReply::Bytes { .. } | ActReply::Imported { .. } => {
            unreachable!()
        }
    }
}

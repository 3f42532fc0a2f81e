//! The contexts by their ids (VIRTIO 1.2, 5.7.6.9).

ghost use Rattle.std.specs.Prelude.{◌≡◌, [], IfOk, OnErr};
ghost use Rattle.std.specs.List.{list_any};
ghost use Rattle.std.specs.Ordering.{nat_cmp};
ghost use Rattle.std.specs.BTreeMap.{is_at};
ghost use Rattle.vg_context.specs.Contexts.{attach, create, destroy, detach, forgotten, is_live, submit, with_resource, without_resource};

use std::alloc::{AllocError, Global};
use std::collections::{BTreeMap, BTreeSet};
use std::marker::Model;
use vg_wire::kinds::{
    ERR_INVALID_CONTEXT_ID, ERR_INVALID_PARAMETER, ERR_INVALID_RESOURCE_ID, ERR_UNSPEC,
};

/// How many bytes the name of a context may have.
const NAME_BYTES: u32 = 64;

/// A context: what it was made with, and the resources that are attached to it.
#[derive(Debug, Drop)]
struct Live {
    context_init: u32,
    resources: BTreeSet<u32>,
}

impl Model for Live {
    ghost use Rattle.std.specs.List.Sorted.{IsStrictlySortedBy};
    ghost use Rattle.std.specs.Ordering.{nat_cmp};
    ghost use Rattle.vg_context.specs.Contexts.{Context};

    ghost Value = { Context };

    ghost view = { λ c. record { context_init = c.context_init; resources = c.resources.keys } };

    ghost invariant = { λ c. IsStrictlySortedBy nat_cmp c.resources.keys };
}

impl Live {
    fn new(alloc: Global, context_init: u32) -> Live
        ensures { result ≡ record { context_init = context_init; resources = [] } }
    {
        Live {
            context_init,
            resources: BTreeSet::new(alloc),
        }
    }

    fn has(&self, resource: u32) -> bool
        ensures { result ≡ list_any (is_at (nat_cmp resource)) self.now.resources }
    {
        self.resources.contains(&resource)
    }

    fn attach(&mut self, resource: u32) -> Result<(), AllocError>
        ensures ok { IfOk result (λ _. self.new ≡ with_resource resource self.old) }
        ensures err { OnErr result (self.new ≡ self.old) }
    {
        self.resources.insert(resource)?;
        Ok(())
    }

    fn detach(&mut self, resource: u32)
        ensures { self.new ≡ without_resource resource self.old }
    {
        self.resources.remove(&resource);
    }
}

/// The contexts by their ids.
#[derive(Debug, Drop)]
pub struct Contexts {
    map: BTreeMap<u32, Live>,
}

impl Model for Contexts {
    ghost use Rattle.std.specs.Prelude.{ℕ, List};
    ghost use Rattle.vg_context.specs.Contexts.{Context};

    ghost Value = { List (ℕ × Context) };

    ghost view = { λ c. c.map.entries };
}

impl Contexts {
    /// No contexts, which takes no memory.
    pub fn new(alloc: Global) -> Contexts
        ensures { result ≡ [] }
    {
        Contexts {
            map: BTreeMap::new(alloc),
        }
    }

    /// Makes a context to which nothing is attached, or answers the code of its refusal: ERR_INVALID_CONTEXT_ID for an id that is 0
    /// or live, ERR_INVALID_PARAMETER for a name of too many bytes or a set of capabilities.
    #[tactic(auto, unfolding(crate::specs::Contexts::create))]
    pub fn create(
        &mut self,
        alloc: Global,
        id: u32,
        nlen: u32,
        context_init: u32,
    ) -> Result<Result<(), u32>, AllocError>
        ensures done { IfOk result (λ done. (self.new, done) ≡ create id nlen context_init self.old) }
        ensures err { OnErr result (self.new ≡ self.old) }
    {
        if id == 0 || self.map.contains_key(&id) {
            return Ok(Err(ERR_INVALID_CONTEXT_ID));
        }
        if nlen > NAME_BYTES || context_init % 256 != 0 {
            return Ok(Err(ERR_INVALID_PARAMETER));
        }
        self.map.insert(id, Live::new(alloc, context_init))?;
        Ok(Ok(()))
    }

    /// Ends a context, and with it all that is attached to it, or answers ERR_INVALID_CONTEXT_ID where it isn't live.
    #[tactic(auto, unfolding(crate::specs::Contexts::destroy))]
    pub fn destroy(&mut self, id: u32) -> Result<(), u32>
        ensures { (self.new, result) ≡ destroy id self.old }
    {
        match self.map.remove(&id) {
            Some(_) => Ok(()),
            None => Err(ERR_INVALID_CONTEXT_ID),
        }
    }

    /// Whether the context is live.
    pub fn has(&self, id: u32) -> bool
        ensures { result ≡ is_live id self.now }
    {
        self.map.contains_key(&id)
    }

    /// Attaches a resource, of which the caller knows that there is one, to a context, or answers ERR_INVALID_CONTEXT_ID where that
    /// isn't live. One that is attached already stays so.
    #[tactic(auto, unfolding(crate::specs::Contexts::attach))]
    pub fn attach(&mut self, id: u32, resource: u32) -> Result<Result<(), u32>, AllocError>
        ensures done { IfOk result (λ done. (self.new, done) ≡ attach id resource self.old) }
        ensures err { OnErr result (self.new ≡ self.old) }
    {
        let Some(to) = self.map.get_mut(&id) else {
            return Ok(Err(ERR_INVALID_CONTEXT_ID));
        };
        to.attach(resource)?;
        Ok(Ok(()))
    }

    /// Detaches a resource from a context, or answers the code of its refusal: ERR_INVALID_CONTEXT_ID where the context isn't live,
    /// ERR_INVALID_RESOURCE_ID where the resource isn't attached to it.
    #[tactic(auto, unfolding(crate::specs::Contexts::detach))]
    pub fn detach(&mut self, id: u32, resource: u32) -> Result<(), u32>
        ensures { (self.new, result) ≡ detach id resource self.old }
    {
        let Some(from) = self.map.get_mut(&id) else {
            return Err(ERR_INVALID_CONTEXT_ID);
        };
        if !from.has(resource) {
            return Err(ERR_INVALID_RESOURCE_ID);
        }
        from.detach(resource);
        Ok(())
    }

    /// Whether a stream of these bytes may be submitted to a context, which changes nothing; else the code of the refusal:
    /// ERR_INVALID_CONTEXT_ID where the context isn't live, ERR_UNSPEC where there are any.
    #[tactic(auto, unfolding(crate::specs::Contexts::submit))]
    pub fn submit(&self, id: u32, stream: &[u8]) -> Result<(), u32>
        ensures { (self.now, result) ≡ submit id stream.now self.now }
    {
        if !self.map.contains_key(&id) {
            return Err(ERR_INVALID_CONTEXT_ID);
        }
        if !stream.is_empty() {
            return Err(ERR_UNSPEC);
        }
        Ok(())
    }

    /// Detaches a resource from each context to which it is attached.
    pub fn forget(&mut self, resource: u32)
        ensures { self.new ≡ forgotten resource self.old }
    {
        self.map.retain(|_, context| {
            context.detach(resource);
            true
        });
    }
}

//! Contexts: each limit of one, met and passed, and what is attached to which.

use std::alloc::{AllocError, Global};
use std::test::Fail;
use vg_context::Contexts;
use vg_wire::kinds::{
    ERR_INVALID_CONTEXT_ID, ERR_INVALID_PARAMETER, ERR_INVALID_RESOURCE_ID, ERR_UNSPEC,
};

/// What is asked of contexts, of the one with this id first.
#[derive(Clone, Copy, Debug)]
enum Step {
    Create(u32, u32, u32),
    Destroy(u32),
    Attach(u32, u32),
    Detach(u32, u32),
    Submit(u32, &'static [u8]),
    /// Of a resource.
    Forget(u32),
}

const CONTEXT: Option<u32> = Some(ERR_INVALID_CONTEXT_ID);

const RESOURCE: Option<u32> = Some(ERR_INVALID_RESOURCE_ID);

const PARAMETER: Option<u32> = Some(ERR_INVALID_PARAMETER);

const UNSPEC: Option<u32> = Some(ERR_UNSPEC);

/// Steps in their order, and the code of each one's refusal.
static STEPS: [(Step, Option<u32>); 44] = [
    (Step::Create(0, 0, 0), CONTEXT),
    (Step::Create(0, 65, 1), CONTEXT),
    (Step::Create(1, 65, 0), PARAMETER),
    (Step::Create(1, 0, 1), PARAMETER),
    (Step::Create(1, 64, 255), PARAMETER),
    (Step::Destroy(1), CONTEXT),
    (Step::Create(1, 64, 256), None),
    (Step::Create(1, 0, 0), CONTEXT),
    (Step::Create(1, 65, 1), CONTEXT),
    (Step::Create(4_294_967_295, 0, 4_294_967_040), None),
    (Step::Create(257, 1, 0), None),
    (Step::Attach(2, 5), CONTEXT),
    (Step::Detach(2, 5), CONTEXT),
    (Step::Detach(1, 5), RESOURCE),
    (Step::Attach(1, 5), None),
    (Step::Attach(1, 5), None),
    (Step::Attach(1, 4), None),
    (Step::Attach(257, 5), None),
    (Step::Detach(4_294_967_295, 5), RESOURCE),
    (Step::Detach(1, 5), None),
    (Step::Detach(1, 5), RESOURCE),
    (Step::Detach(257, 4), RESOURCE),
    (Step::Submit(1, &[]), None),
    (Step::Submit(1, &[0]), UNSPEC),
    (Step::Submit(1, &[1, 0, 0, 0]), UNSPEC),
    (Step::Submit(2, &[]), CONTEXT),
    (Step::Submit(2, &[1, 0, 0, 0]), CONTEXT),
    (Step::Attach(1, 5), None),
    (Step::Forget(6), None),
    (Step::Forget(5), None),
    (Step::Detach(1, 5), RESOURCE),
    (Step::Detach(257, 5), RESOURCE),
    (Step::Detach(1, 4), None),
    (Step::Attach(1, 4), None),
    (Step::Attach(257, 4), None),
    (Step::Destroy(1), None),
    (Step::Destroy(1), CONTEXT),
    (Step::Detach(1, 4), CONTEXT),
    (Step::Submit(1, &[]), CONTEXT),
    (Step::Create(1, 0, 0), None),
    (Step::Detach(1, 4), RESOURCE),
    (Step::Detach(257, 4), None),
    (Step::Destroy(257), None),
    (Step::Destroy(4_294_967_295), None),
];

/// Takes a step, and tells the code of its refusal.
fn answer(contexts: &mut Contexts, alloc: Global, step: Step) -> Result<Option<u32>, AllocError> {
    let done = match step {
        Step::Create(id, nlen, init) => contexts.create(alloc, id, nlen, init)?,
        Step::Destroy(id) => contexts.destroy(id),
        Step::Attach(id, resource) => contexts.attach(id, resource)?,
        Step::Detach(id, resource) => contexts.detach(id, resource),
        Step::Submit(id, stream) => contexts.submit(id, stream),
        Step::Forget(resource) => {
            contexts.forget(resource);
            Ok(())
        }
    };
    Ok(done.err())
}

#[test]
fn each_step_is_answered_as_the_ones_before_left_the_contexts(rt: HostRuntime) -> Result<(), Fail> {
    let mut contexts = Contexts::new(rt.alloc());
    for (i, (asked, wanted)) in STEPS.iter().enumerate() {
        let code = answer(&mut contexts, rt.alloc(), *asked)?;
        assert!(&rt; code == *wanted, "{i}: {asked:?} gave {code:?}");
    }
    assert!(&rt; contexts.has(1) && !contexts.has(257));
    Ok(())
}

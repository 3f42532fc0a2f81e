//! What a request may name.

/// What a request names that may be away while another command is under way, by the ids of the
/// standard.
#[derive(Clone, Copy)]
pub enum Named {
    Nothing,
    /// The resource of RESOURCE_UNREF, RESOURCE_ATTACH_BACKING, RESOURCE_DETACH_BACKING or
    /// UPDATE_CURSOR, which has 0 for none.
    Resource { id: u32 },
    /// The resource of RESOURCE_FLUSH.
    Flush { id: u32 },
    /// The resource of TRANSFER_TO_HOST_2D.
    Transfer { id: u32 },
    /// The context that CTX_DESTROY ends.
    Context { id: u32 },
}

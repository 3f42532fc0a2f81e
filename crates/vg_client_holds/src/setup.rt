//! What is settled before the first client enters.

ghost use Rattle.std.specs.Prelude.{◌≡◌, ◌≤◌, ℕ};
ghost use Rattle.vg_config.specs.Features.{IsFaultless};
ghost use Rattle.vg_client_holds.specs.Setup.{AreAccepted, parties};

use vg_list::Seq;

/// What no command and no act changes.
#[derive(Drop)]
pub struct Setup {
    /// Width and height of each scanout's display in pixels, from scanout 0: 1 to 16 displays, at most
    /// 640 by 480 with the queues of version 1, and 1,920 by 1,080 with those of version 2.
    pub displays: Seq<(u32, u32)>,
    /// How many guest pages of 4,096 bytes there are: 1 to 16,384.
    pub pages: u32,
    /// The feature bits that were accepted (VIRTIO 1.2, 2.2 and 5.7.3).
    pub accepted: u64,
    /// How many clients there are: at most 16 with the queues of version 1, and 32 with those of version 2.
    pub clients: u32,
    /// How many descriptors the control queue and the cursor queue have: 64 and 16 in version 1, 256 and 64 in version 2.
    pub queues: (u16, u16),
    /// Whether there is a host, a client behind the last one, which plugs and unplugs displays: in version 2 alone.
    pub host: bool,
}

/// How many clients there are with the host, where there is one: it is the last of them.
pub fn parties(clients: u32, host: bool) -> u32
    requires { clients ≤ 32 }
    ensures { result ≡ parties clients host }
{
    if host { clients + 1 } else { clients }
}

/// A law, and no work: a device accepts the features of each setup, since none of their bits is faulty.
pub fn accepted_features_are_faultless()
    ensures { (accepted : ℕ) → AreAccepted accepted → IsFaultless accepted }
{}

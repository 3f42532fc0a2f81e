//! What the display machine answers where no script of one client asks it: rows/ has the rest.

mod acts;
mod leases;
mod rig;

//! Values worked out by hand from VIRTIO 1.2, 2.1, 2.2, 5.7.3 and 5.7.4.

use std::test::Fail;
use vg_config::{Config, Negotiation, Refused};

/// Features that a driver accepts, and the faulty bits among them.
static FAULTY: [(u64, u64); 10] = [
    (0x1_3000_001f, 0),
    (0x1_1000_001f, 0),
    (0x1_0000_0000, 0),
    (0x1_0000_0001, 0),
    (0x1_0000_0010, 0x10),
    (0x1_0000_0020, 0x20),
    (0x0_0000_0000, 0x1_0000_0000),
    (0x0_1000_001f, 0x1_0000_0000),
    (0x8000_0001_4000_001e, 0x8000_0000_4000_0010),
    (0xffff_ffff_ffff_ffff, 0xffff_fffe_cfff_ffe0),
];

#[test]
fn faulty_bits_are_refused(rt: HostRuntime) {
    for (bits, faulty) in FAULTY {
        let mut negotiation = Negotiation::offer();
        let wanted = if faulty == 0 {
            Ok(())
        } else {
            Err(Refused { bits: faulty })
        };
        assert!(rt; negotiation.accept(bits) == wanted, "{bits:#x}");
    }
}

fn stands(negotiation: &Negotiation, status: u8, accepted: u64) -> bool {
    negotiation.status() == status && negotiation.accepted() == accepted
}

#[test]
fn the_status_rises(rt: HostRuntime) -> Result<(), Fail> {
    let mut negotiation = Negotiation::offer();
    assert!(rt; stands(&negotiation, 3, 0));
    match negotiation.accept(0x1_0000_0003) {
        Ok(()) => negotiation.features_ok(),
        Err(_) => return Err(Fail::from("the features were refused")),
    }
    assert!(rt; stands(&negotiation, 11, 0x1_0000_0003));
    assert!(rt; negotiation.accept(0x0_0000_0003).is_err());
    assert!(rt; stands(&negotiation, 11, 0x1_0000_0003));
    negotiation.driver_ok();
    assert!(rt; stands(&negotiation, 15, 0x1_0000_0003));
    Ok(())
}

#[test]
fn the_configuration_has_its_fields_at_their_places(rt: HostRuntime) {
    let config = Config {
        events_read: 0x0403_0201,
        events_clear: 0x0807_0605,
        num_scanouts: 0x0c0b_0a09,
        num_capsets: 0x100f_0e0d,
    };
    let bytes = [1u8, 2, 3, 4, 5, 6, 7, 8, 9, 10, 11, 12, 13, 14, 15, 16];
    assert!(rt; config.bytes().as_slice() == bytes.as_slice());
}

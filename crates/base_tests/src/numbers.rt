//! The calls at the ends of their types.

use wasm_num::{ConvOp, Num, convert, laws};

mod at_32_bits;
mod at_64_bits;

#[test]
fn conversions(rt: HostRuntime) {
    for (a, wrapped) in [
        (0, 0),
        (1, 1),
        (u64::MAX, u32::MAX),
        (0x8000_0000_0000_0000, 0),
        (0x7fff_ffff_ffff_ffff, u32::MAX),
        (0xffff_ffff_8000_0000, 0x8000_0000),
        (0x1_5555_5555, 0x5555_5555),
        (0x1_0000_0000, 0),
    ] {
        assert_eq!(rt;
            convert(ConvOp::Wrap, Num::I64(a)),
            Num::I32(wrapped),
            "{a:#x}"
        );
    }
    for (a, signed) in [
        (0, 0),
        (1, 1),
        (u32::MAX, u64::MAX),
        (0x8000_0000, 0xffff_ffff_8000_0000),
        (0x7fff_ffff, 0x7fff_ffff),
        (0x5555_5555, 0x5555_5555),
        (0xaaaa_aaaa, 0xffff_ffff_aaaa_aaaa),
    ] {
        assert_eq!(rt;
            convert(ConvOp::ExtendS, Num::I32(a)),
            Num::I64(signed),
            "{a:#x}"
        );
        assert_eq!(rt;
            convert(ConvOp::ExtendU, Num::I32(a)),
            Num::I64(u64::from(a)),
            "{a:#x}"
        );
    }
}

#[test]
fn laws_hold_without_a_step() {
    laws::worked_cases();
    laws::quotients_and_remainders();
    laws::rotations();
    laws::extensions();
    laws::ones_and_zeros();
    laws::readings();
    laws::shifts();
}

//! Which modules are refused, and where the profile ends.

use crate::cases::*;
use crate::making::{BODY, Part, body, decoded, each, is_taken, sections, with_preamble};
use crate::samples::*;
use std::alloc::Global;
use std::test::Fail;
use wasm_grammar::{DecodeError, Foreign};

#[test]
fn spellings_of_numbers(rt: HostRuntime) -> Result<(), Fail> {
    each(&rt, rt.alloc(), Part::Sections, &TAKEN_NUMBERS, None)?;
    each(
        &rt,
        rt.alloc(),
        Part::Sections,
        &REFUSED_NUMBERS,
        Some(DecodeError::Malformed),
    )
}

#[test]
fn the_order_of_sections(rt: HostRuntime) -> Result<(), Fail> {
    each(&rt, rt.alloc(), Part::Sections, &ORDERED, None)?;
    each(
        &rt,
        rt.alloc(),
        Part::Sections,
        &DISORDERED,
        Some(DecodeError::Malformed),
    )
}

#[test]
fn counts_that_tell_too_much_end_at_once(rt: HostRuntime) -> Result<(), Fail> {
    each(
        &rt,
        rt.alloc(),
        Part::Sections,
        &TOO_MANY,
        Some(DecodeError::Malformed),
    )
}

#[test]
fn code_entries_of_their_size(rt: HostRuntime) -> Result<(), Fail> {
    each(&rt, rt.alloc(), Part::Sections, &EXACT_ENTRIES, None)?;
    each(
        &rt,
        rt.alloc(),
        Part::Sections,
        &WRONG_ENTRIES,
        Some(DecodeError::Malformed),
    )
}

#[test]
fn sections_agree(rt: HostRuntime) -> Result<(), Fail> {
    each(&rt, rt.alloc(), Part::Sections, &AGREEING, None)?;
    each(
        &rt,
        rt.alloc(),
        Part::Sections,
        &DISAGREEING,
        Some(DecodeError::Malformed),
    )
}

#[test]
fn sections_cut_at_each_of_their_bytes(rt: HostRuntime) -> Result<(), Fail> {
    each(
        &rt,
        rt.alloc(),
        Part::Sections,
        &CUT_SECTIONS,
        Some(DecodeError::Malformed),
    )
}

#[test]
fn modules_that_call_and_add(rt: HostRuntime) -> Result<(), Fail> {
    assert!(rt; is_taken(rt.alloc(), &ADD)?);
    assert!(rt; is_taken(rt.alloc(), &IDENTITY)?);
    assert!(rt; is_taken(rt.alloc(), &CALLS)?);
    assert!(rt; is_taken(rt.alloc(), &HANDS_ON)?);
    Ok(())
}

#[test]
fn modules_with_tables_and_memories(rt: HostRuntime) -> Result<(), Fail> {
    assert!(rt; is_taken(rt.alloc(), &TABLES)?);
    assert!(rt; is_taken(rt.alloc(), &MEMORY)?);
    assert!(rt; is_taken(rt.alloc(), &PAGES)?);
    assert!(rt; is_taken(rt.alloc(), &READS)?);
    Ok(())
}

#[test]
fn modules_that_hand_on_and_start(rt: HostRuntime) -> Result<(), Fail> {
    assert!(rt; is_taken(rt.alloc(), &REEXPORT)?);
    assert!(rt; is_taken(rt.alloc(), &TWO_IMPORTS)?);
    assert!(rt; is_taken(rt.alloc(), &STARTS)?);
    assert!(rt; is_taken(rt.alloc(), &APP)?);
    Ok(())
}

fn outside(place: u64, what: Foreign) -> Option<DecodeError> {
    Some(DecodeError::Outside { place, what })
}

#[test]
fn a_float_is_outside_and_a_cut_module_malformed(rt: HostRuntime) -> Result<(), Fail> {
    let alloc = rt.alloc();
    assert_eq!(rt; decoded(alloc, &FLOATS)?.err(), outside(13, Foreign::Float));
    let (cut, _) = FLOATS.split_at(14);
    assert_eq!(rt; decoded(alloc, cut)?.err(), Some(DecodeError::Malformed));
    Ok(())
}

#[test]
fn the_first_of_two_leaves(rt: HostRuntime) -> Result<(), Fail> {
    let types = [0x01, 0x06, 0x01, 0x60, 0x01, 0x7B, 0x01, 0x7D];
    assert_eq!(rt;
        sections(rt.alloc(), &types)?.err(),
        outside(13, Foreign::Simd)
    );
    Ok(())
}

#[test]
fn a_vector_in_a_body_ends_it(rt: HostRuntime) -> Result<(), Fail> {
    let module = [
        0x01, 0x04, 0x01, 0x60, 0x00, 0x00, 0x03, 0x02, 0x01, 0x00, 0x0A, 0x08, 0x01, 0x06, 0x00,
        0x02, 0x40, 0xFD, 0x09, 0x09,
    ];
    assert_eq!(rt;
        sections(rt.alloc(), &module)?.err(),
        outside(25, Foreign::Simd)
    );
    Ok(())
}

#[test]
fn a_vector_in_a_constant_expression(rt: HostRuntime) -> Result<(), Fail> {
    let global = [
        0x06, 0x16, 0x01, 0x7F, 0x00, 0xFD, 0x0C, 0, 0, 0, 0, 0, 0, 0, 0, 0, 0, 0, 0, 0, 0, 0, 0,
        0x0B,
    ];
    assert_eq!(rt;
        sections(rt.alloc(), &global)?.err(),
        outside(13, Foreign::Simd)
    );
    let other = [0x06, 0x06, 0x01, 0x7F, 0x00, 0xFD, 0x0D, 0x0B];
    assert_eq!(rt;
        sections(rt.alloc(), &other)?.err(),
        Some(DecodeError::Malformed)
    );
    Ok(())
}

#[test]
fn counts_that_tell_too_much_in_each_vector(rt: HostRuntime) -> Result<(), Fail> {
    let malformed = Some(DecodeError::Malformed);
    each(
        &rt,
        rt.alloc(),
        Part::Sections,
        &TOO_MANY_ELSEWHERE,
        malformed,
    )?;
    each(&rt, rt.alloc(), Part::Body, &TOO_MANY_IN_CODE, malformed)
}

#[test]
fn each_refusal_of_a_section(rt: HostRuntime) -> Result<(), Fail> {
    let malformed = Some(DecodeError::Malformed);
    each(
        &rt,
        rt.alloc(),
        Part::Sections,
        &REFUSED_SECTIONS,
        malformed,
    )
}

#[test]
fn each_refusal_of_code(rt: HostRuntime) -> Result<(), Fail> {
    let malformed = Some(DecodeError::Malformed);
    each(&rt, rt.alloc(), Part::Body, &REFUSED_BODIES, malformed)?;
    each(&rt, rt.alloc(), Part::Body, &TAKEN_BODIES, None)
}

#[test]
fn floating_instructions_are_outside(rt: HostRuntime) -> Result<(), Fail> {
    each(
        &rt,
        rt.alloc(),
        Part::Body,
        &FLOATING_BODIES,
        outside(BODY, Foreign::Float),
    )
}

#[test]
fn a_preamble_of_another_magic_or_version(rt: HostRuntime) -> Result<(), Fail> {
    let alloc = rt.alloc();
    let malformed = Some(DecodeError::Malformed);
    assert_eq!(rt; decoded(alloc, b"\0asn\x01\0\0\0")?.err(), malformed);
    assert_eq!(rt; decoded(alloc, b"\0asm\x02\0\0\0")?.err(), malformed);
    assert_eq!(rt; decoded(alloc, b"\0asm\x01\0\0\x01")?.err(), malformed);
    assert_eq!(rt; decoded(alloc, b"\0asm\x01\0\0\0")?.err(), None);
    Ok(())
}

#[test]
fn a_foreign_type_behind_other_bytes(rt: HostRuntime) -> Result<(), Fail> {
    // a type with a double and a vector, and a custom section of three bytes
    let types = [
        0x01, 0x07, 0x01, 0x60, 0x02, 0x7F, 0x7C, 0x01, 0x7B, 0x00, 0x01, 0x00,
    ];
    assert_eq!(rt;
        sections(rt.alloc(), &types)?.err(),
        outside(14, Foreign::Float)
    );
    assert_eq!(rt;
        body(rt.alloc(), &[0x03, 0x7B, 0x0B, 0x0B])?.err(),
        outside(BODY + 1, Foreign::Simd)
    );
    Ok(())
}

/// A module with something put in at a place.
fn with_custom(alloc: Global, place: usize, custom: &[u8]) -> Result<Vec<u8>, Fail> {
    let bytes: &[u8] = &MEMORY;
    let place = if place > bytes.len() { 0 } else { place };
    let (front, back) = bytes.split_at(place);
    let mut all = front.to_vec(alloc)?;
    all.extend_from_slice(custom)?;
    all.extend_from_slice(back)?;
    Ok(all)
}

/// Where the sections of `MEMORY` begin and end.
static BORDERS: [usize; 8] = [8, 15, 26, 30, 35, 44, 52, 63];

#[test]
fn a_custom_section_at_each_place(rt: HostRuntime) -> Result<(), Fail> {
    let alloc = rt.alloc();
    for border in &BORDERS {
        let bytes = with_custom(alloc, *border, &[0x00, 0x04, 0x01, 0x63, 0x09, 0x09])?;
        assert!(rt; is_taken(alloc, bytes.as_slice())?);
        let bytes = with_custom(alloc, *border, &[0x00, 0x02, 0x05, 0x63])?;
        assert_eq!(rt;
            decoded(alloc, bytes.as_slice())?.err(),
            Some(DecodeError::Malformed)
        );
    }
    Ok(())
}

#[test]
fn a_module_cut_at_each_byte(rt: HostRuntime) -> Result<(), Fail> {
    let alloc = rt.alloc();
    let bytes: &[u8] = &MEMORY;
    for end in 0..bytes.len() {
        let (cut, _) = bytes.split_at(end);
        let is_whole = end == 8 || end == 15 || end == 26 || end == 52;
        assert_eq!(rt; is_taken(alloc, cut)?, is_whole);
    }
    Ok(())
}

use std::test::Fail;
use wasm_grammar::{
    ReadError, read_bytes, read_name, read_s32, read_s64, read_type_index, read_u32, skip_custom,
};

#[test]
fn unsigned_integers_of_32_bits(rt: HostRuntime) {
    assert_eq!(rt; read_u32(&[0x05, 0x09]), Ok((5, [0x09].as_slice())));
    assert_eq!(rt; read_u32(&[0xE5, 0x8E, 0x26]), Ok((624485, [].as_slice())));
    assert_eq!(rt;
        read_u32(&[0x85, 0x80, 0x80, 0x80, 0x00]),
        Ok((5, [].as_slice()))
    );
    assert_eq!(rt;
        read_u32(&[0xFF, 0xFF, 0xFF, 0xFF, 0x0F]),
        Ok((0xFFFF_FFFF, [].as_slice()))
    );
    assert_eq!(rt;
        read_u32(&[0xFF, 0xFF, 0xFF, 0xFF, 0x1F]),
        Err(ReadError::Malformed)
    );
    assert_eq!(rt;
        read_u32(&[0x85, 0x80, 0x80, 0x80, 0x80, 0x00]),
        Err(ReadError::Malformed)
    );
    assert_eq!(rt; read_u32(&[0x85]), Err(ReadError::Malformed));
    assert_eq!(rt; read_u32(&[]), Err(ReadError::Malformed));
}

#[test]
fn signed_integers_as_words(rt: HostRuntime) {
    assert_eq!(rt; read_s32(&[0x7F]), Ok((0xFFFF_FFFF, [].as_slice())));
    assert_eq!(rt;
        read_s32(&[0xC0, 0xBB, 0x78]),
        Ok((0xFFFE_1DC0, [].as_slice()))
    );
    assert_eq!(rt;
        read_s32(&[0xFF, 0xFF, 0xFF, 0xFF, 0x7F]),
        Ok((0xFFFF_FFFF, [].as_slice()))
    );
    assert_eq!(rt;
        read_s32(&[0x80, 0x80, 0x80, 0x80, 0x78]),
        Ok((0x8000_0000, [].as_slice()))
    );
    assert_eq!(rt;
        read_s32(&[0xFF, 0xFF, 0xFF, 0xFF, 0x0F]),
        Err(ReadError::Malformed)
    );
    assert_eq!(rt;
        read_s32(&[0x80, 0x80, 0x80, 0x80, 0x70]),
        Err(ReadError::Malformed)
    );
    assert_eq!(rt;
        read_s64(&[0x80, 0x7F]),
        Ok((0xFFFF_FFFF_FFFF_FF80, [].as_slice()))
    );
    let least = [0x80, 0x80, 0x80, 0x80, 0x80, 0x80, 0x80, 0x80, 0x80, 0x7F];
    assert_eq!(rt;
        read_s64(&least),
        Ok((0x8000_0000_0000_0000, [].as_slice()))
    );
    let cut = [0x80, 0x80, 0x80, 0x80, 0x80, 0x80, 0x80, 0x80, 0x80, 0x01];
    assert_eq!(rt; read_s64(&cut), Err(ReadError::Malformed));
    assert_eq!(rt;
        read_type_index(&[0xFF, 0xFF, 0xFF, 0xFF, 0x0F]),
        Ok((0xFFFF_FFFF, [].as_slice()))
    );
    assert_eq!(rt; read_type_index(&[0x40]), Err(ReadError::Malformed));
    assert_eq!(rt; read_type_index(&[0x7F]), Err(ReadError::Malformed));
    assert_eq!(rt; read_type_index(&[0x85, 0x00]), Ok((5, [].as_slice())));
}

#[test]
fn names_are_utf_8(rt: HostRuntime) -> Result<(), Fail> {
    let bytes = [0x03, b'a', 0xC3, 0xA4, 0x07];
    let (name, rest) = read_name(rt.alloc(), &bytes)?;
    assert_eq!(rt; name.as_str(), "aä");
    assert_eq!(rt; rest.len(), 1);
    assert!(rt; read_name(rt.alloc(), &[0x02, b'a', 0xC3]).is_err());
    assert!(rt; read_name(rt.alloc(), &[0x03, b'a']).is_err());
    assert_eq!(rt;
        read_bytes(&[0x02, 0x09, 0x08, 0x07]),
        Ok(([0x09, 0x08].as_slice(), [0x07].as_slice()))
    );
    Ok(())
}

#[test]
fn a_name_of_1000_bytes(rt: HostRuntime) -> Result<(), Fail> {
    let mut bytes = Vec::new(rt.alloc());
    bytes.extend_from_slice(&[0xE8, 0x07])?;
    for _ in 0..1000 {
        bytes.push(b'n')?;
    }
    bytes.push(0x09)?;
    let (name, rest) = read_name(rt.alloc(), bytes.as_slice())?;
    assert_eq!(rt; name.as_str().len(), 1000);
    assert_eq!(rt; rest.len(), 1);
    Ok(())
}

/// How many bytes stand behind the custom section at the front.
fn behind_custom(bytes: &[u8]) -> Option<usize> {
    match skip_custom(bytes) {
        Ok(rest) => Some(rest.len()),
        Err(_) => None,
    }
}

#[test]
fn custom_sections(rt: HostRuntime) {
    assert_eq!(rt;
        behind_custom(&[0x04, 0x01, b'c', 0x09, 0x09, 0x07]),
        Some(1)
    );
    assert_eq!(rt; behind_custom(&[0x02, 0x05, b'c']), None);
}

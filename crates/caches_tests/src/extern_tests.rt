//! One address for each value of the host.

use crate::realm::Realm;
use crate::samples::{Sample, value_of};
use host_values::HostValue;
use std::alloc::{AllocError, Global};
use std::test::Fail;
use wasm_syntax::{ExternAddr, Value};

/// Values of which no two are `===`.
static VALUES: [Sample; 25] = [
    Sample::Undefined,
    Sample::Null,
    Sample::Bool(false),
    Sample::Bool(true),
    Sample::Number(0),
    Sample::Number(1),
    Sample::Number(-1),
    Sample::Number(9_007_199_254_740_991),
    Sample::Number(-9_007_199_254_740_991),
    Sample::BigInt(0),
    Sample::BigInt(1),
    Sample::BigInt(-1),
    Sample::BigInt(9_007_199_254_740_991),
    Sample::BigInt(170_141_183_460_469_231_731_687_303_715_884_105_727),
    Sample::BigInt(-170_141_183_460_469_231_731_687_303_715_884_105_728),
    Sample::Text(""),
    Sample::Text("0"),
    Sample::Text("1"),
    Sample::Text("undefined"),
    Sample::Text("null"),
    Sample::Text("a"),
    Sample::Text("ab"),
    Sample::Text("b"),
    Sample::Object(0),
    Sample::Object(1),
];

/// Whether a sample's value has this address.
fn is_address(realm: &mut Realm, alloc: Global, sample: Sample, address: u64) -> bool {
    match value_of(alloc, sample) {
        Ok(value) => realm.is_extern(alloc, value, address),
        Err(_) => false,
    }
}

/// Whether each value has the address that is its place.
fn are_in_order(realm: &mut Realm, alloc: Global) -> bool {
    let mut place = 0_u64;
    for sample in VALUES.iter() {
        if !is_address(realm, alloc, *sample, place) {
            return false;
        }
        place = place.wrapping_add(1);
    }
    true
}

/// Whether each address is shown as its value.
fn come_back(realm: &mut Realm, alloc: Global) -> bool {
    let mut place = 0_u64;
    for sample in VALUES.iter() {
        if !realm.shows(alloc, Value::Extern(ExternAddr(place)), *sample) {
            return false;
        }
        place = place.wrapping_add(1);
    }
    true
}

/// Equal values are found again, also where they are made anew; unequal ones have addresses of their own.
fn one_address(alloc: Global) -> Result<bool, AllocError> {
    let mut realm = Realm::new(alloc)?;
    Ok(
        are_in_order(&mut realm, alloc)
            && are_in_order(&mut realm, alloc)
            && come_back(&mut realm, alloc)
            && are_in_order(&mut realm, alloc),
    )
}

#[test]
fn values_have_one_address_up_to_strict_equality(rt: HostRuntime) -> Result<(), Fail> {
    assert!(rt; one_address(rt.alloc())?, "an address for each value");
    Ok(())
}

/// Whether so many Numbers have addresses in this order.
fn are_numbers(realm: &mut Realm, alloc: Global, count: i64) -> bool {
    let mut place = 0_u64;
    for number in 0..count {
        if !realm.is_extern(alloc, HostValue::Number(number), place) {
            return false;
        }
        place = place.wrapping_add(1);
    }
    true
}

fn numbers(alloc: Global, count: i64) -> Result<bool, AllocError> {
    let mut realm = Realm::new(alloc)?;
    Ok(are_numbers(&mut realm, alloc, count) && are_numbers(&mut realm, alloc, count))
}

#[test]
fn many_values(rt: HostRuntime) -> Result<(), Fail> {
    assert!(rt; numbers(rt.alloc(), 50_000)?, "an address for each Number");
    Ok(())
}

use embed_base::SharedString;
use host_values::{Callee, ErrorClass, Heap, HostValue, Key, Kind, ObjId};
use promise_jobs::{Handler, Job, Promises, Settled};
use std::alloc::Global;
use std::test::Fail;

// Whether the next job is a reaction with this handler, end, number and derived pair.
fn reacts(
    promises: &mut Promises,
    with: Handler,
    end: Settled,
    number: i64,
    pair: Option<u64>,
) -> bool {
    match promises.take_job() {
        Some(
            Job::React {
                handler,
                how,
                value: HostValue::Number(value),
                derived,
            },
        ) => handler == with && how == end && value == number && derived == pair,
        _ => false,
    }
}

// Whether the next job calls the `then` of an object with a pair.
fn calls_then(
    promises: &mut Promises,
    number: u64,
    target: ObjId,
    function: Option<ObjId>,
) -> bool {
    match promises.take_job() {
        Some(
            Job::Thenable {
                pair,
                object: HostValue::Object(object),
                then,
            },
        ) => pair == number && object == target && then == function,
        _ => false,
    }
}

// Adds a reaction to a promise, where it is there.
fn then(
    promises: &mut Promises,
    promise: u64,
    ok: Handler,
    err: Handler,
    derived: Option<u64>,
) -> Result<(), Fail> {
    if !promises.has_promise(promise) {
        return Err("no such promise".into());
    }
    promises.then(promise, ok, err, derived)?;
    Ok(())
}

// Resolves by a pair, where the pair and the value are there.
fn resolve(
    alloc: Global,
    heap: &mut Heap,
    promises: &mut Promises,
    pair: u64,
    value: HostValue,
) -> Result<(), Fail> {
    if !promises.has_pair(pair) || !heap.has_value(&value) {
        return Err("no such pair or value".into());
    }
    promises.resolve(alloc, heap, pair, value)?;
    Ok(())
}

// Rejects by a pair, where it is there.
fn reject(alloc: Global, promises: &mut Promises, pair: u64, value: HostValue) -> Result<(), Fail> {
    if !promises.has_pair(pair) {
        return Err("no such pair".into());
    }
    promises.reject(alloc, pair, value)?;
    Ok(())
}

// The promise that a value resolves to, where the value is there.
fn resolved(
    alloc: Global,
    heap: &mut Heap,
    promises: &mut Promises,
    value: HostValue,
) -> Result<ObjId, Fail> {
    if !heap.has_value(&value) {
        return Err("no such value".into());
    }
    Ok(promises.promise_resolve(alloc, heap, value)?)
}

// Whether no job is left.
fn is_idle(promises: &mut Promises) -> bool {
    promises.take_job().is_none()
}

#[test]
fn reactions_are_queued_in_order_when_their_promise_is_settled(
    rt: HostRuntime,
) -> Result<(), Fail> {
    let alloc = rt.alloc();
    let mut heap = Heap::new(alloc, 0)?;
    let mut promises = Promises::new(alloc);
    assert!(rt; is_idle(&mut promises));
    let (object, pair) = promises.new_promise(alloc, &mut heap)?;
    assert_eq!(rt; object, ObjId(1));
    assert_eq!(rt; pair, 0);
    assert!(rt; matches!(heap.kind(object), Kind::Promise(0)));
    then(
        &mut promises,
        0,
        Handler::Call(ObjId(0)),
        Handler::Pass,
        Some(7),
    )?;
    then(
        &mut promises,
        0,
        Handler::Pass,
        Handler::Call(ObjId(0)),
        Some(8),
    )?;
    then(
        &mut promises,
        0,
        Handler::Resume(3),
        Handler::Resume(3),
        None,
    )?;
    assert!(rt; is_idle(&mut promises));
    resolve(alloc, &mut heap, &mut promises, pair, HostValue::Number(5))?;
    assert!(rt;
        reacts(
            &mut promises,
            Handler::Call(ObjId(0)),
            Settled::Fulfilled,
            5,
            Some(7)
        )
    );
    assert!(rt; reacts(&mut promises, Handler::Pass, Settled::Fulfilled, 5, Some(8)));
    assert!(rt;
        reacts(
            &mut promises,
            Handler::Resume(3),
            Settled::Fulfilled,
            5,
            None
        )
    );
    assert!(rt; is_idle(&mut promises));
    Ok(())
}

#[test]
fn a_reason_goes_to_the_second_handler(rt: HostRuntime) -> Result<(), Fail> {
    let alloc = rt.alloc();
    let mut heap = Heap::new(alloc, 0)?;
    let mut promises = Promises::new(alloc);
    let (_, pair) = promises.new_promise(alloc, &mut heap)?;
    then(
        &mut promises,
        0,
        Handler::Call(ObjId(0)),
        Handler::Pass,
        Some(7),
    )?;
    then(
        &mut promises,
        0,
        Handler::Pass,
        Handler::Call(ObjId(0)),
        Some(8),
    )?;
    reject(alloc, &mut promises, pair, HostValue::Number(6))?;
    assert!(rt; reacts(&mut promises, Handler::Pass, Settled::Rejected, 6, Some(7)));
    assert!(rt;
        reacts(
            &mut promises,
            Handler::Call(ObjId(0)),
            Settled::Rejected,
            6,
            Some(8)
        )
    );
    assert!(rt; is_idle(&mut promises));
    Ok(())
}

#[test]
fn a_pair_acts_once(rt: HostRuntime) -> Result<(), Fail> {
    let alloc = rt.alloc();
    let mut heap = Heap::new(alloc, 0)?;
    let mut promises = Promises::new(alloc);
    let (_, pair) = promises.new_promise(alloc, &mut heap)?;
    resolve(alloc, &mut heap, &mut promises, pair, HostValue::Number(1))?;
    resolve(alloc, &mut heap, &mut promises, pair, HostValue::Number(2))?;
    reject(alloc, &mut promises, pair, HostValue::Number(3))?;
    then(&mut promises, 0, Handler::Pass, Handler::Pass, None)?;
    assert!(rt; reacts(&mut promises, Handler::Pass, Settled::Fulfilled, 1, None));
    assert!(rt; is_idle(&mut promises));
    Ok(())
}

#[test]
fn a_settled_promise_queues_a_reaction_at_once(rt: HostRuntime) -> Result<(), Fail> {
    let alloc = rt.alloc();
    let mut heap = Heap::new(alloc, 0)?;
    let mut promises = Promises::new(alloc);
    let (_, pair) = promises.new_promise(alloc, &mut heap)?;
    reject(alloc, &mut promises, pair, HostValue::Number(4))?;
    then(
        &mut promises,
        0,
        Handler::Pass,
        Handler::Call(ObjId(0)),
        Some(2),
    )?;
    then(
        &mut promises,
        0,
        Handler::Call(ObjId(0)),
        Handler::Pass,
        Some(3),
    )?;
    assert!(rt;
        reacts(
            &mut promises,
            Handler::Call(ObjId(0)),
            Settled::Rejected,
            4,
            Some(2)
        )
    );
    assert!(rt; reacts(&mut promises, Handler::Pass, Settled::Rejected, 4, Some(3)));
    assert!(rt; is_idle(&mut promises));
    Ok(())
}

#[test]
fn a_promise_that_resolves_with_itself_is_rejected(rt: HostRuntime) -> Result<(), Fail> {
    let alloc = rt.alloc();
    let mut heap = Heap::new(alloc, 0)?;
    let mut promises = Promises::new(alloc);
    let (object, pair) = promises.new_promise(alloc, &mut heap)?;
    then(
        &mut promises,
        0,
        Handler::Pass,
        Handler::Call(ObjId(0)),
        None,
    )?;
    resolve(
        alloc,
        &mut heap,
        &mut promises,
        pair,
        HostValue::Object(object),
    )?;
    let Some(
        Job::React {
            handler: Handler::Call(ObjId(0)),
            how: Settled::Rejected,
            value: HostValue::Object(ObjId(2)),
            derived: None,
        },
    ) = promises.take_job()
    else {
        return Err("no job with the error".into());
    };
    assert!(rt; is_idle(&mut promises));
    if !heap.has_object(ObjId(2)) {
        return Err("no object".into());
    }
    let Kind::Error { class, message } = heap.kind(ObjId(2)) else {
        return Err("no error".into());
    };
    assert_eq!(rt; *class, ErrorClass::TypeError);
    assert_eq!(rt; message.as_str(), "");
    Ok(())
}

#[test]
fn a_promise_is_waited_for_one_job_later(rt: HostRuntime) -> Result<(), Fail> {
    let alloc = rt.alloc();
    let mut heap = Heap::new(alloc, 0)?;
    let mut promises = Promises::new(alloc);
    let (_, outer) = promises.new_promise(alloc, &mut heap)?;
    let (inner_object, inner) = promises.new_promise(alloc, &mut heap)?;
    then(&mut promises, 0, Handler::Pass, Handler::Pass, Some(9))?;
    resolve(alloc, &mut heap, &mut promises, inner, HostValue::Number(1))?;
    resolve(
        alloc,
        &mut heap,
        &mut promises,
        outer,
        HostValue::Object(inner_object),
    )?;
    // The outer promise is still pending: the job alone calls `then` of the inner one, with a new pair.
    assert!(rt; calls_then(&mut promises, 2, inner_object, None));
    assert!(rt; is_idle(&mut promises));
    resolve(alloc, &mut heap, &mut promises, 2, HostValue::Number(1))?;
    assert!(rt; reacts(&mut promises, Handler::Pass, Settled::Fulfilled, 1, Some(9)));
    assert!(rt; is_idle(&mut promises));
    Ok(())
}

// A plain object whose `then` is a value.
fn with_then(alloc: Global, heap: &mut Heap, value: HostValue) -> Result<ObjId, Fail> {
    let object = heap.add(alloc, Kind::Plain)?;
    let key = Key::Name(SharedString::from_str(alloc, "then")?);
    let _ = heap.set(alloc, &HostValue::Object(object), &key, value)?;
    Ok(object)
}

// What a value resolves as, with nothing else there: the next job is the call of its `then`, or its promise is fulfilled.
fn is_waited_for(
    alloc: Global,
    heap: &mut Heap,
    value: HostValue,
    object: ObjId,
    function: Option<ObjId>,
) -> Result<bool, Fail> {
    let mut promises = Promises::new(alloc);
    let (_, pair) = promises.new_promise(alloc, heap)?;
    resolve(alloc, heap, &mut promises, pair, value)?;
    Ok(calls_then(&mut promises, 1, object, function))
}

#[test]
fn an_object_with_a_callable_then_is_waited_for(rt: HostRuntime) -> Result<(), Fail> {
    let alloc = rt.alloc();
    let mut heap = Heap::new(alloc, 0)?;
    let print = HostValue::Object(ObjId(0));
    let waited = with_then(alloc, &mut heap, print)?;
    let value = HostValue::Object(waited);
    assert!(rt; is_waited_for(alloc, &mut heap, value, waited, Some(ObjId(0)))?);
    let plain = with_then(alloc, &mut heap, HostValue::Number(1))?;
    let value = HostValue::Object(plain);
    assert!(rt; !is_waited_for(alloc, &mut heap, value, plain, None)?);
    let array = heap.add(alloc, Kind::Array)?;
    let value = HostValue::Object(array);
    assert!(rt; !is_waited_for(alloc, &mut heap, value, array, None)?);
    let function = heap.add(alloc, Kind::Function(Callee::Print))?;
    let value = HostValue::Object(function);
    assert!(rt; !is_waited_for(alloc, &mut heap, value, function, None)?);
    Ok(())
}

#[test]
fn a_promise_resolves_to_itself_and_any_other_value_to_a_new_one(
    rt: HostRuntime,
) -> Result<(), Fail> {
    let alloc = rt.alloc();
    let mut heap = Heap::new(alloc, 0)?;
    let mut promises = Promises::new(alloc);
    let first = resolved(alloc, &mut heap, &mut promises, HostValue::Number(5))?;
    assert_eq!(rt; first, ObjId(1));
    let same = resolved(alloc, &mut heap, &mut promises, HostValue::Object(first))?;
    assert_eq!(rt; same, first);
    assert!(rt; is_idle(&mut promises));
    then(&mut promises, 0, Handler::Pass, Handler::Pass, Some(4))?;
    assert!(rt; reacts(&mut promises, Handler::Pass, Settled::Fulfilled, 5, Some(4)));
    assert!(rt; is_idle(&mut promises));
    Ok(())
}

#[test]
fn a_thenable_resolves_to_a_new_promise_that_waits(rt: HostRuntime) -> Result<(), Fail> {
    let alloc = rt.alloc();
    let mut heap = Heap::new(alloc, 0)?;
    let mut promises = Promises::new(alloc);
    let thenable = with_then(alloc, &mut heap, HostValue::Object(ObjId(0)))?;
    let value = HostValue::Object(thenable);
    let made = resolved(alloc, &mut heap, &mut promises, value)?;
    assert!(rt; made != thenable);
    assert!(rt; calls_then(&mut promises, 1, thenable, Some(ObjId(0))));
    assert!(rt; is_idle(&mut promises));
    Ok(())
}

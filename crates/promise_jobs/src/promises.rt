//! The calls on promises, as ECMA-262 has them.
ghost use Rattle.std.specs.Prelude.{◌≡◌, ◌↔◌, IsTrue, List, [], ◌∷◌, ◌++◌, length, map, Some, None, slice_get, slice_set, IfOk, OnOk, OnErr, IfSome, IfNone};
ghost use Rattle.host_values.specs.Heaps.{IsLiveValue, next_object, with_object};
ghost use Rattle.host_values.specs.declared.values.HostValue.TheVariants as values;
ghost use Rattle.promise_jobs.specs.declared.job.Settled.TheVariants as ends;
ghost use Rattle.promise_jobs.specs.declared.state.State.TheVariants as states;
ghost use Rattle.promise_jobs.specs.declared.thenable.ThenMember.TheVariants as members;
ghost use Rattle.promise_jobs.specs.Promises.{IsPair, IsPromise, act, heap_after, no_promises, perform_then, promise_heap, promise_object, promise_of, promise_resolve, queue_thenable, reaction_job, heap_of, queued, reject, resolve, resolve_by, resolve_promise, settle, taken, type_error, with_fulfilled, with_promise, with_promise_object, with_reaction, with_waiting};

use crate::job::{Handler, Job, Settled};
use crate::state::{Pair, Reaction, State};
use crate::thenable::{ThenMember, promise_number, then_member};
use embed_base::{PlainList, SharedString};
use host_values::{ErrorClass, Heap, HostValue, Kind, ObjId};
use std::alloc::{AllocError, Global};
use std::collections::VecDeque;
use std::marker::Model;

/// Promises by their numbers, pairs of resolving functions by theirs, and the queue of jobs.
#[derive(Drop)]
pub struct Promises {
    promises: Vec<State>,
    pairs: Vec<Pair>,
    jobs: VecDeque<Job>,
}

impl Model for Promises {
    ghost use Rattle.promise_jobs.specs.Records.{HostPromises};

    ghost Value = { HostPromises };

    ghost view = { λ s. record { promises = s.promises.items; pairs = s.pairs.items; jobs = s.jobs.items } };
}

/// The job of a reaction whose promise was settled with a value (ECMA-262, section 27.2.2.1).
fn job_of(how: Settled, value: HostValue, reaction: Reaction) -> Job
    ensures { result ≡ reaction_job how value reaction }
{
    let handler = match how {
        Settled::Fulfilled => reaction.ok,
        Settled::Rejected => reaction.err,
    };
    Job::React {
        handler,
        how,
        value,
        derived: reaction.derived,
    }
}

/// The jobs of reactions, in order.
#[tactic(auto, using(crate::proofs::Reacting::made_more))]
fn jobs_of(
    alloc: Global,
    how: Settled,
    value: &HostValue,
    reactions: &[Reaction],
) -> Result<VecDeque<Job>, AllocError>
    ensures { IfOk result (λ made. made.items ≡ map (reaction_job how value.now) reactions.now) }
{
    let mut made = VecDeque::new(alloc);
    for reaction in reactions {
        made.push_back(job_of(how, value.clone()?, *reaction))?;
    }
    Ok(made)
}

impl Promises {
    /// No promise, no pair and no job. It takes no memory.
    pub fn new(alloc: Global) -> Promises
        ensures { result ≡ no_promises }
    {
        Promises {
            promises: Vec::new(alloc),
            pairs: Vec::new(alloc),
            jobs: VecDeque::new(alloc),
        }
    }

    /// Whether a number is that of a promise.
    pub fn has_promise(&self, promise: u64) -> bool
        ensures { IsTrue result ↔ IsPromise self.now promise }
    {
        promise < self.promises.len() as u64
    }

    /// Whether a number is that of a pair.
    pub fn has_pair(&self, pair: u64) -> bool
        ensures { IsTrue result ↔ IsPair self.now pair }
    {
        pair < self.pairs.len() as u64
    }

    /// A pending promise: its object, and the number of its pair (ECMA-262, section 27.2.1.5).
    pub fn new_promise(
        &mut self,
        alloc: Global,
        heap: &mut Heap,
    ) -> Result<(ObjId, u64), AllocError>
        ensures answer { IfOk result (λ made. (made.0 ≡ next_object heap.old) × (made.1 ≡ length self.old.pairs)) }
        ensures ok { OnOk result (self.new ≡ with_promise self.old) }
        ensures heap { OnOk result (heap.new ≡ with_promise_object heap.old self.old) }
        ensures err { OnErr result ((self.new ≡ self.old) × (heap.new ≡ heap.old)) }
    {
        let promise = self.promises.len() as u64;
        let pair = self.pairs.len() as u64;
        self.promises.reserve(1)?;
        self.pairs.reserve(1)?;
        let object = heap.add(alloc, Kind::Promise(promise))?;
        self.promises
            .push_reserved(State::Pending(PlainList::new(alloc)));
        self.pairs.push_reserved(Pair {
            promise,
            acted: false,
        });
        Ok((object, pair))
    }

    // Settles a promise that is pending, and queues its reactions.
    fn settle(
        &mut self,
        alloc: Global,
        promise: u64,
        how: Settled,
        value: HostValue,
    ) -> Result<(), AllocError>
        ensures ok { OnOk result (self.new ≡ settle promise how value self.old) }
        ensures err { OnErr result (self.new ≡ self.old) }
    {
        let Some(State::Pending(reactions)) = self.promises.get(promise as usize) else {
            return Ok(());
        };
        let mut made = jobs_of(alloc, how, &value, reactions.as_slice())?;
        self.jobs.append(&mut made)?;
        self.promises[promise as usize] = State::Settled { how, value };
        Ok(())
    }

    // Rejects a promise that was resolved with itself, with a TypeError that is made here.
    fn reject_itself(
        &mut self,
        alloc: Global,
        heap: &mut Heap,
        promise: u64,
    ) -> Result<(), AllocError>
        ensures ok { OnOk result (self.new ≡ settle promise ends.Rejected (values.Object (next_object heap.old)) self.old) }
        ensures heap { OnOk result (heap.new ≡ with_object heap.old type_error []) }
        ensures err { OnErr result ((self.new ≡ self.old) × (heap.new ≡ heap.old)) }
    {
        let kind = Kind::Error {
            class: ErrorClass::TypeError,
            message: SharedString::from_str(alloc, "")?,
        };
        let error = HostValue::Object(heap.next());
        let Some(State::Pending(reactions)) = self.promises.get(promise as usize) else {
            heap.add(alloc, kind)?;
            return Ok(());
        };
        let mut made = jobs_of(alloc, Settled::Rejected, &error, reactions.as_slice())?;
        self.jobs.reserve(made.len())?;
        heap.add(alloc, kind)?;
        let Ok(()) = self.jobs.append(&mut made) else {
            unreachable!()
        };
        self.promises[promise as usize] = State::Settled {
            how: Settled::Rejected,
            value: error,
        };
        Ok(())
    }

    // Queues the job that calls a `then`, with a new pair for the promise.
    fn queue_thenable(
        &mut self,
        promise: u64,
        object: HostValue,
        then: Option<ObjId>,
    ) -> Result<(), AllocError>
        ensures ok { OnOk result (self.new ≡ queue_thenable promise object then self.old) }
        ensures err { OnErr result (self.new ≡ self.old) }
    {
        let pair = self.pairs.len() as u64;
        self.pairs.reserve(1)?;
        self.jobs.push_back(Job::Thenable { pair, object, then })?;
        self.pairs.push_reserved(Pair {
            promise,
            acted: false,
        });
        Ok(())
    }

    // Resolves a promise with a value that isn't itself and whose `then` was read.
    fn resolve_by(
        &mut self,
        alloc: Global,
        found: ThenMember,
        promise: u64,
        value: HostValue,
    ) -> Result<(), AllocError>
        ensures ok { OnOk result (self.new ≡ resolve_by found promise value self.old) }
        ensures err { OnErr result (self.new ≡ self.old) }
    {
        match found {
            ThenMember::Absent => self.settle(alloc, promise, Settled::Fulfilled, value),
            ThenMember::BuiltIn => self.queue_thenable(promise, value, None),
            ThenMember::Callable(function) => self.queue_thenable(promise, value, Some(function)),
        }
    }

    // Resolves a promise whose pair hasn't acted.
    fn resolve_promise(
        &mut self,
        alloc: Global,
        heap: &mut Heap,
        promise: u64,
        value: HostValue,
    ) -> Result<(), AllocError>
        requires { IsLiveValue heap.old value }
        ensures ok { OnOk result (self.new ≡ resolve_promise heap.old promise value self.old) }
        ensures heap { OnOk result (heap.new ≡ heap_of heap.old promise value) }
        ensures err { OnErr result ((self.new ≡ self.old) × (heap.new ≡ heap.old)) }
    {
        if promise_number(heap, &value) == Some(promise) {
            return self.reject_itself(alloc, heap, promise);
        }
        let found = then_member(alloc, heap, &value)?;
        self.resolve_by(alloc, found, promise, value)
    }

    // The pair of a number.
    fn pair(&self, number: u64) -> Pair
        requires { IsPair self.now number }
        ensures { slice_get self.now.pairs number ≡ Some result }
    {
        self.pairs[number as usize]
    }

    // The pair acts.
    fn act(&mut self, number: u64, pair: Pair)
        requires { IsPair self.old number }
        ensures { self.new ≡ act number pair self.old }
    {
        self.pairs[number as usize] = Pair {
            acted: true,
            ..pair
        };
    }

    /// Calls the resolve function of a pair (ECMA-262, section 27.2.1.3.2). A pair that has acted does nothing.
    #[tactic(auto, using(crate::proofs::Acting::resolved, crate::proofs::Acting::heap_resolved, crate::proofs::Acting::resolved_before, crate::proofs::Acting::heap_resolved_before))]
    pub fn resolve(
        &mut self,
        alloc: Global,
        heap: &mut Heap,
        pair: u64,
        value: HostValue,
    ) -> Result<(), AllocError>
        requires pair { IsPair self.old pair }
        requires live { IsLiveValue heap.old value }
        ensures ok { OnOk result (self.new ≡ resolve heap.old pair value self.old) }
        ensures heap { OnOk result (heap.new ≡ heap_after heap.old pair value self.old) }
        ensures err { OnErr result ((self.new ≡ self.old) × (heap.new ≡ heap.old)) }
    {
        let functions = self.pair(pair);
        if functions.acted {
            return Ok(());
        }
        self.resolve_promise(alloc, heap, functions.promise, value)?;
        self.act(pair, functions);
        Ok(())
    }

    /// Calls the reject function of a pair (ECMA-262, section 27.2.1.3.1). A pair that has acted does nothing.
    #[tactic(auto, using(crate::proofs::Acting::rejected, crate::proofs::Acting::rejected_before))]
    pub fn reject(&mut self, alloc: Global, pair: u64, value: HostValue) -> Result<(), AllocError>
        requires pair { IsPair self.old pair }
        ensures ok { OnOk result (self.new ≡ reject pair value self.old) }
        ensures err { OnErr result (self.new ≡ self.old) }
    {
        let functions = self.pair(pair);
        if functions.acted {
            return Ok(());
        }
        self.settle(alloc, functions.promise, Settled::Rejected, value)?;
        self.act(pair, functions);
        Ok(())
    }

    // Queues the job of a reaction whose promise is settled already.
    fn queue_reaction(
        &mut self,
        how: Settled,
        value: HostValue,
        reaction: Reaction,
    ) -> Result<(), AllocError>
        ensures ok { OnOk result (self.new ≡ queued (reaction_job how value reaction ∷ []) self.old) }
        ensures err { OnErr result (self.new ≡ self.old) }
    {
        self.jobs.push_back(job_of(how, value, reaction))?;
        Ok(())
    }

    // Adds a reaction to a promise that is pending.
    fn add_reaction(&mut self, promise: u64, reaction: Reaction) -> Result<(), AllocError>
        requires { IsPromise self.old promise }
        ensures ok { OnOk result (self.new ≡ with_reaction promise reaction self.old) }
        ensures err { OnErr result (self.new ≡ self.old) }
    {
        self.promises[promise as usize].add(reaction)
    }

    /// Adds a reaction to a promise (ECMA-262, section 27.2.5.4.1): one that is settled queues it at once. `derived` is the pair of the
    /// derived promise.
    #[tactic(auto, using(crate::proofs::Reacting::reacted, crate::proofs::Reacting::added))]
    pub fn then(
        &mut self,
        promise: u64,
        ok: Handler,
        err: Handler,
        derived: Option<u64>,
    ) -> Result<(), AllocError>
        requires promise { IsPromise self.old promise }
        ensures ok { OnOk result (self.new ≡ perform_then promise (record { ok = ok; err = err; derived = derived }) self.old) }
        ensures err { OnErr result (self.new ≡ self.old) }
    {
        let reaction = Reaction { ok, err, derived };
        match &self.promises[promise as usize] {
            State::Pending(_) => self.add_reaction(promise, reaction),
            State::Settled { how, value } => {
                let (how, value) = (*how, value.clone()?);
                self.queue_reaction(how, value, reaction)
            }
        }
    }

    // Makes a promise that a value without `then` fulfils.
    fn add_fulfilled(
        &mut self,
        alloc: Global,
        heap: &mut Heap,
        value: HostValue,
    ) -> Result<ObjId, AllocError>
        ensures answer { IfOk result (λ object. object ≡ next_object heap.old) }
        ensures ok { OnOk result (self.new ≡ with_fulfilled value self.old) }
        ensures heap { OnOk result (heap.new ≡ with_promise_object heap.old self.old) }
        ensures err { OnErr result ((self.new ≡ self.old) × (heap.new ≡ heap.old)) }
    {
        let promise = self.promises.len() as u64;
        self.promises.reserve(1)?;
        self.pairs.reserve(1)?;
        let object = heap.add(alloc, Kind::Promise(promise))?;
        self.promises.push_reserved(State::Settled {
            how: Settled::Fulfilled,
            value,
        });
        self.pairs.push_reserved(Pair {
            promise,
            acted: true,
        });
        Ok(object)
    }

    // Makes a promise that waits for a value with a `then`.
    fn add_waiting(
        &mut self,
        alloc: Global,
        heap: &mut Heap,
        value: HostValue,
        then: Option<ObjId>,
    ) -> Result<ObjId, AllocError>
        ensures answer { IfOk result (λ object. object ≡ next_object heap.old) }
        ensures ok { OnOk result (self.new ≡ with_waiting value then self.old) }
        ensures heap { OnOk result (heap.new ≡ with_promise_object heap.old self.old) }
        ensures err { OnErr result ((self.new ≡ self.old) × (heap.new ≡ heap.old)) }
    {
        let promise = self.promises.len() as u64;
        let pair = self.pairs.len() as u64 + 1;
        self.promises.reserve(1)?;
        self.pairs.reserve(2)?;
        self.jobs.reserve(1)?;
        let object = heap.add(alloc, Kind::Promise(promise))?;
        self.promises
            .push_reserved(State::Pending(PlainList::new(alloc)));
        self.pairs.push_reserved(Pair {
            promise,
            acted: true,
        });
        self.pairs.push_reserved(Pair {
            promise,
            acted: false,
        });
        self.jobs.push_back_reserved(Job::Thenable {
            pair,
            object: value,
            then,
        });
        Ok(object)
    }

    // A new promise that is resolved with a value, which is no promise.
    #[tactic(auto, using(crate::proofs::Anew::fulfilled, crate::proofs::Anew::waiting_for, crate::proofs::Anew::waiting_for_promise))]
    fn resolve_anew(
        &mut self,
        alloc: Global,
        heap: &mut Heap,
        value: HostValue,
    ) -> Result<ObjId, AllocError>
        requires live { IsLiveValue heap.old value }
        requires other { promise_of heap.old value ≡ None }
        ensures answer { IfOk result (λ object. object ≡ next_object heap.old) }
        ensures ok { OnOk result (self.new ≡ promise_resolve heap.old value self.old) }
        ensures heap { OnOk result (heap.new ≡ with_promise_object heap.old self.old) }
        ensures err { OnErr result ((self.new ≡ self.old) × (heap.new ≡ heap.old)) }
    {
        match then_member(alloc, heap, &value)? {
            ThenMember::Absent => self.add_fulfilled(alloc, heap, value),
            ThenMember::BuiltIn => self.add_waiting(alloc, heap, value, None),
            ThenMember::Callable(function) => {
                self.add_waiting(alloc, heap, value, Some(function))
            }
        }
    }

    /// The promise that a value is, or a new one that is resolved with it (ECMA-262, section 27.2.4.7.1).
    pub fn promise_resolve(
        &mut self,
        alloc: Global,
        heap: &mut Heap,
        value: HostValue,
    ) -> Result<ObjId, AllocError>
        requires live { IsLiveValue heap.old value }
        ensures answer { IfOk result (λ object. values.Object object ≡ promise_object heap.old value) }
        ensures ok { OnOk result (self.new ≡ promise_resolve heap.old value self.old) }
        ensures heap { OnOk result (heap.new ≡ promise_heap heap.old value self.old) }
        ensures err { OnErr result ((self.new ≡ self.old) × (heap.new ≡ heap.old)) }
    {
        match promise_number(heap, &value) {
            None => self.resolve_anew(alloc, heap, value),
            Some(_) => match value {
                HostValue::Object(object) => Ok(object),
                _ => unreachable!(),
            },
        }
    }

    /// The job that was queued first, which leaves the queue.
    pub fn take_job(&mut self) -> Option<Job>
        ensures { taken self.old ≡ (result, self.new) }
    {
        self.jobs.pop_front()
    }
}

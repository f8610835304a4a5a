//! A frame, which stands for a term.

ghost use Rattle.std.specs.Prelude.{◌≡◌, ◌≢◌, ◌≤◌, ◌<◌, ◌+◌, ◌-◌, ◌++◌, [], ◌∷◌, OnOk, IfOk, MatchOption, length, take, drop, slice_get, slice_set, reverse, vec_capacity};
ghost use Rattle.wasm_syntax.specs.Sorts.{sort_of};
ghost use Rattle.wasm_machine.specs.View.{values_of, with_values, with_locals, module_for, rest_of, advanced, set_back, last_instr, begun_view, with_label, left, branched, arity_in, operands_of};

use std::alloc::{AllocError, Global};
use std::marker::Model;
use wasm_store::Store;
use wasm_syntax::{
    BlockId, BlockType, FuncAddr, InstAddr, Instr, MemAddr, ModuleAddr, Sort, Trap, Value,
};

/// An open label: where its operands begin among the frame's words, how many values a branch to it takes, the type of the loop that
/// such a branch begins again, and the place of its next instruction.
#[derive(Clone, Copy)]
pub struct Control {
    pub height: usize,
    pub arity: usize,
    pub again: Option<BlockType>,
    pub block: BlockId,
    pub at: usize,
}

/// What a step ends in.
#[derive(Drop)]
pub enum Effect {
    /// The frame goes on.
    Went,
    /// The frame waits for the results of a call.
    Call { func: FuncAddr, args: Vec<Value> },
    /// The frame has ended with these results.
    Returned(Vec<Value>),
    /// The frame has ended in a trap.
    Trapped(Trap),
    /// The frame goes on, and a `memory.grow` of this memory, of no page too, hasn't given -1.
    Grew { memory: MemAddr },
}

/// The frame of a function of a module at work. It can't be copied, and is made and changed by its calls alone.
#[derive(Drop)]
pub struct WasmFrame {
    instance: InstAddr,
    module: ModuleAddr,
    results: usize,
    locals: usize,
    room: usize,
    words: Vec<Value>,
    top: Control,
    outer: Vec<Control>,
}

impl Model for WasmFrame {
    ghost use Rattle.wasm_machine.specs.View.{View, view_of, Heights};
    ghost use Rattle.std.specs.Prelude.{◌∷◌, ◌+◌, ◌≤◌, reverse, length, vec_capacity};

    ghost Value = { View };

    ghost view = { λ f. view_of f.instance f.module f.results f.locals f.room f.top (reverse f.outer.items) f.words.items };

    ghost invariant = { λ f. (f.locals + f.room ≤ vec_capacity f.words) × (257 ≤ vec_capacity f.outer) × Heights f.locals (f.top ∷ reverse f.outer.items) (length f.words.items) };
}

#[tactic(auto, using(crate::proofs::Views::views))]
impl WasmFrame {
    // A frame at the beginning of a body, with these locals.
    pub(crate) fn begun(
        instance: InstAddr,
        module_addr: ModuleAddr,
        results: usize,
        room: usize,
        words: Vec<Value>,
        outer: Vec<Control>,
        body: BlockId,
    ) -> WasmFrame
        requires room { length words.items + room ≤ vec_capacity words }
        requires labels { 257 ≤ vec_capacity outer }
        requires none_open { outer.items ≡ [] }
        ensures { result ≡ begun_view «instance» module_addr results room words.items body }
    {
        let locals = words.len();
        WasmFrame {
            instance,
            module: module_addr,
            results,
            locals,
            room,
            words,
            top: Control {
                height: locals,
                arity: results,
                again: None,
                block: body,
                at: 0,
            },
            outer,
        }
    }

    // More operands, the topmost one last.
    pub(crate) fn push_all(&mut self, values: &[Value])
        requires { operands_of self.old + length values.now ≤ self.old.room }
        ensures { self.new ≡ with_values (reverse values.now ++ values_of self.old) self.old }
    {
        match self.words.extend_from_slice(values) {
            Ok(()) => {}
            Err(_) => unreachable!(),
        }
    }

    // One more operand.
    #[inline]
    pub(crate) fn push(&mut self, v: Value)
        requires { operands_of self.old < self.old.room }
        ensures { self.new ≡ with_values (v ∷ values_of self.old) self.old }
    {
        self.words.push_reserved(v);
    }

    // The topmost operand of the innermost label.
    #[inline]
    pub(crate) fn pop(&mut self) -> Value
        requires { values_of self.old ≢ [] }
        ensures value { values_of self.old ≡ result ∷ values_of self.new }
        ensures rest { self.new ≡ with_values (values_of self.new) self.old }
    {
        match self.words.pop() {
            Some(v) => v,
            None => unreachable!(),
        }
    }

    // The sort of the innermost list's next instruction, or none at its end.
    #[inline]
    pub(crate) fn fetch(&mut self, store: &Store) -> Option<Sort>
        requires { self.old.module.0 < length store.now.modules }
        ensures { MatchOption result ((rest_of (module_for store.now self.old) self.old ≡ []) × (self.new ≡ self.old)) (λ k. (rest_of (module_for store.now self.old) self.old ≡ last_instr (module_for store.now self.old) self.new ∷ rest_of (module_for store.now self.old) self.new) × (k ≡ sort_of (last_instr (module_for store.now self.old) self.new)) × (self.new ≡ advanced self.old)) }
    {
        let code = store.module(self.module).module().code(self.top.block);
        if self.top.at < code.len() {
            let sort = code[self.top.at].sort();
            self.top.at += 1;
            Some(sort)
        } else {
            None
        }
    }

    // The innermost list's next instruction, lent, or none at its end.
    #[inline]
    pub(crate) fn next<'a>(&self, store: &'a Store) -> Option<&'a Instr>
        requires { self.now.module.0 < length store.now.modules }
        ensures { MatchOption result (rest_of (module_for store.now self.now) self.now ≡ []) (λ i. rest_of (module_for store.now self.now) self.now ≡ i.now ∷ rest_of (module_for store.now self.now) (advanced self.now)) }
    {
        let code = store.module(self.module).module().code(self.top.block);
        code.get(self.top.at)
    }

    // The topmost operand of the innermost list, if there is one.
    #[inline]
    pub(crate) fn topmost(&self) -> Option<Value>
        ensures { result ≡ slice_get (values_of self.now) 0 }
    {
        if self.top.height < self.words.len() {
            Some(self.words[self.words.len() - 1])
        } else {
            None
        }
    }

    // Goes back to before the last instruction.
    pub(crate) fn back(&mut self)
        ensures { self.new ≡ set_back self.old }
    {
        self.top.at = self.top.at.saturating_sub(1);
    }

    // Opens a label on the topmost n operands.
    #[inline]
    pub(crate) fn open(&mut self, n: usize, arity: usize, again: Option<BlockType>, block: BlockId)
        requires enough { n ≤ length (values_of self.old) }
        requires few { length self.old.outer + 1 < 257 }
        ensures { self.new ≡ with_label n arity again block self.old }
    {
        self.outer.push_reserved(self.top);
        self.top = Control {
            height: self.words.len() - n,
            arity,
            again,
            block,
            at: 0,
        };
    }

    // Ends the innermost label, whose operands go to the list round it.
    #[inline]
    pub(crate) fn leave(&mut self)
        requires { self.old.outer ≢ [] }
        ensures { self.new ≡ left self.old }
    {
        match self.outer.pop() {
            Some(c) => self.top = c,
            None => unreachable!(),
        }
    }

    // Leaves the label that many outward from the innermost one, for the list round it, with the topmost operands that it takes.
    pub(crate) fn branch(&mut self, label: usize)
        requires inner { label < length self.old.outer }
        requires enough { arity_in label self.old.top self.old.outer ≤ length (values_of self.old) }
        ensures { self.new ≡ branched label (values_of self.old) self.old.top self.old.outer self.old }
    {
        for _ in 0..label {
            self.leave();
        }
        self.break_out();
    }

    // Leaves the innermost label for the list round it.
    fn break_out(&mut self)
        requires inner { self.old.outer ≢ [] }
        requires enough { self.old.top.arity ≤ length (values_of self.old) }
        ensures { self.new ≡ branched 0 (values_of self.old) self.old.top self.old.outer self.old }
    {
        let target = self.top;
        keep_last(&mut self.words, target.height, target.arity);
        match self.outer.pop() {
            Some(parent) => self.top = parent,
            None => unreachable!(),
        }
        if target.again.is_some() {
            self.top.at = self.top.at.saturating_sub(1);
        }
    }

    // The topmost n operands, the topmost one last.
    pub(crate) fn last_values(&self, alloc: Global, n: usize) -> Result<Vec<Value>, AllocError>
        requires { n ≤ length (values_of self.now) }
        ensures ok { IfOk result (λ vs. reverse vs.items ≡ take n (values_of self.now)) }
    {
        let values = Vec::from_slice(alloc, &self.words[self.words.len() - n..])?;
        Ok(values)
    }

    // Drops the topmost n operands.
    pub(crate) fn drop_values(&mut self, n: usize)
        requires { n ≤ length (values_of self.old) }
        ensures { self.new ≡ with_values (drop n (values_of self.old)) self.old }
    {
        self.words.truncate(self.words.len() - n);
    }

    // How many labels are open round the innermost one.
    #[inline]
    pub(crate) fn depth(&self) -> usize
        ensures { result ≡ length self.now.outer }
    {
        self.outer.len()
    }

    // How many values the frame gives.
    #[inline]
    pub(crate) fn results(&self) -> usize
        ensures { result ≡ self.now.results }
    {
        self.results
    }

    // The instance whose code runs.
    #[inline]
    pub(crate) fn instance(&self) -> InstAddr
        ensures { result ≡ self.now.instance }
    {
        self.instance
    }

    // That instance's module.
    #[inline]
    pub(crate) fn module_addr(&self) -> ModuleAddr
        ensures { result ≡ self.now.module }
    {
        self.module
    }

    // The block of the innermost list, and the place of its next instruction.
    #[inline]
    pub(crate) fn block(&self) -> BlockId
        ensures { result ≡ self.now.top.block }
    {
        self.top.block
    }

    #[inline]
    pub(crate) fn at(&self) -> usize
        ensures { result ≡ self.now.top.at }
    {
        self.top.at
    }

    // A local.
    #[inline]
    pub(crate) fn local(&self, x: u32) -> Value
        requires { x < length self.now.locals }
        ensures { slice_get self.now.locals x ≡ Some result }
    {
        self.words[x as usize]
    }

    // Writes a local.
    #[inline]
    pub(crate) fn set_local(&mut self, x: u32, v: Value)
        requires { x < length self.old.locals }
        ensures { self.new ≡ with_locals (slice_set self.old.locals x v) self.old }
    {
        self.words[x as usize] = v;
    }
}

// Takes out what lies between the first `height` values and the last n.
fn keep_last(values: &mut Vec<Value>, height: usize, n: usize)
    requires { height + n ≤ length values.old.items }
    ensures kept { values.new.items ≡ take height values.old.items ++ drop (length values.old.items - n) values.old.items }
    ensures capacity { vec_capacity values.new ≡ vec_capacity values.old }
{
    let from = values.len() - n;
    values.copy_within(from.., height);
    values.truncate(height + n);
}

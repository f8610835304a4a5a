ghost use Rattle.std.specs.Prelude.{◌≡◌, ℕ, List, [], ◌∷◌, Some, None, OnOk, IfOk, MatchOption, string_bytes};
ghost use Rattle.embed_cmd.specs.Words.{is_dashed, parts_of, texts_of};
ghost use Rattle.embed_cmd.specs.Sorting.{flag_of, flag_setting_of, with_value, sorted_of, joined, sorted_after};

use embed_base::{PlainList, PlainString};
use std::alloc::{AllocError, Global};

/// The options.
#[derive(Clone, Copy, PartialEq, Eq, Debug)]
pub(crate) enum Flag {
    Steps,
    Module,
}

/// Words by what they are for: the positional ones, and the values of each option.
#[derive(Debug, Drop)]
pub(crate) struct Sorted {
    pub(crate) positional: PlainList<PlainString>,
    pub(crate) steps: PlainList<PlainString>,
    pub(crate) modules: PlainList<PlainString>,
}

/// What the next word is: one by itself, or an option's value. Nothing may come where a word was refused.
#[derive(Clone, Copy, Debug)]
pub(crate) enum Next {
    Word,
    Value(Flag),
    Nothing,
}

/// A word begins with `-`.
fn is_dashed(word: &str) -> bool
    ensures { result ≡ is_dashed word.now }
{
    match word.as_bytes() {
        [] => false,
        [first, ..] => *first == b'-',
    }
}

/// The parts before and after the first `=`.
pub(crate) fn parts(word: &str) -> Option<(&str, &str)>
    ensures { MatchOption result (parts_of word.now ≡ None) (λ p. parts_of word.now ≡ Some (p.0.now, p.1.now)) }
{
    word.split_once('=')
}

/// The option that a word is.
fn named_flag(word: &str) -> Option<Flag>
    ensures { result ≡ flag_of word.now }
{
    match word {
        "--steps" => Some(Flag::Steps),
        "--module" => Some(Flag::Module),
        _ => None,
    }
}

/// The option and the value that a word is.
fn setting(word: &str) -> Option<(Flag, &str)>
    ensures { MatchOption result (flag_setting_of word.now ≡ None) (λ s. flag_setting_of word.now ≡ Some (s.0, s.1.now)) }
{
    let (name, value) = parts(word)?;
    let flag = named_flag(name)?;
    Some((flag, value))
}

impl Sorted {
    /// No words.
    fn new(alloc: Global) -> Sorted
        ensures { result ≡ record { positional = []; steps = []; modules = [] } }
    {
        Sorted {
            positional: PlainList::new(alloc),
            steps: PlainList::new(alloc),
            modules: PlainList::new(alloc),
        }
    }

    /// Adds an option's value.
    fn add_value(&mut self, alloc: Global, flag: Flag, value: &str) -> Result<(), AllocError>
        ensures { OnOk result (self.new ≡ joined self.old (with_value flag value.now (record { positional = []; steps = []; modules = [] }))) }
    {
        let value = PlainString::from_str(alloc, value)?;
        match flag {
            Flag::Steps => self.steps.push(value),
            Flag::Module => self.modules.push(value),
        }
    }

    /// Takes a word that is no option's value.
    fn take_word(&mut self, alloc: Global, word: &str) -> Result<Next, AllocError>
        ensures { IfOk result (λ next. (words : List (List ℕ)) → sorted_after Next.Word self.old (word.now ∷ words) ≡ sorted_after next self.new words) }
    {
        if let Some((flag, value)) = setting(word) {
            self.add_value(alloc, flag, value)?;
            return Ok(Next::Word);
        }
        if let Some(flag) = named_flag(word) {
            return Ok(Next::Value(flag));
        }
        if is_dashed(word) {
            return Ok(Next::Nothing);
        }
        let word = PlainString::from_str(alloc, word)?;
        self.positional.push(word)?;
        Ok(Next::Word)
    }

    /// Takes an option's value.
    fn take_value(&mut self, alloc: Global, flag: Flag, word: &str) -> Result<Next, AllocError>
        ensures { IfOk result (λ next. (words : List (List ℕ)) → sorted_after (Next.Value flag) self.old (word.now ∷ words) ≡ sorted_after next self.new words) }
    {
        if is_dashed(word) {
            return Ok(Next::Nothing);
        }
        self.add_value(alloc, flag, word)?;
        Ok(Next::Word)
    }

    /// Takes a word.
    fn take(&mut self, alloc: Global, next: Next, word: &str) -> Result<Next, AllocError>
        ensures { IfOk result (λ after. (words : List (List ℕ)) → sorted_after next self.old (word.now ∷ words) ≡ sorted_after after self.new words) }
    {
        match next {
            Next::Word => self.take_word(alloc, word),
            Next::Value(flag) => self.take_value(alloc, flag, word),
            Next::Nothing => Ok(Next::Nothing),
        }
    }
}

/// The words, sorted by what they are for; none where a word is refused.
pub(crate) fn sort_words(alloc: Global, words: &[String]) -> Result<Option<Sorted>, AllocError>
    ensures { IfOk result (λ sorted. sorted ≡ sorted_of (texts_of words.now)) }
{
    let mut sorted = Sorted::new(alloc);
    let mut next = Next::Word;
    for word in words {
        next = sorted.take(alloc, next, word.as_str())?;
    }
    match next {
        Next::Word => Ok(Some(sorted)),
        Next::Value(_) | Next::Nothing => Ok(None),
    }
}

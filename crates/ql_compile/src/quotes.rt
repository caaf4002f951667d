//! The quoted data of a program as words and pairs: which data there are, in the order of the source,
//! and what they are made of.

ghost use Rattle.std.specs.Prelude.{◌≡◌, ℕ, IfOk, OnOk, map};
ghost use Rattle.ql_expand.specs.ProgramView.{program_of};
ghost use Rattle.ql_expand.specs.View.{bounds_of, constant_of, core_of, cores_of, function_of, node_of};
ghost use Rattle.ql_forms.specs.View.{atom_of, form_of, forms_of, tail_of};
ghost use Rattle.ql_meaning.specs.Context.{Context, all_data, atom_word, constant_word, context_of, data_in, data_in_bounds, data_in_cores, data_in_functions, data_in_node, datum, in_source_order, quoted, quoted_items, quotes_of, tail_word, with_pair, word_at};
ghost use Rattle.ql_forms.specs.Form.{place_of};
ghost use Rattle.ql_compile.specs.Emission.{HasWords};
ghost use Rattle.ql_compile.specs.Quoting.{AddsData, AddsWord, data_at};
ghost use Rattle.ql_world.specs.Text.{AreOrdered};

use crate::number::number;
use indexmap::IndexMap;
use ql_base::reserved::Reserved;
use ql_expand::core_form::{Bound, Constant, Core, Function, Node};
use ql_expand::program::Program;
use ql_forms::form::{Atom, Form};
use ql_world::word::Word;
use std::alloc::{AllocError, Global};

/// The quoted data of a program.
#[derive(Drop)]
pub struct Quotes {
    /// The pairs, each after those that it names.
    pub pairs: Vec<(Word, Word)>,
    /// The word of each datum that is a list, by its offset.
    pub words: IndexMap<u64, Word>,
}

impl Quotes {
    /// The quoted data of this program, in the order of the source.
    pub fn new(alloc: Global, program: &Program) -> Result<Quotes, AllocError>
        ensures pairs { IfOk result (λ q. q.pairs.items ≡ (quotes_of (program_of program.now)).0) }
        ensures ordered { IfOk result (λ q. AreOrdered q.pairs.items) }
        ensures words { IfOk result (λ q. HasWords (context_of (program_of program.now)) q.words.entries) }
    {
        let found = program_data(alloc, program)?;
        let mut quotes = Quotes {
            pairs: Vec::new(alloc),
            words: IndexMap::new(alloc),
        };
        for form in &found {
            quotes.add(alloc, *form)?;
        }
        Ok(quotes)
    }

    /// The word of a constant.
    pub fn word(&self, constant: Constant) -> Word
        ensures { (x : Context) → HasWords x self.now.words.entries → result ≡ constant_word x (constant_of constant.entry) }
    {
        match constant {
            Constant::Atom { atom, .. } => atom_word(atom),
            Constant::Spelled(form) => self.form_word(form),
        }
    }

    // The word of a form, which is that of a datum if it is a list.
    fn form_word(&self, form: &Form) -> Word
        ensures { (x : Context) → HasWords x self.now.words.entries → result ≡ constant_word x (form_of form.now) }
    {
        match form {
            Form::Atom { atom, .. } => atom_word(*atom),
            Form::List { at, .. } => self.word_at(at.0),
        }
    }

    // The word of the datum at this offset.
    fn word_at(&self, at: u64) -> Word
        ensures { result ≡ word_at self.now.words.entries at }
    {
        match self.words.get(&at) {
            Some(word) => *word,
            None => Word::Sym(Reserved::Nil.number()),
        }
    }

    // A datum, after those that stand before it.
    fn add(&mut self, alloc: Global, form: &Form) -> Result<(), AllocError>
        ensures pairs { OnOk result (self.new.pairs.items ≡ (quoted (form_of form.now) self.old.pairs.items).0) }
        ensures words { OnOk result (AddsWord self.old.words.entries self.new.words.entries (place_of (form_of form.now)) (quoted (form_of form.now) self.old.pairs.items).1) }
    {
        let word = put_form(alloc, &mut self.pairs, form)?;
        keep_first(&mut self.words, form.offset().0, word)
    }
}

// Keeps the word of the datum at this offset, unless one is known.
fn keep_first(words: &mut IndexMap<u64, Word>, at: u64, word: Word) -> Result<(), AllocError>
    ensures { OnOk result (AddsWord words.old.entries words.new.entries at word) }
{
    if words.contains_key(&at) {
        return Ok(());
    }
    words.insert(at, word)?;
    Ok(())
}

// The word of an atom.
fn atom_word(atom: Atom) -> Word
    ensures { result ≡ atom_word (atom_of atom) }
{
    match atom {
        Atom::Int(number) => Word::Int(number),
        Atom::Sym(number) => Word::Sym(number),
    }
}

// The word that a list ends with.
fn tail_word(tail: Option<Atom>) -> Word
    ensures { result ≡ tail_word (tail_of tail) }
{
    match tail {
        Some(atom) => atom_word(atom),
        None => Word::Sym(Reserved::Nil.number()),
    }
}

// The word of a datum. Its pairs come after those that are there.
#[cycle(quoted)]
fn put_form(alloc: Global, pairs: &mut Vec<(Word, Word)>, form: &Form) -> Result<Word, AllocError>
    ensures { IfOk result (λ w. (pairs.new.items, w) ≡ quoted (form_of form.now) pairs.old.items) }
{
    match form {
        Form::Atom { atom, .. } => Ok(atom_word(*atom)),
        Form::List { items, tail, .. } => put_items(alloc, pairs, items.as_slice(), *tail),
    }
}

// The word of a list: the pairs of its items come first, and then its own from its end.
#[cycle(quoted)]
#[tactic(auto, using(crate::proofs::Linked::linked_last))]
fn put_items(
    alloc: Global,
    pairs: &mut Vec<(Word, Word)>,
    items: &[Form],
    tail: Option<Atom>,
) -> Result<Word, AllocError>
    ensures { IfOk result (λ w. (pairs.new.items, w) ≡ quoted_items (forms_of items.now) (tail_of tail) pairs.old.items) }
{
    let mut words = Vec::new(alloc);
    for item in items {
        let word = put_form(alloc, pairs, item)?;
        words.push(word)?;
    }
    let mut list = tail_word(tail);
    while let Some(word) = words.pop() {
        list = put_pair(pairs, word, list)?;
    }
    Ok(list)
}

// Makes a pair, whose number is how many there are before it.
fn put_pair(pairs: &mut Vec<(Word, Word)>, first: Word, rest: Word) -> Result<Word, AllocError>
    ensures { IfOk result (λ w. (pairs.new.items, w) ≡ with_pair first (pairs.old.items, rest)) }
{
    // More pairs than numbers are more than there is memory for.
    let pair = number(pairs.len())?;
    pairs.push((first, rest))?;
    Ok(Word::Pair(pair))
}

// The data of a program that are lists, in the order of the source.
fn program_data<'a>(alloc: Global, program: &Program<'a>) -> Result<Vec<&'a Form>, AllocError>
    ensures { IfOk result (λ found. data_at found.items ≡ all_data (program_of program.now)) }
{
    let mut found = Vec::new(alloc);
    put_functions_data(&mut found, program.functions.as_slice())?;
    put_cores_data(&mut found, program.body.as_slice())?;
    sort_data(&mut found)?;
    Ok(found)
}

// Puts data in the order of the source. With equal offsets the later one comes first.
fn sort_data(found: &mut Vec<&Form>) -> Result<(), AllocError>
    ensures { OnOk result (data_at found.new.items ≡ in_source_order (data_at found.old.items)) }
{
    // The sort is stable, so those with equal offsets stay reversed.
    found.reverse();
    found.sort_by_key(|form| form.offset().0)
}

// These functions walk through a program, and add each datum as they come to it.
fn put_functions_data<'a>(
    found: &mut Vec<&'a Form>,
    functions: &[Function<'a>],
) -> Result<(), AllocError>
    ensures { OnOk result (AddsData found.old.items found.new.items (data_in_functions (map function_of functions.now))) }
{
    for function in functions {
        put_core_data(found, &function.body)?;
    }
    Ok(())
}

#[cycle(data)]
fn put_core_data<'a>(found: &mut Vec<&'a Form>, core: &Core<'a>) -> Result<(), AllocError>
    ensures { OnOk result (AddsData found.old.items found.new.items (data_in (core_of core.now))) }
{
    put_node_data(found, &core.node)
}

#[cycle(data)]
fn put_node_data<'a>(found: &mut Vec<&'a Form>, node: &Node<'a>) -> Result<(), AllocError>
    ensures { OnOk result (AddsData found.old.items found.new.items (data_in_node (node_of node.now))) }
{
    match node {
        Node::Const(constant) => put_datum(found, *constant),
        Node::Var(_) => Ok(()),
        Node::Setq { value, .. } => put_core_data(found, value.get()),
        Node::If { test, then, other } => {
            put_core_data(found, test.get())?;
            put_core_data(found, then.get())?;
            put_core_data(found, other.get())
        }
        Node::Progn(forms) => put_cores_data(found, forms.as_slice()),
        Node::Let { binds, body } => {
            put_bounds_data(found, binds.as_slice())?;
            put_core_data(found, body.get())
        }
        Node::Prim { args, .. } => put_cores_data(found, args.as_slice()),
        Node::Print(form) => put_core_data(found, form.get()),
        Node::Call { args, .. } => put_cores_data(found, args.as_slice()),
        Node::Funcall { fun, args, .. } => {
            put_core_data(found, fun.get())?;
            put_cores_data(found, args.as_slice())
        }
        Node::Lambda { body, .. } => put_core_data(found, body.get()),
        Node::Qlet { prop, binds, body } => {
            put_core_data(found, prop.get())?;
            put_bounds_data(found, binds.as_slice())?;
            put_core_data(found, body.get())
        }
        Node::Qlambda { prop, body, .. } => {
            put_core_data(found, prop.get())?;
            put_core_data(found, body.get())
        }
        Node::Catch { tag, body } => {
            put_core_data(found, tag.get())?;
            put_core_data(found, body.get())
        }
        Node::Qcatch { tag, body } => {
            put_core_data(found, tag.get())?;
            put_core_data(found, body.get())
        }
        Node::Throw { tag, value } => {
            put_core_data(found, tag.get())?;
            put_core_data(found, value.get())
        }
        Node::Protect { value, cleanup } => {
            put_core_data(found, value.get())?;
            put_core_data(found, cleanup.get())
        }
        Node::Defvar { value, .. } => put_core_data(found, value.get()),
    }
}

#[cycle(data)]
fn put_cores_data<'a>(found: &mut Vec<&'a Form>, cores: &[Core<'a>]) -> Result<(), AllocError>
    ensures { OnOk result (AddsData found.old.items found.new.items (data_in_cores (cores_of cores.now))) }
{
    for core in cores {
        put_core_data(found, core)?;
    }
    Ok(())
}

#[cycle(data)]
fn put_bounds_data<'a>(found: &mut Vec<&'a Form>, binds: &[Bound<'a>]) -> Result<(), AllocError>
    ensures { OnOk result (AddsData found.old.items found.new.items (data_in_bounds (bounds_of binds.now))) }
{
    for bound in binds {
        put_core_data(found, &bound.value)?;
    }
    Ok(())
}

// A constant that is a list of the source is a datum.
fn put_datum<'a>(found: &mut Vec<&'a Form>, constant: Constant<'a>) -> Result<(), AllocError>
    ensures { OnOk result (AddsData found.old.items found.new.items (datum (constant_of constant.entry))) }
{
    if let Constant::Spelled(form) = constant {
        if !form.is_atom() {
            found.push(form)?;
        }
    }
    Ok(())
}

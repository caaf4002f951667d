//! What is open around the next byte.

ghost use Rattle.std.specs.Prelude.{◌≡◌, ◌+◌, ℕ, List, OnOk, IfOk};
ghost use Rattle.ql_base.specs.Names.{reserved, with_name};
ghost use Rattle.ql_forms.specs.Spelled.{none, atom, symbol};
ghost use Rattle.ql_forms.specs.View.{spelling_of};
ghost use Rattle.ql_read.specs.Numbering.{GoesOn};
ghost use Rattle.ql_read.specs.Scan.{top, push, close, put_dot};
ghost use Rattle.ql_read.specs.View.{nested, state_of, deeper_at, is_past};

use crate::lists::{dotted_list, proper_list, quoted};
use crate::token::Token;
use ql_base::names::Names;
use ql_base::numbers::Offset;
use ql_base::refusal::FaultKind;
use ql_forms::form::{Atom, Form};
use sqlite_items::Boxed;
use std::alloc::{AllocError, Global};

/// How many levels stand inside one another at most.
const LEVELS: usize = 200;

/// A list or a quote mark that is open. Each is a level.
#[derive(Drop)]
pub enum Frame {
    /// The items so far.
    InList {
        at: u64,
        items: Vec<Form>,
    },
    /// After the dot, whose form is awaited.
    InTail {
        at: u64,
        items: Vec<Form>,
    },
    /// After the form after the dot.
    PastTail {
        at: u64,
        items: Vec<Form>,
        tail: Boxed<Form>,
    },
    /// After a quote mark, whose form is awaited.
    InQuote {
        at: u64,
    },
}

/// The lists and quote marks that are open, the outermost first, the forms outside all of them, and
/// the names of the symbols so far.
#[derive(Drop)]
pub struct Nesting {
    pub alloc: Global,
    pub frames: Vec<Frame>,
    pub top: Vec<Form>,
    pub names: Names,
}

impl Nesting {
    /// Nothing is open.
    pub fn new(alloc: Global) -> Result<Nesting, AllocError>
        ensures nothing { (later : List (List ℕ)) → IfOk result (λ n. nested later n ≡ top none) }
        ensures names { IfOk result (λ n. n.names ≡ reserved) }
    {
        let names = Names::new(alloc)?;
        Ok(Nesting {
            alloc,
            frames: Vec::new(alloc),
            top: Vec::new(alloc),
            names,
        })
    }

    /// A symbol of these letters has ended.
    pub fn put_symbol(&mut self, at: u64, letters: &[u8]) -> Result<(), AllocError>
        ensures ok { (later : List (List ℕ)) → GoesOn reserved later → GoesOn (with_name self.old.names letters.now) later
            → OnOk result (nested later self.new ≡ push (atom at (symbol letters.now)) (nested later self.old)) }
        ensures names { OnOk result (self.new.names ≡ with_name self.old.names letters.now) }
    {
        let number = self.names.number(letters)?;
        self.put(Form::Atom {
            at: Offset(at),
            atom: Atom::Sym(number),
        })
    }

    /// A form has ended. It ends the quote marks directly around it too.
    pub fn put(&mut self, form: Form) -> Result<(), AllocError>
        ensures ok { (later : List (List ℕ)) → GoesOn reserved later
            → OnOk result (nested later self.new ≡ push (spelling_of later form) (nested later self.old)) }
        ensures names { self.new.names ≡ self.old.names }
    {
        let mut ended = form;
        'frames: loop {
            match self.frames.pop() {
                None => {
                    self.top.push(ended)?;
                    return Ok(());
                }
                Some(Frame::InQuote { at }) => {
                    ended = quoted(self.alloc, at, ended)?;
                }
                Some(Frame::InList { at, items }) => {
                    let mut more = items;
                    more.push(ended)?;
                    self.frames.push(Frame::InList { at, items: more })?;
                    return Ok(());
                }
                Some(Frame::InTail { at, items }) => {
                    let tail = Boxed::new(self.alloc, ended)?;
                    self.frames.push(Frame::PastTail { at, items, tail })?;
                    return Ok(());
                }
                Some(Frame::PastTail { at, items, tail }) => {
                    // No form begins here, so none ends here.
                    self.frames.push(Frame::PastTail { at, items, tail })?;
                    return Ok(());
                }
            }
        }
    }

    /// A closing parenthesis.
    #[inline(always)]
    pub fn close(&mut self, at: u64) -> Result<Token, AllocError>
        ensures ok { (later : List (List ℕ)) → GoesOn reserved later
            → IfOk result (λ t. state_of t (at + 1) (nested later self.new) ≡ close at (nested later self.old)) }
        ensures names { self.new.names ≡ self.old.names }
    {
        match self.frames.pop() {
            Some(Frame::InList { at: from, items }) => {
                self.put(proper_list(from, items))?;
                Ok(Token::Between)
            }
            Some(
                Frame::PastTail {
                    at: from,
                    items,
                    tail,
                },
            ) => {
                let list = dotted_list(from, items, tail.into_inner())?;
                self.put(list)?;
                Ok(Token::Between)
            }
            Some(Frame::InTail { .. }) => Ok(Token::Bad {
                at,
                fault: FaultKind::BadDot,
            }),
            Some(Frame::InQuote { .. }) => Ok(Token::Bad {
                at,
                fault: FaultKind::StrayClose,
            }),
            None => Ok(Token::Bad {
                at,
                fault: FaultKind::StrayClose,
            }),
        }
    }

    /// One more level.
    #[inline(always)]
    pub fn deeper(&mut self, at: u64, frame: Frame) -> Result<Token, AllocError>
        ensures ok { (later : List (List ℕ)) → IfOk result (λ t. state_of t (at + 1) (nested later self.new) ≡ deeper_at later at frame (nested later self.old)) }
        ensures names { self.new.names ≡ self.old.names }
    {
        if self.frames.len() < LEVELS {
            self.frames.push(frame)?;
            Ok(Token::Between)
        } else {
            Ok(Token::Bad {
                at,
                fault: FaultKind::TooDeep,
            })
        }
    }

    /// A dot. It stands only in a list with an item, and only once.
    pub fn put_dot(&mut self, at: u64) -> Result<Token, AllocError>
        ensures ok { (later : List (List ℕ)) → IfOk result (λ t. state_of t (at + 1) (nested later self.new) ≡ put_dot at (nested later self.old)) }
        ensures names { self.new.names ≡ self.old.names }
    {
        match self.frames.pop() {
            Some(Frame::InList { at: from, items }) => {
                if items.is_empty() {
                    Ok(Token::Bad {
                        at,
                        fault: FaultKind::BadDot,
                    })
                } else {
                    self.frames.push(Frame::InTail { at: from, items })?;
                    Ok(Token::AfterDot)
                }
            }
            Some(Frame::PastTail { .. }) => Ok(Token::Bad {
                at,
                fault: FaultKind::BadDot,
            }),
            Some(Frame::InTail { .. }) => Ok(Token::Bad {
                at,
                fault: FaultKind::BadDot,
            }),
            Some(Frame::InQuote { .. }) => Ok(Token::Bad {
                at,
                fault: FaultKind::BadDot,
            }),
            None => Ok(Token::Bad {
                at,
                fault: FaultKind::BadDot,
            }),
        }
    }

    /// Whether the form after the dot of the innermost list has ended, so that no other may begin.
    pub fn is_past_tail(&self) -> bool
        ensures { (later : List (List ℕ)) → result ≡ is_past (nested later self.now) }
    {
        match self.frames.last() {
            Some(Frame::PastTail { .. }) => true,
            Some(Frame::InList { .. }) => false,
            Some(Frame::InTail { .. }) => false,
            Some(Frame::InQuote { .. }) => false,
            None => false,
        }
    }
}

//! The forms of rules.
ghost use Rattle.std.specs.Prelude.{◌≡◌, ◌∷◌, reverse, Some, None, MatchOption, IfOk};
ghost use Rattle.std.specs.Option.{option_copied};
ghost use Rattle.sym_judge.specs.Forms.{joined_base, taken_base, added, taken, with_word, term_of, form_of, missing_form, form_by, is_cfa, same_token, same_words, same_form};
ghost use Rattle.sym_judge.specs.internal.Stacks.{HasNoSum, HasNoTwo, one_of, is_undefined, form_view};

use crate::terms::{Base, Sum, Term};
use std::alloc::Global;
use sym_edges::OutOfMemory;
use sym_rules::{Target, Token};

/// The form of a rule.
#[derive(Clone, Copy)]
pub enum Form<'r> {
    Term(Term),
    NoValue,
    Words(&'r [Token]),
}

fn joined_base(a: Base, b: Base) -> Option<Base>
    ensures { result ≡ joined_base a b }
{
    match (a, b) {
        (a, Base::Nothing) => Some(a),
        (Base::Nothing, b) => Some(b),
        _ => None,
    }
}

fn taken_base(a: Base, b: Base) -> Option<Base>
    ensures { result ≡ taken_base a b }
{
    match b {
        Base::Nothing => Some(a),
        _ => None,
    }
}

fn added(a: Sum, b: Sum) -> Option<Sum>
    ensures { result ≡ added a b }
{
    match joined_base(a.base, b.base) {
        None => None,
        Some(base) => Some(Sum {
            base,
            offset: a.offset.wrapping_add(b.offset),
        }),
    }
}

fn taken(a: Sum, b: Sum) -> Option<Sum>
    ensures { result ≡ taken a b }
{
    match taken_base(a.base, b.base) {
        None => None,
        Some(base) => Some(Sum {
            base,
            offset: a.offset.wrapping_sub(b.offset),
        }),
    }
}

/// Takes the sum from the top of the stack.
#[tactic(auto, using(crate::proofs::StackLemmas::no_sum_none, crate::proofs::StackLemmas::no_sum_fetched))]
fn pop_sum(stack: &mut Vec<Term>) -> Option<Sum>
    ensures { MatchOption result (HasNoSum stack.old.items) (λ s. reverse stack.old.items ≡ Term.Plain s ∷ reverse stack.new.items) }
{
    match stack.pop() {
        Some(Term::Plain(sum)) => Some(sum),
        Some(Term::Fetched(_)) => None,
        None => None,
    }
}

/// Takes the two sums from the top of the stack, and returns them in the order in which they were pushed.
#[tactic(auto, using(crate::proofs::StackLemmas::none_no_two, crate::proofs::StackLemmas::one_no_two))]
fn pop_two(stack: &mut Vec<Term>) -> Option<(Sum, Sum)>
    ensures { MatchOption result (HasNoTwo stack.old.items) (λ two. reverse stack.old.items ≡ Term.Plain two.1 ∷ Term.Plain two.0 ∷ reverse stack.new.items) }
{
    let b = pop_sum(stack)?;
    let a = pop_sum(stack)?;
    Some((a, b))
}

fn plain(sum: Option<Sum>) -> Option<Term>
    ensures { MatchOption sum (result ≡ None) (λ s. result ≡ Some (Term.Plain s)) }
{
    match sum {
        None => None,
        Some(sum) => Some(Term::Plain(sum)),
    }
}

/// The term that a word leaves on the stack, after the terms that it takes were taken off.
#[tactic(auto, unfolding(crate::specs::Forms::with_word))]
fn term_after(word: &Token, inside: bool, stack: &mut Vec<Term>) -> Option<Term>
    ensures { MatchOption result
        (with_word inside word.now (reverse stack.old.items) ≡ None)
        (λ t. with_word inside word.now (reverse stack.old.items) ≡ Some (t ∷ reverse stack.new.items)) }
{
    match word {
        Token::Number(n) => Some(Term::Plain(Sum {
            base: Base::Nothing,
            offset: n.cast_unsigned(),
        })),
        Token::Reg(register) => Some(Term::Plain(Sum {
            base: Base::Register(*register),
            offset: 0,
        })),
        Token::Cfa => {
            if inside {
                return None;
            }
            Some(Term::Plain(Sum {
                base: Base::Cfa,
                offset: 0,
            }))
        }
        Token::Add => {
            let (a, b) = pop_two(stack)?;
            plain(added(a, b))
        }
        Token::Sub => {
            let (a, b) = pop_two(stack)?;
            plain(taken(a, b))
        }
        Token::Fetch => {
            let a = pop_sum(stack)?;
            Some(Term::Fetched(a))
        }
        _ => None,
    }
}

/// The term of a stack, if it has only one.
fn one_term(stack: &[Term]) -> Option<Term>
    ensures { result ≡ one_of (reverse stack.now) }
{
    match stack {
        [term] => Some(*term),
        _ => None,
    }
}

/// The sum or fetch that words compute, if they do nothing else.
fn term_of(alloc: Global, inside: bool, words: &[Token]) -> Result<Option<Term>, OutOfMemory>
    ensures { IfOk result (λ t. t ≡ term_of inside words.now) }
{
    let mut stack = Vec::new(alloc);
    'words: for word in words {
        match term_after(word, inside, &mut stack) {
            Some(term) => stack.push(term)?,
            None => return Ok(None),
        }
    }
    Ok(one_term(stack.as_slice()))
}

/// Whether the words are `.undef` alone.
fn is_undefined(words: &[Token]) -> bool
    ensures { result ≡ is_undefined words.now }
{
    match words {
        [Token::Undef] => true,
        _ => false,
    }
}

/// The form of a rule's words. `inside` says that the rule is the CFA's.
#[tactic(auto, using(crate::proofs::StackLemmas::form_undefined, crate::proofs::StackLemmas::form_defined))]
pub(crate) fn form_of<'r>(
    alloc: Global,
    inside: bool,
    words: &'r [Token],
) -> Result<Form<'r>, OutOfMemory>
    ensures { IfOk result (λ f. form_view f ≡ form_of inside words.now) }
{
    if is_undefined(words) {
        return Ok(Form::NoValue);
    }
    match term_of(alloc, inside, words)? {
        None => Ok(Form::Words(words)),
        Some(term) => Ok(Form::Term(term)),
    }
}

/// The form of a missing rule: a register that a call keeps has its value, rsp is the CFA, and nothing is known of the others.
#[tactic(auto, unfolding(sym_edges::specs::Abi::default_of, sym_edges::specs::Abi::is_kept))]
pub(crate) fn missing_form(target: &Target) -> Form<'static>
    ensures { form_view result ≡ missing_form target.now }
{
    let Target::Reg(register) = target else {
        return Form::NoValue;
    };
    let register = *register;
    if register == 3 || register == 6 || (12 <= register && register <= 15) {
        return Form::Term(Term::Plain(Sum {
            base: Base::Register(register),
            offset: 0,
        }));
    }
    if register == 7 {
        return Form::Term(Term::Plain(Sum {
            base: Base::Cfa,
            offset: 0,
        }));
    }
    Form::NoValue
}

/// Whether the target is the CFA.
pub(crate) fn is_cfa(target: &Target) -> bool
    ensures { result ≡ is_cfa target.now }
{
    matches!(target, Target::Cfa)
}

/// The form of a target's rule, or of a missing rule.
pub(crate) fn form_by<'r>(
    alloc: Global,
    target: &Target,
    words: Option<&'r [Token]>,
) -> Result<Form<'r>, OutOfMemory>
    ensures { IfOk result (λ f. form_view f ≡ form_by target.now (option_copied words.entry)) }
{
    match words {
        None => Ok(missing_form(target)),
        Some(words) => form_of(alloc, is_cfa(target), words),
    }
}

fn is_same_token(a: &Token, b: &Token) -> bool
    ensures { result ≡ same_token a.now b.now }
{
    match (a, b) {
        (Token::Number(a), Token::Number(b)) => *a == *b,
        (Token::Reg(a), Token::Reg(b)) => *a == *b,
        (Token::Other(a), Token::Other(b)) => a.as_slice() == b.as_slice(),
        (Token::Cfa, Token::Cfa)
        | (Token::Undef, Token::Undef)
        | (Token::Add, Token::Add)
        | (Token::Sub, Token::Sub)
        | (Token::Mul, Token::Mul)
        | (Token::Div, Token::Div)
        | (Token::Rem, Token::Rem)
        | (Token::Align, Token::Align)
        | (Token::Fetch, Token::Fetch) => true,
        _ => false,
    }
}

/// Whether two lists have the same words.
pub(crate) fn are_same_words(a: &[Token], b: &[Token]) -> bool
    ensures { result ≡ same_words a.now b.now }
{
    let mut front = a;
    let mut back = b;
    'words: while let Some((x, xs)) = front.split_first() {
        let Some((y, ys)) = back.split_first() else {
            return false;
        };
        if !is_same_token(x, y) {
            return false;
        }
        front = xs;
        back = ys;
    }
    back.is_empty()
}

/// Whether two forms are the same.
pub(crate) fn is_same_form(a: Form<'_>, b: Form<'_>) -> bool
    ensures { result ≡ same_form (form_view a.entry) (form_view b.entry) }
{
    match (a, b) {
        (Form::Term(a), Form::Term(b)) => a == b,
        (Form::NoValue, Form::NoValue) => true,
        (Form::Words(a), Form::Words(b)) => are_same_words(a, b),
        _ => false,
    }
}

/// Whether the rules of a target have one form; either rule may be missing.
pub(crate) fn have_same_form(
    alloc: Global,
    target: &Target,
    a: Option<&[Token]>,
    b: Option<&[Token]>,
) -> Result<bool, OutOfMemory>
    ensures { IfOk result (λ same. same ≡ same_form (form_by target.now (option_copied a.entry)) (form_by target.now (option_copied b.entry))) }
{
    let first = form_by(alloc, target, a)?;
    let second = form_by(alloc, target, b)?;
    Ok(is_same_form(first, second))
}

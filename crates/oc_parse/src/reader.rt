//! The tokens that are left.
ghost use Rattle.std.specs.Prelude.{◌≡◌, suc, ◌+◌, length, Ok, Some, None, is_some, MatchBool, MatchOption, MatchResult, OnOk, IfNone, IfSome, slice_range};
ghost use Rattle.oc_grammar.specs.Reading.{next_at, strip_mark, strip_word, expect_mark, expect_word, name_at, number_at, take_word, operator_front};
ghost use Rattle.oc_grammar.specs.ReadingExpressions.{spend_at};
ghost use Rattle.std.specs.Bool.{OnFalse};
ghost use Rattle.oc_grammar.specs.Lexemes.{lexeme_of, says};
ghost use Rattle.oc_parse.specs.Steps.{Reads, ReadsOver, Stopped, left, mark_is, word_is, kind_infix, kind_operator, infix_front};

use crate::stop::Stop;
use oc_lex::{Kind, Mark, Token, Word};
use oc_tree::name::Name;
use oc_tree::tree::BinaryOp;
use std::alloc::Global;

/// A source and those of its tokens that are left.
#[derive(Drop)]
pub struct Reader<'a> {
    pub alloc: Global,
    pub source: &'a [u8],
    pub rest: &'a [Token],
    /// Whether `atomic` is a word of the grammar.
    pub atomic: bool,
}

/// The binary operator that a token is, with its level.
fn infix_in(token: Token) -> Option<(BinaryOp, u32)>
    ensures { result ≡ kind_infix token.kind }
{
    match token.kind {
        Kind::Mark(Mark::Star) => Some((BinaryOp::Mul, 1)),
        Kind::Mark(Mark::Slash) => Some((BinaryOp::Div, 1)),
        Kind::Mark(Mark::Percent) => Some((BinaryOp::Rem, 1)),
        Kind::Mark(Mark::Plus) => Some((BinaryOp::Add, 2)),
        Kind::Mark(Mark::Minus) => Some((BinaryOp::Sub, 2)),
        Kind::Mark(Mark::Equal) => Some((BinaryOp::Eq, 3)),
        Kind::Mark(Mark::NotEqual) => Some((BinaryOp::Ne, 3)),
        Kind::Mark(Mark::Less) => Some((BinaryOp::Lt, 3)),
        Kind::Mark(Mark::LessEqual) => Some((BinaryOp::Le, 3)),
        Kind::Mark(Mark::Greater) => Some((BinaryOp::Gt, 3)),
        Kind::Mark(Mark::GreaterEqual) => Some((BinaryOp::Ge, 3)),
        Kind::Mark(Mark::And) => Some((BinaryOp::And, 4)),
        Kind::Mark(Mark::Or) => Some((BinaryOp::Or, 5)),
        _ => None,
    }
}

/// The operator that a token is, if it is one of this level.
fn operator_in(level: u32, token: Token) -> Option<BinaryOp>
    ensures { result ≡ kind_operator level token.kind }
{
    let (op, at) = infix_in(token)?;
    if at == level { Some(op) } else { None }
}

/// Whether a token is this mark.
fn is_mark(token: Token, mark: Mark) -> bool
    ensures { result ≡ mark_is mark token.kind }
{
    match token.kind {
        Kind::Mark(found) => found == mark,
        _ => false,
    }
}

/// Whether a word stands in the grammar: `atomic` in the larger one alone.
fn says(atomic: bool, word: Word) -> bool
    ensures { result ≡ says atomic word }
{
    match word {
        Word::Atomic => atomic,
        _ => true,
    }
}

/// Whether a token is this word, and the word stands in the grammar.
fn is_word(atomic: bool, token: Token, word: Word) -> bool
    ensures { result ≡ word_is atomic word token.kind }
{
    match token.kind {
        Kind::Word(found) => says(atomic, found) && found == word,
        _ => false,
    }
}

impl Reader<'_> {
    /// The fault that no form goes on with the token in front.
    pub fn refuse(&self) -> Stop
        ensures { result ≡ Stop.Syntax (length self.now.rest.now) }
    {
        Stop::Syntax {
            left: self.rest.len(),
        }
    }

    /// Takes the token in front.
    #[tactic(auto, unfolding(oc_grammar::specs::Reading::next_at))]
    pub fn next(&mut self) -> Result<Token, Stop>
        ensures exact { Reads (lexeme_of self.new.atomic self.new.source.now) result (left self.new)
            (next_at (left self.old)) }
        ensures shorter { OnOk result (length self.new.rest.now + 1 ≡ length self.old.rest.now) }
    {
        match self.rest {
            [] => Err(self.refuse()),
            [token, rest @ ..] => {
                self.rest = rest;
                Ok(*token)
            }
        }
    }

    /// Takes this mark, if it is in front.
    #[tactic(auto, unfolding(oc_grammar::specs::Reading::strip_mark))]
    pub fn take(&mut self, mark: Mark) -> bool
        ensures exact { MatchBool result (strip_mark mark (left self.old) ≡ Some (left self.new))
            (strip_mark mark (left self.old) ≡ None) }
        ensures kept { OnFalse result (left self.new ≡ left self.old) }
        ensures shorter { MatchBool result (length self.new.rest.now + 1 ≡ length self.old.rest.now)
            (length self.new.rest.now ≡ length self.old.rest.now) }
    {
        let [token, rest @ ..] = self.rest else {
            return false;
        };
        let found = is_mark(*token, mark);
        if found {
            self.rest = rest;
        }
        found
    }

    /// Takes this word, if it is in front.
    #[tactic(auto, unfolding(oc_grammar::specs::Reading::strip_word, oc_grammar::specs::Reading::take_word))]
    pub fn take_word(&mut self, word: Word) -> bool
        ensures pair { (result, left self.new) ≡ take_word word (left self.old) }
        ensures exact { MatchBool result (strip_word word (left self.old) ≡ Some (left self.new))
            (strip_word word (left self.old) ≡ None) }
        ensures kept { OnFalse result (left self.new ≡ left self.old) }
        ensures shorter { MatchBool result (length self.new.rest.now + 1 ≡ length self.old.rest.now)
            (length self.new.rest.now ≡ length self.old.rest.now) }
    {
        let [token, rest @ ..] = self.rest else {
            return false;
        };
        if !is_word(self.atomic, *token, word) {
            return false;
        }
        self.rest = rest;
        true
    }

    /// Takes this mark.
    #[tactic(auto, unfolding(oc_grammar::specs::Reading::expect_mark))]
    pub fn expect(&mut self, mark: Mark) -> Result<(), Stop>
        ensures exact { ReadsOver result (left self.new) (expect_mark mark (left self.old)) }
        ensures shorter { OnOk result (length self.new.rest.now + 1 ≡ length self.old.rest.now) }
    {
        if self.take(mark) {
            Ok(())
        } else {
            Err(self.refuse())
        }
    }

    /// Takes this word.
    #[tactic(auto, unfolding(oc_grammar::specs::Reading::expect_word))]
    pub fn expect_word(&mut self, word: Word) -> Result<(), Stop>
        ensures exact { ReadsOver result (left self.new) (expect_word word (left self.old)) }
        ensures shorter { OnOk result (length self.new.rest.now + 1 ≡ length self.old.rest.now) }
    {
        if self.take_word(word) {
            Ok(())
        } else {
            Err(self.refuse())
        }
    }

    /// Takes a number.
    #[tactic(auto, unfolding(oc_grammar::specs::Reading::number_at))]
    pub fn number(&mut self) -> Result<i32, Stop>
        ensures exact { Reads (λ v. v) result (left self.new) (number_at (left self.old)) }
        ensures shorter { OnOk result (length self.new.rest.now + 1 ≡ length self.old.rest.now) }
    {
        let [token, rest @ ..] = self.rest else {
            return Err(self.refuse());
        };
        let Kind::Number { value } = token.kind else {
            return Err(self.refuse());
        };
        self.rest = rest;
        Ok(value)
    }

    /// The text of a token.
    fn text(&self, token: Token) -> &[u8]
        ensures { result.now ≡ slice_range self.now.source.now token.start token.end }
    {
        let end = token.end.min(self.source.len());
        let start = token.start.min(end);
        &self.source[start..end]
    }

    /// The name that a token is.
    pub fn name_of(&self, token: Token) -> Result<Name, Stop>
        ensures { MatchResult result
            (λ name. name ≡ slice_range self.now.source.now token.start token.end)
            (λ e. e ≡ Stop.Memory) }
    {
        let bytes = Vec::from_slice(self.alloc, self.text(token))?;
        Ok(Name::new(bytes))
    }

    /// Takes a name.
    #[tactic(auto, unfolding(oc_grammar::specs::Reading::name_at))]
    pub fn name(&mut self) -> Result<Name, Stop>
        ensures exact { Reads (λ x. x) result (left self.new) (name_at (left self.old)) }
        ensures shorter { OnOk result (length self.new.rest.now + 1 ≡ length self.old.rest.now) }
    {
        let [token, rest @ ..] = self.rest else {
            return Err(self.refuse());
        };
        let Kind::Name = token.kind else {
            return Err(self.refuse());
        };
        let name = self.name_of(*token)?;
        self.rest = rest;
        Ok(name)
    }

    /// Takes an operator of this level, if one is in front.
    #[tactic(auto, unfolding(oc_grammar::specs::Reading::operator_front))]
    pub fn operator(&mut self, level: u32) -> Option<BinaryOp>
        ensures exact { MatchOption result (operator_front level (left self.old) ≡ None)
            (λ op. operator_front level (left self.old) ≡ Some (op, left self.new)) }
        ensures kept { IfNone result (left self.new ≡ left self.old) }
        ensures shorter { IfSome result
            (λ op. length self.new.rest.now + 1 ≡ length self.old.rest.now) }
    {
        let [token, rest @ ..] = self.rest else {
            return None;
        };
        let op = operator_in(level, *token)?;
        self.rest = rest;
        Some(op)
    }

    /// Whether a binary operator is in front.
    #[tactic(auto, unfolding(crate::specs::Steps::infix_front))]
    pub fn operator_stands(&self) -> bool
        ensures { result ≡ is_some (infix_front (left self.now)) }
    {
        let [token, ..] = self.rest else {
            return false;
        };
        infix_in(*token).is_some()
    }

    /// The fault that no form goes on with the token just taken.
    pub fn refuse_last(&self) -> Stop
        ensures { result ≡ Stop.Syntax (suc (length self.now.rest.now)) }
    {
        Stop::Syntax {
            left: self.rest.len() + 1,
        }
    }

    /// The fault that the `{` just taken is one block too many.
    pub fn too_many_blocks(&self) -> Stop
        ensures { result ≡ Stop.Blocks (suc (length self.now.rest.now)) }
    {
        Stop::Blocks {
            left: self.rest.len() + 1,
        }
    }

    /// The fault that the `if` in front opens one block too many.
    pub fn too_many_chained(&self) -> Stop
        ensures { result ≡ Stop.Blocks (length self.now.rest.now) }
    {
        Stop::Blocks {
            left: self.rest.len(),
        }
    }

    /// The fault that the token just taken is one bracket or prefix operator too many.
    pub fn too_many_brackets(&self) -> Stop
        ensures { result ≡ Stop.Brackets (suc (length self.now.rest.now)) }
    {
        Stop::Brackets {
            left: self.rest.len() + 1,
        }
    }

    /// Whether this word is in front.
    #[tactic(auto, unfolding(oc_grammar::specs::Reading::strip_word))]
    pub fn stands(&self, word: Word) -> bool
        ensures { result ≡ is_some (strip_word word (left self.now)) }
    {
        let [token, ..] = self.rest else {
            return false;
        };
        is_word(self.atomic, *token, word)
    }

    /// Takes one from the binary operators that an expression may still have, for the operator just
    /// taken.
    #[tactic(auto, unfolding(oc_grammar::specs::ReadingExpressions::spend_at))]
    pub fn spend(&self, operators: &mut u32) -> Result<(), Stop>
        ensures { MatchResult result
            (λ x. spend_at operators.old (left self.now) ≡ Ok operators.new)
            (λ e. Stopped e (spend_at operators.old (left self.now))) }
    {
        if *operators == 0 {
            return Err(Stop::Operators {
                left: self.rest.len() + 1,
            });
        }
        *operators -= 1;
        Ok(())
    }
}

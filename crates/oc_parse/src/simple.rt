//! Types, constants, and statements without blocks.
ghost use Rattle.std.specs.Prelude.{◌≡◌, ◌<◌, ◌≤◌, length, OnOk};
ghost use Rattle.oc_tree.specs.View.{expr_view, kind_view, right_view};
ghost use Rattle.oc_grammar.specs.Limits.{the_depths};
ghost use Rattle.oc_grammar.specs.Lexemes.{lexeme_of};
ghost use Rattle.oc_grammar.specs.Statements.{right_of as right_of_tree};
ghost use Rattle.oc_grammar.specs.ReadingStatements.{array_at, type_at, const_at, right_at, note_at, fill_at, assign_at, element_to_at, target_at, call_at, sense_at, emit_at, fresh_at, consistent_at, return_at, bind_at, let_at, set_at, simple_from};
ghost use Rattle.oc_parse.specs.Parts.{assigned_at, emitted_at};
ghost use Rattle.oc_parse.specs.Steps.{Reads, left};

use crate::expression::BRACKETS;
use crate::reader::Reader;
use crate::stop::Stop;
use oc_lex::{Kind, Mark, Token, Word};
use oc_tree::name::Name;
use oc_tree::tree::{Call, Expr, Right, StmtKind, ValueKind};

/// The right side that is this expression.
fn right_of(value: Expr) -> Right
    ensures { right_view result ≡ right_of_tree (expr_view value) }
{
    match value {
        Expr::Sense { sensor } => Right::Sense { sensor },
        Expr::Call { call } => Right::Call { call },
        value => Right::Value { value },
    }
}

impl Reader<'_> {
    /// Takes the type of an array, behind its `[`, and gives its number of words.
    #[tactic(auto, unfolding(oc_grammar::specs::ReadingStatements::array_at))]
    pub fn array(&mut self) -> Result<u32, Stop>
        ensures exact { Reads (λ n. n) result (left self.new) (array_at (left self.old)) }
        ensures shorter { OnOk result (length self.new.rest.now < length self.old.rest.now) }
    {
        self.expect_word(Word::Int)?;
        self.expect(Mark::Semicolon)?;
        let words = self.number()?;
        self.expect(Mark::CloseSquare)?;
        Ok(words.unsigned_abs())
    }

    /// Takes a type.
    #[tactic(auto, unfolding(oc_grammar::specs::ReadingStatements::type_at))]
    pub fn value_kind(&mut self) -> Result<ValueKind, Stop>
        ensures exact { Reads (λ k. k) result (left self.new) (type_at (left self.old)) }
        ensures shorter { OnOk result (length self.new.rest.now < length self.old.rest.now) }
    {
        let token = self.next()?;
        match token.kind {
            Kind::Word(Word::Int) => Ok(ValueKind::Int),
            Kind::Word(Word::Bool) => Ok(ValueKind::Bool),
            Kind::Mark(Mark::OpenSquare) => {
                let words = self.array()?;
                Ok(ValueKind::Array { words })
            }
            _ => Err(self.refuse_last()),
        }
    }

    /// Takes a number that a `-` may stand before.
    #[tactic(auto, unfolding(oc_grammar::specs::ReadingStatements::const_at))]
    pub fn constant(&mut self) -> Result<i32, Stop>
        ensures exact { Reads (λ z. z) result (left self.new) (const_at (left self.old)) }
        ensures shorter { OnOk result (length self.new.rest.now < length self.old.rest.now) }
    {
        if !self.take(Mark::Minus) {
            return self.number();
        }
        let value = self.number()?;
        Ok(value.wrapping_neg())
    }

    /// Takes a right side and the `;`.
    #[tactic(auto, using(crate::proofs::SimpleParts::right_parts))]
    fn right(&mut self) -> Result<Right, Stop>
        ensures exact { Reads right_view result (left self.new)
            (right_at the_depths (left self.old)) }
        ensures shorter { OnOk result (length self.new.rest.now < length self.old.rest.now) }
    {
        let value = self.ended_expression(Mark::Semicolon)?;
        Ok(right_of(value))
    }

    /// Takes a `=`, a right side and the `;`.
    #[tactic(auto, unfolding(crate::specs::Parts::assigned_at))]
    fn assigned(&mut self) -> Result<Right, Stop>
        ensures exact { Reads right_view result (left self.new) (assigned_at (left self.old)) }
        ensures shorter { OnOk result (length self.new.rest.now < length self.old.rest.now) }
    {
        self.expect(Mark::Assign)?;
        self.right()
    }

    /// Takes the type of a `let`, if there is one.
    #[tactic(auto, unfolding(oc_grammar::specs::ReadingStatements::note_at))]
    fn note(&mut self) -> Result<Option<ValueKind>, Stop>
        ensures exact { Reads (λ k. k) result (left self.new) (note_at (left self.old)) }
        ensures shorter { OnOk result (length self.new.rest.now ≤ length self.old.rest.now) }
    {
        if !self.take(Mark::Colon) {
            return Ok(None);
        }
        let kind = self.value_kind()?;
        Ok(Some(kind))
    }

    /// Takes a `let` behind its word.
    #[tactic(auto, unfolding(oc_grammar::specs::ReadingStatements::let_at, oc_grammar::specs::ReadingStatements::let_from))]
    fn let_statement(&mut self) -> Result<StmtKind, Stop>
        ensures exact { Reads kind_view result (left self.new) (let_at the_depths (left self.old)) }
        ensures shorter { OnOk result (length self.new.rest.now < length self.old.rest.now) }
    {
        let mutable = self.take_word(Word::Mutable);
        let name = self.name()?;
        let kind = self.note()?;
        self.expect(Mark::Assign)?;
        self.binding(mutable, name, kind)
    }

    /// Takes what a `let` binds.
    #[tactic(auto, unfolding(oc_grammar::specs::ReadingStatements::bind_at))]
    fn binding(
        &mut self,
        mutable: bool,
        name: Name,
        kind: Option<ValueKind>,
    ) -> Result<StmtKind, Stop>
        ensures exact { Reads kind_view result (left self.new)
            (bind_at the_depths mutable name kind (left self.old)) }
        ensures shorter { OnOk result (length self.new.rest.now < length self.old.rest.now) }
    {
        if self.take(Mark::OpenSquare) {
            return self.fill(mutable, name, kind);
        }
        let right = self.right()?;
        Ok(StmtKind::Let {
            mutable,
            name,
            kind,
            right,
        })
    }

    /// Takes the words of a new array behind the `[`.
    #[tactic(auto, unfolding(oc_grammar::specs::ReadingStatements::fill_at))]
    fn fill(&mut self, mutable: bool, name: Name, kind: Option<ValueKind>) -> Result<StmtKind, Stop>
        ensures exact { Reads kind_view result (left self.new)
            (fill_at mutable name kind (left self.old)) }
        ensures shorter { OnOk result (length self.new.rest.now < length self.old.rest.now) }
    {
        let initial = self.constant()?;
        self.expect(Mark::Semicolon)?;
        let words = self.number()?;
        self.expect(Mark::CloseSquare)?;
        self.expect(Mark::Semicolon)?;
        Ok(StmtKind::LetArray {
            mutable,
            name,
            kind,
            initial,
            words: words.unsigned_abs(),
        })
    }

    /// Takes a call or an assignment behind its name.
    #[tactic(auto, unfolding(oc_grammar::specs::ReadingStatements::set_at))]
    fn named_statement(&mut self, name: Name) -> Result<StmtKind, Stop>
        ensures exact { Reads kind_view result (left self.new)
            (set_at the_depths name (left self.old)) }
        ensures shorter { OnOk result (length self.new.rest.now < length self.old.rest.now) }
    {
        if self.take(Mark::OpenRound) {
            return self.call_statement(name);
        }
        if self.take(Mark::OpenSquare) {
            return self.element_assignment(name);
        }
        self.expect(Mark::Assign)?;
        self.assignment(name)
    }

    /// Takes a call as a statement, behind the function's name and the `(`.
    #[tactic(auto, unfolding(oc_grammar::specs::ReadingStatements::call_at))]
    fn call_statement(&mut self, function: Name) -> Result<StmtKind, Stop>
        ensures exact { Reads kind_view result (left self.new)
            (call_at the_depths function (left self.old)) }
        ensures shorter { OnOk result (length self.new.rest.now < length self.old.rest.now) }
    {
        let args = self.args(BRACKETS)?;
        self.expect(Mark::Semicolon)?;
        let call = Call { function, args };
        Ok(StmtKind::CallOnly { call })
    }

    /// Takes an assignment to an element, behind the array's name and the `[`.
    #[tactic(auto, using(crate::proofs::SimpleParts::element_to_parts))]
    fn element_assignment(&mut self, name: Name) -> Result<StmtKind, Stop>
        ensures exact { Reads kind_view result (left self.new)
            (element_to_at the_depths name (left self.old)) }
        ensures shorter { OnOk result (length self.new.rest.now < length self.old.rest.now) }
    {
        let index = self.ended_expression(Mark::CloseSquare)?;
        match self.assigned() {
            Ok(right) => Ok(StmtKind::AssignIndex { name, index, right }),
            Err(error) => {
                drop(index);
                Err(error)
            }
        }
    }

    /// Takes an assignment to a variable, behind its name and the `=`.
    #[tactic(auto, unfolding(oc_grammar::specs::ReadingStatements::assign_at))]
    fn assignment(&mut self, name: Name) -> Result<StmtKind, Stop>
        ensures exact { Reads kind_view result (left self.new)
            (assign_at the_depths name (left self.old)) }
        ensures shorter { OnOk result (length self.new.rest.now < length self.old.rest.now) }
    {
        let right = self.right()?;
        Ok(StmtKind::Assign { name, right })
    }

    /// Takes an assignment through a reference behind its `*`.
    #[tactic(auto, using(crate::proofs::SimpleParts::target_parts))]
    fn target_assignment(&mut self) -> Result<StmtKind, Stop>
        ensures exact { Reads kind_view result (left self.new)
            (target_at the_depths (left self.old)) }
        ensures shorter { OnOk result (length self.new.rest.now < length self.old.rest.now) }
    {
        let name = self.name()?;
        let right = self.assigned()?;
        Ok(StmtKind::AssignDeref { name, right })
    }

    /// Takes an input as a statement, behind its `sense`.
    #[tactic(auto, unfolding(oc_grammar::specs::ReadingStatements::sense_at))]
    fn sense_statement(&mut self) -> Result<StmtKind, Stop>
        ensures exact { Reads kind_view result (left self.new) (sense_at (left self.old)) }
        ensures shorter { OnOk result (length self.new.rest.now < length self.old.rest.now) }
    {
        self.expect(Mark::OpenRound)?;
        let sensor = self.name()?;
        self.expect(Mark::CloseRound)?;
        self.expect(Mark::Semicolon)?;
        Ok(StmtKind::SenseOnly { sensor })
    }

    /// Takes an output, behind its `emit`.
    #[tactic(auto, using(crate::proofs::SimpleParts::emit_parts))]
    fn emit_statement(&mut self) -> Result<StmtKind, Stop>
        ensures exact { Reads kind_view result (left self.new)
            (emit_at the_depths (left self.old)) }
        ensures shorter { OnOk result (length self.new.rest.now < length self.old.rest.now) }
    {
        self.expect(Mark::OpenRound)?;
        let port = self.name()?;
        let value = self.emitted()?;
        Ok(StmtKind::Emit { port, value })
    }

    /// Takes the `,`, the value and the `);` of an output, behind its port.
    #[tactic(auto, unfolding(crate::specs::Parts::emitted_at))]
    fn emitted(&mut self) -> Result<Expr, Stop>
        ensures exact { Reads expr_view result (left self.new) (emitted_at (left self.old)) }
        ensures shorter { OnOk result (length self.new.rest.now < length self.old.rest.now) }
    {
        self.expect(Mark::Comma)?;
        let value = self.ended_expression(Mark::CloseRound)?;
        match self.expect(Mark::Semicolon) {
            Ok(()) => Ok(value),
            Err(error) => {
                drop(value);
                Err(error)
            }
        }
    }

    /// Takes an annotation of a fresh variable, behind its `Fresh`.
    #[tactic(auto, unfolding(oc_grammar::specs::ReadingStatements::fresh_at))]
    fn fresh_statement(&mut self) -> Result<StmtKind, Stop>
        ensures exact { Reads kind_view result (left self.new) (fresh_at (left self.old)) }
        ensures shorter { OnOk result (length self.new.rest.now < length self.old.rest.now) }
    {
        self.expect(Mark::OpenRound)?;
        let name = self.name()?;
        self.expect(Mark::CloseRound)?;
        self.expect(Mark::Semicolon)?;
        Ok(StmtKind::Fresh { name })
    }

    /// Takes an annotation of a consistent set, behind its `Consistent`.
    #[tactic(auto, unfolding(oc_grammar::specs::ReadingStatements::consistent_at))]
    fn consistent_statement(&mut self) -> Result<StmtKind, Stop>
        ensures exact { Reads kind_view result (left self.new) (consistent_at (left self.old)) }
        ensures shorter { OnOk result (length self.new.rest.now < length self.old.rest.now) }
    {
        self.expect(Mark::OpenRound)?;
        let name = self.name()?;
        self.expect(Mark::Comma)?;
        let id = self.number()?;
        self.expect(Mark::CloseRound)?;
        self.expect(Mark::Semicolon)?;
        Ok(StmtKind::Consistent { name, id })
    }

    /// Takes a `return`, behind its word.
    #[tactic(auto, using(crate::proofs::SimpleParts::return_parts))]
    fn return_statement(&mut self) -> Result<StmtKind, Stop>
        ensures exact { Reads kind_view result (left self.new)
            (return_at the_depths (left self.old)) }
        ensures shorter { OnOk result (length self.new.rest.now < length self.old.rest.now) }
    {
        let value = self.ended_expression(Mark::Semicolon)?;
        Ok(StmtKind::Return { value })
    }

    /// Takes a statement without blocks, whose first token was just taken.
    pub fn simple(&mut self, token: Token) -> Result<StmtKind, Stop>
        ensures exact { Reads kind_view result (left self.new)
            (simple_from the_depths (lexeme_of self.old.atomic self.old.source.now token)
            (left self.old)) }
        ensures shorter { OnOk result (length self.new.rest.now < length self.old.rest.now) }
    {
        match token.kind {
            Kind::Name => {
                let name = self.name_of(token)?;
                self.named_statement(name)
            }
            Kind::Word(Word::Let) => self.let_statement(),
            Kind::Word(Word::Sense) => self.sense_statement(),
            Kind::Word(Word::Emit) => self.emit_statement(),
            Kind::Word(Word::Fresh) => self.fresh_statement(),
            Kind::Word(Word::Consistent) => self.consistent_statement(),
            Kind::Word(Word::Return) => self.return_statement(),
            Kind::Mark(Mark::Star) => self.target_assignment(),
            _ => Err(self.refuse_last()),
        }
    }
}

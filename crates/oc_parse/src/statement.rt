//! Statements and blocks.
ghost use Rattle.std.specs.Prelude.{◌+◌, ◌<◌, ◌≤◌, length, map, OnOk, ◌^◌};
ghost use Rattle.oc_tree.specs.View.{block_view, else_view, kind_view, stmt_view};
ghost use Rattle.oc_grammar.specs.Limits.{the_depths};
ghost use Rattle.oc_grammar.specs.Lexemes.{lexeme_of};
ghost use Rattle.oc_grammar.specs.ReadingStatements.{kind_by, if_by, for_by, while_by, atomic_by, stmt_here, stmts_at, block_at, chained_at, else_at};
ghost use Rattle.oc_parse.specs.Parts.{bounded_by, ranged_by};
ghost use Rattle.oc_parse.specs.Steps.{Adds, Fits, ReadsTo, from};

use crate::reader::Reader;
use crate::stop::Stop;
use crate::trees::add_statement;
use oc_lex::{Kind, Mark, Token, Word};
use oc_tree::tree::{Block, Expr, Stmt, StmtKind};

/// How many blocks may be in one another.
pub const BLOCKS: u32 = 32;

/// The tokens that are left, and the numbers of the next statement and block.
#[derive(Drop)]
pub struct Parser<'a> {
    pub reader: Reader<'a>,
    pub statements: u32,
    pub blocks: u32,
}

impl Parser<'_> {
    /// Takes a statement, in which so many more blocks may be in one another, and adds it to those
    /// of its block.
    #[cycle(statement)]
    #[tactic(auto, unfolding(oc_grammar::specs::ReadingStatements::stmt_here))]
    fn statement(&mut self, room: u32, statements: &mut Vec<Stmt>) -> Result<(), Stop>
        requires { Fits self.old }
        ensures exact { Adds statements.old.items statements.new.items result self.new
            (from (stmt_here the_depths room) self.old) }
        ensures fits { OnOk result (Fits self.new) }
        ensures shorter { OnOk result
            (length self.new.reader.rest.now < length self.old.reader.rest.now) }
    {
        let token = self.reader.next()?;
        let id = self.statements;
        self.statements += 1;
        let kind = self.kind(room, token)?;
        add_statement(statements, id, token.line, kind)
    }

    /// Takes what a statement does, whose first token was just taken.
    #[cycle(statement)]
    #[tactic(auto, using(crate::proofs::StatementLoops::simple_to))]
    fn kind(&mut self, room: u32, token: Token) -> Result<StmtKind, Stop>
        requires { Fits self.old }
        ensures exact { ReadsTo kind_view result self.new
            (from (kind_by the_depths (block_at the_depths room) (else_at the_depths room)
            (lexeme_of self.old.reader.atomic self.old.reader.source.now token)) self.old) }
        ensures fits { OnOk result (Fits self.new) }
        ensures shorter { OnOk result
            (length self.new.reader.rest.now < length self.old.reader.rest.now) }
    {
        match token.kind {
            Kind::Word(Word::If) => self.if_statement(room),
            Kind::Word(Word::For) => self.for_statement(room),
            Kind::Word(Word::While) => self.while_statement(room),
            Kind::Word(Word::Atomic) => {
                if self.reader.atomic {
                    self.atomic_statement(room)
                } else {
                    Err(self.reader.refuse_last())
                }
            }
            _ => self.reader.simple(token),
        }
    }

    /// Takes an `if` and its `else`, if it has one, behind its word; blocks have this room.
    #[cycle(statement)]
    #[tactic(auto, unfolding(oc_grammar::specs::ReadingStatements::if_by))]
    fn if_statement(&mut self, room: u32) -> Result<StmtKind, Stop>
        requires { Fits self.old }
        ensures exact { ReadsTo kind_view result self.new
            (from (if_by the_depths (block_at the_depths room) (else_at the_depths room))
            self.old) }
        ensures fits { OnOk result (Fits self.new) }
        ensures shorter { OnOk result
            (length self.new.reader.rest.now < length self.old.reader.rest.now) }
    {
        let condition = self.reader.expression()?;
        match self.block(room) {
            Ok(then) => match self.otherwise(room) {
                Ok(otherwise) => Ok(StmtKind::If {
                    condition,
                    then,
                    otherwise,
                }),
                Err(error) => {
                    // Written out, here and wherever a tree is let go: by `?` the drop of each form
                    // of an expression would be proved there.
                    drop(condition);
                    drop(then);
                    Err(error)
                }
            },
            Err(error) => {
                drop(condition);
                Err(error)
            }
        }
    }

    /// Takes a `for`, behind its word; blocks have this room.
    #[cycle(statement)]
    #[tactic(auto, using(crate::proofs::StatementParts::for_parts))]
    fn for_statement(&mut self, room: u32) -> Result<StmtKind, Stop>
        requires { Fits self.old }
        ensures exact { ReadsTo kind_view result self.new
            (from (for_by (block_at the_depths room)) self.old) }
        ensures fits { OnOk result (Fits self.new) }
        ensures shorter { OnOk result
            (length self.new.reader.rest.now < length self.old.reader.rest.now) }
    {
        let name = self.reader.name()?;
        let (from, to, body) = self.ranged_block(room)?;
        Ok(StmtKind::For {
            name,
            from,
            to,
            body,
        })
    }

    /// Takes the ends and the block of a `for`, behind its variable; blocks have this room.
    #[cycle(statement)]
    #[tactic(auto, unfolding(crate::specs::Parts::ranged_by))]
    fn ranged_block(&mut self, room: u32) -> Result<(i32, i32, Block), Stop>
        requires { Fits self.old }
        ensures exact { ReadsTo (λ x. (x.0, x.1, block_view x.2)) result self.new
            (from (ranged_by (block_at the_depths room)) self.old) }
        ensures fits { OnOk result (Fits self.new) }
        ensures shorter { OnOk result
            (length self.new.reader.rest.now < length self.old.reader.rest.now) }
    {
        self.reader.expect_word(Word::In)?;
        let from = self.reader.constant()?;
        self.reader.expect(Mark::Range)?;
        let to = self.reader.constant()?;
        let body = self.block(room)?;
        Ok((from, to, body))
    }

    /// Takes a `while`, behind its word; blocks have this room.
    #[cycle(statement)]
    #[tactic(auto, using(crate::proofs::StatementParts::while_parts))]
    fn while_statement(&mut self, room: u32) -> Result<StmtKind, Stop>
        requires { Fits self.old }
        ensures exact { ReadsTo kind_view result self.new
            (from (while_by the_depths (block_at the_depths room)) self.old) }
        ensures fits { OnOk result (Fits self.new) }
        ensures shorter { OnOk result
            (length self.new.reader.rest.now < length self.old.reader.rest.now) }
    {
        let condition = self.reader.expression()?;
        match self.bounded_block(room) {
            Ok((bound, body)) => Ok(StmtKind::While {
                condition,
                bound,
                body,
            }),
            Err(error) => {
                drop(condition);
                Err(error)
            }
        }
    }

    /// Takes the bound and the block of a `while`, behind its condition; blocks have this room.
    #[cycle(statement)]
    #[tactic(auto, unfolding(crate::specs::Parts::bounded_by))]
    fn bounded_block(&mut self, room: u32) -> Result<(u32, Block), Stop>
        requires { Fits self.old }
        ensures exact { ReadsTo (λ x. (x.0, block_view x.1)) result self.new
            (from (bounded_by (block_at the_depths room)) self.old) }
        ensures fits { OnOk result (Fits self.new) }
        ensures shorter { OnOk result
            (length self.new.reader.rest.now < length self.old.reader.rest.now) }
    {
        self.reader.expect_word(Word::Bound)?;
        let bound = self.reader.number()?;
        let body = self.block(room)?;
        Ok((bound.unsigned_abs(), body))
    }

    /// Takes the block of an `atomic`.
    #[cycle(statement)]
    #[tactic(auto, unfolding(oc_grammar::specs::ReadingStatements::atomic_by))]
    fn atomic_statement(&mut self, room: u32) -> Result<StmtKind, Stop>
        requires { Fits self.old }
        ensures exact { ReadsTo kind_view result self.new
            (from (atomic_by (block_at the_depths room)) self.old) }
        ensures fits { OnOk result (Fits self.new) }
        ensures shorter { OnOk result
            (length self.new.reader.rest.now < length self.old.reader.rest.now) }
    {
        let then = self.block(room)?;
        Ok(StmtKind::If {
            condition: Expr::Truth { value: true },
            then,
            otherwise: None,
        })
    }

    /// Takes an `else` with its block or `if`, if there is one.
    #[cycle(statement)]
    #[tactic(auto, unfolding(oc_grammar::specs::ReadingStatements::else_at))]
    fn otherwise(&mut self, room: u32) -> Result<Option<Block>, Stop>
        requires { Fits self.old }
        ensures exact { ReadsTo else_view result self.new
            (from (else_at the_depths room) self.old) }
        ensures fits { OnOk result (Fits self.new) }
        ensures shorter { OnOk result
            (length self.new.reader.rest.now ≤ length self.old.reader.rest.now) }
    {
        if !self.reader.take_word(Word::Else) {
            return Ok(None);
        }
        let block = if self.reader.stands(Word::If) {
            self.else_if(room)?
        } else {
            self.block(room)?
        };
        Ok(Some(block))
    }

    /// Takes the `if` in front as the only statement of a block that it opens.
    #[cycle(statement)]
    fn else_if(&mut self, room: u32) -> Result<Block, Stop>
        requires fits { Fits self.old }
        requires more { self.old.blocks + length self.old.reader.rest.now + 1 < 2 ^ 32 }
        ensures exact { ReadsTo block_view result self.new
            (from (chained_at the_depths room) self.old) }
        ensures fits { OnOk result (Fits self.new) }
        ensures shorter { OnOk result
            (length self.new.reader.rest.now < length self.old.reader.rest.now) }
    {
        if room == 0 {
            return Err(self.reader.too_many_chained());
        }
        let id = self.blocks;
        self.blocks += 1;
        let mut statements = Vec::new(self.reader.alloc);
        self.statement(room - 1, &mut statements)?;
        Ok(Block { id, statements })
    }

    /// Takes a block.
    #[cycle(statement)]
    pub fn block(&mut self, room: u32) -> Result<Block, Stop>
        requires { Fits self.old }
        ensures exact { ReadsTo block_view result self.new
            (from (block_at the_depths room) self.old) }
        ensures fits { OnOk result (Fits self.new) }
        ensures shorter { OnOk result
            (length self.new.reader.rest.now < length self.old.reader.rest.now) }
    {
        self.reader.expect(Mark::OpenCurly)?;
        if room == 0 {
            return Err(self.reader.too_many_blocks());
        }
        let id = self.blocks;
        self.blocks += 1;
        let statements = self.statements(room - 1)?;
        Ok(Block { id, statements })
    }

    /// Takes the statements of a block up to its `}`.
    #[cycle(statement)]
    fn statements(&mut self, room: u32) -> Result<Vec<Stmt>, Stop>
        requires { Fits self.old }
        ensures exact { ReadsTo (λ ss. map stmt_view ss.items) result self.new
            (from (stmts_at the_depths room) self.old) }
        ensures fits { OnOk result (Fits self.new) }
        ensures shorter { OnOk result
            (length self.new.reader.rest.now < length self.old.reader.rest.now) }
    {
        let mut statements = Vec::new(self.reader.alloc);
        while !self.reader.take(Mark::CloseCurly) {
            self.statement(room, &mut statements)?;
        }
        Ok(statements)
    }
}

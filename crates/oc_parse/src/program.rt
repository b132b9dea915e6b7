//! Whole programs.
ghost use Rattle.std.specs.Prelude.{◌≡◌, ◌≤◌, ◌-◌, ℕ, Bool, true, List, length, IfOk, MatchResult};
ghost use Rattle.oc_lex.specs.Limits.{source_limit};
ghost use Rattle.oc_tree.specs.Tree.{TProgram};
ghost use Rattle.oc_tree.specs.Nodes.{program_nodes};
ghost use Rattle.oc_tree.specs.View.{program_view};
ghost use Rattle.oc_lex.specs.Tokens.{AreTokens};
ghost use Rattle.oc_lex.specs.Stands.{IsName};
ghost use Rattle.oc_tree.specs.Form.{InForm};
ghost use Rattle.oc_grammar.specs.Limits.{the_depths};
ghost use Rattle.oc_grammar.specs.Lexemes.{last_line as last_line_of, lexemes_in, lexemes_of};
ghost use Rattle.oc_grammar.specs.Programs.{SpellsProgram, empty_program};
ghost use Rattle.oc_grammar.specs.ReadingPrograms.{program_at};
ghost use Rattle.oc_parse.specs.Atomics.{atomics};
ghost use Rattle.oc_parse.specs.Steps.{Whole, Faults};

use crate::atomics::atomics;
use crate::reader::Reader;
use crate::statement::Parser;
use crate::stop::Stop;
use oc_lex::Token;
use oc_tree::name::Names;
use oc_tree::tree::{Program, StmtId};
use std::alloc::Global;
use thiserror::Error;

/// Why tokens spell no program within the depths.
#[derive(Clone, Copy, Debug, Error)]
pub enum ParseError {
    /// No program goes on with this token, or with the end where it is the number of tokens.
    #[error("no program goes on at the token {token}")]
    Syntax { token: usize },
    /// This token passes a depth.
    #[error("the token {token} passes a depth")]
    Depth { token: usize },
    /// There is no memory left.
    #[error("out of memory")]
    Memory,
}

/// The tree of the program that the tokens of a source of at most 1 MiB spell: at most 32 blocks in
/// one another, and in a whole expression at most 33 brackets and prefix operators in one another
/// and at most 255 binary operators.
pub fn parse(alloc: Global, source: &[u8], tokens: &[Token]) -> Result<Program, ParseError>
    requires tokens { AreTokens source.now tokens.now }
    requires small { length source.now ≤ source_limit }
    // What comes with Ok is spelled by the tokens.
    ensures found { IfOk result
        (λ p. SpellsProgram the_depths (program_view p) (lexemes_of source.now tokens.now)) }
    // What the tokens spell comes, unless memory runs out.
    ensures only { (p : TProgram) → SpellsProgram the_depths p (lexemes_of source.now tokens.now)
        → MatchResult result (λ q. program_view q ≡ p) (λ e. e ≡ ParseError.Memory) }
    // It is in form: names, numbers and the places of declarations are those of the language, and
    // statements and blocks are numbered in source order.
    ensures form { IfOk result (λ p. InForm IsName (program_view p)) }
    // Its expressions have no more nodes than there are tokens.
    ensures nodes { IfOk result (λ p. program_nodes (program_view p) ≤ length tokens.now) }
    // `Syntax` names the first token up to and with which no program begins, or the number of
    // tokens where they begin one and spell none, with no depth passed before; `Depth` the first
    // token that passes a depth while a program begins up to and with it.
    ensures fault { Faults result (lexemes_of source.now tokens.now) }
{
    parse_program(alloc, source, tokens, false)
}

/// The tree of the program that the tokens of a source spell in the grammar with `atomic`, where
/// `atomic B` has the tree of `if true B`, and the numbers that the statements with `atomic` have in
/// the expansion, which rise.
pub fn parse_blocks(
    alloc: Global,
    source: &[u8],
    tokens: &[Token],
) -> Result<(Program, Vec<StmtId>), ParseError>
    requires tokens { AreTokens source.now tokens.now }
    requires small { length source.now ≤ source_limit }
    ensures found { IfOk result
        (λ r. SpellsProgram the_depths (program_view r.0) (lexemes_in true source.now tokens.now)) }
    ensures only { (p : TProgram)
        → SpellsProgram the_depths p (lexemes_in true source.now tokens.now)
        → MatchResult result (λ r. program_view r.0 ≡ p) (λ e. e ≡ ParseError.Memory) }
    ensures form { IfOk result (λ r. InForm IsName (program_view r.0)) }
    ensures nodes { IfOk result (λ r. program_nodes (program_view r.0) ≤ length tokens.now) }
    ensures blocks { IfOk result
        (λ r. r.1.items ≡ atomics (program_view r.0) (lexemes_in true source.now tokens.now)) }
    ensures fault { Faults result (lexemes_in true source.now tokens.now) }
{
    match parse_program(alloc, source, tokens, true) {
        Ok(program) => match atomics(alloc, &program, tokens) {
            Ok(blocks) => Ok((program, blocks)),
            Err(_) => Err(ParseError::Memory),
        },
        Err(error) => Err(error),
    }
}

/// The tree of the program that the tokens of a source spell, in the grammar with `atomic` or in the
/// one without it.
fn parse_program(
    alloc: Global,
    source: &[u8],
    tokens: &[Token],
    atomic: bool,
) -> Result<Program, ParseError>
    requires tokens { AreTokens source.now tokens.now }
    requires small { length source.now ≤ source_limit }
    ensures found { IfOk result
        (λ p. SpellsProgram the_depths (program_view p) (lexemes_in atomic source.now tokens.now)) }
    ensures only { (p : TProgram)
        → SpellsProgram the_depths p (lexemes_in atomic source.now tokens.now)
        → MatchResult result (λ q. program_view q ≡ p) (λ e. e ≡ ParseError.Memory) }
    ensures form { IfOk result (λ p. InForm IsName (program_view p)) }
    ensures nodes { IfOk result (λ p. program_nodes (program_view p) ≤ length tokens.now) }
    ensures fault { Faults result (lexemes_in atomic source.now tokens.now) }
{
    match whole(alloc, source, tokens, atomic) {
        Ok(program) => Ok(program),
        Err(Stop::Memory) => Err(ParseError::Memory),
        Err(Stop::Syntax { left }) => Err(ParseError::Syntax {
            token: place(tokens, left),
        }),
        Err(Stop::Blocks { left }) => Err(ParseError::Depth {
            token: place(tokens, left),
        }),
        Err(Stop::Brackets { left }) => Err(ParseError::Depth {
            token: place(tokens, left),
        }),
        Err(Stop::Operators { left }) => Err(ParseError::Depth {
            token: place(tokens, left),
        }),
    }
}

/// The number of the token with which so many tokens are left.
fn place(tokens: &[Token], left: usize) -> usize
    ensures { result ≡ length tokens.now - left }
{
    tokens.len().saturating_sub(left)
}

/// The tree of the program, or why its reading stops.
fn whole(alloc: Global, source: &[u8], tokens: &[Token], atomic: bool) -> Result<Program, Stop>
    requires { length tokens.now ≤ source_limit }
    ensures { Whole result (program_at the_depths (lexemes_in atomic source.now tokens.now)) }
{
    let mut program = empty(alloc, last_line(tokens));
    let reader = Reader {
        alloc,
        source,
        rest: tokens,
        atomic,
    };
    let mut parser = Parser {
        reader,
        statements: 1,
        blocks: 1,
    };
    while !parser.reader.rest.is_empty() {
        parser.item(&mut program)?;
    }
    Ok(program)
}

/// The line of the last token, or 1 where there is none.
fn last_line(tokens: &[Token]) -> u32
    ensures { (atomic : Bool) (source : List ℕ)
        → result ≡ last_line_of (lexemes_in atomic source tokens.now) }
{
    match tokens {
        [] => 1,
        [.., last] => last.line,
    }
}

/// A program without declarations.
fn empty(alloc: Global, last_line: u32) -> Program
    ensures { program_view result ≡ empty_program last_line }
{
    Program {
        names: Names {
            sensors: Vec::new(alloc),
            ports: Vec::new(alloc),
            nvs: Vec::new(alloc),
        },
        nv: Vec::new(alloc),
        functions: Vec::new(alloc),
        order: Vec::new(alloc),
        last_line,
    }
}

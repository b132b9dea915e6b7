//! From a source to its marked program, and from that to its image.
ghost use Rattle.std.specs.Prelude.{◌≡◌, ◌≤◌, ℕ, Bool, true, List, length, IfOk, IfErr};
ghost use Rattle.oc_lex.specs.Limits.{source_limit};
ghost use Rattle.oc_tree.specs.View.{program_view};
ghost use Rattle.oc_tree.specs.Form.{InForm};
ghost use Rattle.oc_tree.specs.Nodes.{program_nodes};
ghost use Rattle.oc_lex.specs.Stands.{IsName};
ghost use Rattle.oc_lex.specs.Tokens.{AreTokens};
ghost use Rattle.oc_io.specs.Counts.{line_feeds};
ghost use Rattle.oc_grammar.specs.Lexemes.{lexemes_in};
ghost use Rattle.oc_effects.specs.Kept.{AreKeptOf};
ghost use Rattle.oc_region.specs.Inferred.{AreInferred};
ghost use Rattle.oc_writes.specs.Targets.{may_write};
ghost use Rattle.oc_isa.specs.Table.{device_of};
ghost use Rattle.oc_bounds.specs.Bounds.{IsBounded};
ghost use Rattle.oc_budget.specs.Bounding.{bounds_of};
ghost use Rattle.oc_code.specs.Right.{IsRight};
ghost use Rattle.oc_honest.specs.Timely.{RunsAreTimely};
ghost use Rattle.oc_top.specs.Faults.{token_line};
ghost use Rattle.oc_top.specs.Meant.{marked_code, program_marked};
ghost use Rattle.oc_top.specs.Sources.{Spells, line_at};
ghost use Rattle.oc_top.specs.Steps.{IsAccepted, IsMarkedOf, IsNotBuilt, IsNotRead, for_rules, for_tokens, for_tree};

use oc_budget::laws::budgets_bound;
use oc_codegen::compile;
use oc_command::answer::Answer;
use oc_desugar::expand;
use oc_effects::effects::{Effects, Kept};
use oc_flow::summaries;
use oc_io::Memory;
use oc_isa::image::Image;
use oc_lex::{LexError, Token, lex};
use oc_needs::requirements;
use oc_parse::{ParseError, parse};
use oc_region::{Inferred, infer_by, mark};
use oc_tree::checked::Checked;
use oc_tree::marked::Marked;
use oc_tree::tree::Program;
use oc_tree::written::Written;
use oc_types::{RuleError, check};
use oc_writes::may_write_by;
use std::alloc::Global;

/// How many line feeds there are.
fn count_feeds(bytes: &[u8]) -> usize
    ensures count { result ≡ line_feeds bytes.now }
    ensures few { result ≤ length bytes.now }
{
    bytes.iter().filter(|byte| **byte == b'\n').count()
}

/// The line of the byte at a place.
fn line_of(source: &[u8], at: usize) -> usize
    requires { length source.now ≤ source_limit }
    ensures { result ≡ line_at source.now at }
{
    1 + count_feeds(&source[..at.min(source.len())])
}

/// The line of the token at a place, or of the last one; 1 where there is none.
fn token_line(tokens: &[Token], token: usize) -> usize
    ensures { (atomic : Bool) (source : List ℕ)
        → result ≡ token_line (lexemes_in atomic source tokens.now) token }
{
    match tokens.get(token.min(tokens.len().saturating_sub(1))) {
        Some(token) => token.line as usize,
        None => 1,
    }
}

/// The answer to bytes that are no tokens.
fn answer_without_tokens(source: &[u8], error: LexError) -> Answer
    requires { length source.now ≤ source_limit }
    ensures { result ≡ for_tokens source.now error }
{
    match error {
        LexError::Byte { at } | LexError::Literal { at } => Answer::Syntax {
            line: line_of(source, at),
        },
        LexError::Memory => Answer::Memory,
    }
}

/// The answer to tokens that spell no program.
pub fn answer_without_tree(tokens: &[Token], error: ParseError) -> Answer
    ensures { (atomic : Bool) (source : List ℕ)
        → result ≡ for_tree (lexemes_in atomic source tokens.now) error }
{
    match error {
        ParseError::Syntax { token } | ParseError::Depth { token } => Answer::Syntax {
            line: token_line(tokens, token),
        },
        ParseError::Memory => Answer::Memory,
    }
}

/// The answer to a program that breaks a rule.
pub fn answer_without_rules(error: RuleError) -> Answer
    ensures { result ≡ for_rules error }
{
    match error {
        RuleError::Rule { line, rule } => Answer::Rule { line, rule },
        RuleError::Memory => Answer::Memory,
    }
}

/// The tokens of a source.
pub fn tokens_of(alloc: Global, source: &[u8]) -> Result<Vec<Token>, Answer>
    requires { length source.now ≤ source_limit }
    ensures tokens { IfOk result (λ ts. AreTokens source.now ts.items) }
    ensures few { IfOk result (λ ts. length ts.items ≤ length source.now) }
    ensures refused { IfErr result (λ a. IsNotBuilt source.now a) }
    ensures refused_with_blocks { IfErr result (λ a. IsNotRead true source.now a) }
{
    match lex(alloc, source) {
        Ok(tokens) => Ok(tokens),
        Err(error) => Err(answer_without_tokens(source, error)),
    }
}

/// The program that a source spells.
fn program_of(alloc: Global, source: &[u8]) -> Result<Program, Answer>
    requires { length source.now ≤ source_limit }
    ensures spelled { IfOk result (λ p. Spells source.now (program_view p)) }
    ensures form { IfOk result (λ p. InForm IsName (program_view p)) }
    ensures nodes { IfOk result (λ p. program_nodes (program_view p) ≤ source_limit) }
    ensures refused { IfErr result (λ a. IsNotBuilt source.now a) }
{
    let tokens = tokens_of(alloc, source)?;
    match parse(alloc, source, &tokens) {
        Ok(program) => Ok(program),
        Err(error) => Err(answer_without_tree(&tokens, error)),
    }
}

/// The program that a source spells, where it breaks no rule.
fn written_of(alloc: Global, source: &[u8]) -> Result<Written, Answer>
    requires { length source.now ≤ source_limit }
    ensures accepted { IfOk result (λ w. IsAccepted source.now w) }
    ensures refused { IfErr result (λ a. IsNotBuilt source.now a) }
{
    let program = program_of(alloc, source)?;
    match check(alloc, program) {
        Ok(written) => Ok(written),
        Err(error) => Err(answer_without_rules(error)),
    }
}

/// The policies and the regions of a checked program, and what its statements do.
fn inferred_of(alloc: Global, checked: &Checked) -> Result<(Inferred, Kept), Memory>
    ensures inferred { IfOk result
        (λ r. AreInferred checked.now.program checked.now.groups r.0) }
    ensures kept { IfOk result (λ r. AreKeptOf checked.now.program r.1) }
{
    let summaries = summaries(alloc, checked)?;
    let required = requirements(alloc, checked, &summaries)?;
    match infer_by(alloc, summaries.effects(), &required) {
        Ok(inferred) => Ok((inferred, summaries.into_effects().into_kept())),
        Err(_) => Err(Memory),
    }
}

/// The expansion of a written program, with the regions that its annotations ask for, and what its
/// statements do.
fn with_regions(alloc: Global, written: Written) -> Result<(Marked, Kept), Memory>
    ensures marked { IfOk result (λ r. r.0 ≡ program_marked written) }
    ensures timely { IfOk result (λ r. RunsAreTimely r.0) }
    ensures kept { IfOk result (λ r. AreKeptOf r.0.program r.1) }
{
    let checked = match expand(alloc, written) {
        Ok(checked) => checked,
        Err((_, memory)) => return Err(memory),
    };
    let (inferred, kept) = inferred_of(alloc, &checked)?;
    Ok((mark(checked, inferred), kept))
}

/// The program that a source spells, expanded and with its policies and regions, where it breaks no
/// rule, and what its statements do. What is wrong first decides the answer: a byte, a token, a
/// depth or a broken rule, with its line.
pub fn marked_with_effects(alloc: Global, source: &[u8]) -> Result<(Marked, Kept), Answer>
    requires { length source.now ≤ source_limit }
    ensures marked { IfOk result (λ r. IsMarkedOf source.now r.0) }
    ensures kept { IfOk result (λ r. AreKeptOf r.0.program r.1) }
    ensures refused { IfErr result (λ a. IsNotBuilt source.now a) }
{
    let written = written_of(alloc, source)?;
    let (marked, kept) = with_regions(alloc, written)?;
    Ok((marked, kept))
}

/// The same without what its statements do.
pub fn marked_of(alloc: Global, source: &[u8]) -> Result<Marked, Answer>
    requires { length source.now ≤ source_limit }
    ensures marked { IfOk result (λ m. IsMarkedOf source.now m) }
    ensures refused { IfErr result (λ a. IsNotBuilt source.now a) }
{
    let (marked, _kept) = marked_with_effects(alloc, source)?;
    Ok(marked)
}

/// The image of a marked program, with the write targets of its regions, by the effects of its
/// statements. The budgets of the program bound its runs.
pub fn image_by(alloc: Global, marked: &Marked, effects: &Effects) -> Result<Image, Memory>
    requires { effects.now.program ≡ marked.now.program }
    ensures code { IfOk result (λ i. i ≡ marked_code marked.now) }
    ensures right { IfOk result
        (λ i. IsRight marked.now.program marked.now.regions (may_write marked.now)) }
    ensures bounded { IfOk result
        (λ i. IsBounded (device_of i) (bounds_of marked.now)) }
{
    budgets_bound();
    marked.checked();
    let writes = may_write_by(alloc, marked, effects)?;
    let image = compile(alloc, marked, &writes)?;
    Ok(image)
}

/// The same by effects that were kept without the program.
pub fn image_of(alloc: Global, marked: &Marked, kept: Kept) -> Result<Image, Memory>
    requires { AreKeptOf marked.now.program kept }
    ensures code { IfOk result (λ i. i ≡ marked_code marked.now) }
    ensures right { IfOk result
        (λ i. IsRight marked.now.program marked.now.regions (may_write marked.now)) }
    ensures bounded { IfOk result
        (λ i. IsBounded (device_of i) (bounds_of marked.now)) }
{
    let effects = Effects::from_kept(marked.checked(), kept);
    let image = image_by(alloc, marked, &effects)?;
    Ok(image)
}

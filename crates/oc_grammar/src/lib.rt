//! The grammar: which tree of a program which tokens spell.
#![tactic(auto)]

ghost use Rattle.std.specs.Prelude.{◌≡◌, ◌⊎◌, ℕ};
ghost use Rattle.oc_tree.specs.Tree.{TProgram};
ghost use Rattle.oc_grammar.specs.Lexemes.{Lexemes};
ghost use Rattle.oc_grammar.specs.Limits.{Limits, the_depths};
ghost use Rattle.oc_grammar.specs.Depths.{IsDepth, IsSyntax};
ghost use Rattle.oc_grammar.specs.Plain.{SourcesArePlain, AtomicIsIfTrue, BeginsAlike};
ghost use Rattle.oc_grammar.specs.Programs.{SpellsProgram};

/// No two trees spell one list of tokens.
pub fn one_tree()
    ensures { (limits : Limits) (tokens : Lexemes) (p q : TProgram) → SpellsProgram limits p tokens
        → SpellsProgram limits q tokens → p ≡ q }
{}

/// Tokens spell a program within the depths, or there is a token at which they stop to begin one, or a
/// token that passes a depth: just one of the three, and just one such token.
pub fn one_fault()
    ensures one_holds { (tokens : Lexemes)
        → ((p : TProgram) × SpellsProgram the_depths p tokens)
        ⊎ (((i : ℕ) × IsSyntax tokens i) ⊎ ((i : ℕ) × IsDepth tokens i)) }
    ensures spelled_no_syntax { (tokens : Lexemes) (p : TProgram) (i : ℕ)
        → SpellsProgram the_depths p tokens → IsSyntax tokens i → ⊥ }
    ensures spelled_no_depth { (tokens : Lexemes) (p : TProgram) (i : ℕ)
        → SpellsProgram the_depths p tokens → IsDepth tokens i → ⊥ }
    ensures syntax_or_depth { (tokens : Lexemes) (i j : ℕ) → IsSyntax tokens i → IsDepth tokens j
        → ⊥ }
    ensures one_syntax { (tokens : Lexemes) (i j : ℕ) → IsSyntax tokens i → IsSyntax tokens j
        → i ≡ j }
    ensures one_depth { (tokens : Lexemes) (i j : ℕ) → IsDepth tokens i → IsDepth tokens j → i ≡ j }
{}

/// The grammar with `atomic` holds the one without it. In the tokens of a source in which `atomic` is
/// no word of the grammar it stands nowhere; `if true` in its place leaves each tree as it is; so
/// what begins a program begins one that goes on without `atomic`.
pub fn one_grammar()
    ensures plain { SourcesArePlain }
    ensures same_tree { AtomicIsIfTrue }
    ensures begins { BeginsAlike }
{}

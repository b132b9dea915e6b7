//! Names of a file.
ghost use Rattle.std.specs.Prelude.{◌≡◌, ◌++◌, [], ◌∷◌, false, OnOk};
ghost use Rattle.std.specs.List.{list_all, list_any};
ghost use Rattle.std.specs.Str.{bytes_eq};
ghost use Rattle.oc_lex.specs.Bytes.{begins_name, in_name};
ghost use Rattle.oc_tree.specs.Names.{Text};
ghost use Rattle.oc_verify.specs.Reading.{has_form, is_name, is_named, is_word};

use indexmap::IndexSet;
use oc_io::Memory;
use std::alloc::Global;
use std::marker::Model;

/// Whether a name begins with this byte: an ASCII letter or `_`.
#[tactic(auto, unfolding(oc_lex::specs::Bytes::begins_name))]
fn may_begin(byte: u8) -> bool
    ensures { result ≡ begins_name byte }
{
    matches!(byte, b'a'..=b'z' | b'A'..=b'Z' | b'_')
}

/// Whether a name goes on with this byte: an ASCII letter, a digit or `_`.
#[tactic(auto, unfolding(oc_lex::specs::Bytes::begins_name, oc_lex::specs::Bytes::in_name))]
fn may_follow(byte: u8) -> bool
    ensures { result ≡ in_name byte }
{
    matches!(byte, b'a'..=b'z' | b'A'..=b'Z' | b'_' | b'0'..=b'9')
}

/// Whether a name goes on with each of these bytes.
fn all_follow(bytes: &[u8]) -> bool
    ensures { result ≡ list_all in_name bytes.now }
{
    bytes.iter().all(|byte| may_follow(*byte))
}

/// Whether it is a letter or `_`, and then letters, digits and `_`.
fn has_form(text: &[u8]) -> bool
    ensures { result ≡ has_form text.now }
{
    match text {
        [] => false,
        [first, rest @ ..] => may_begin(*first) && all_follow(rest),
    }
}

/// Whether a text is one of these words.
fn is_any(words: &[&[u8]], text: &[u8]) -> bool
    ensures { result ≡ list_any (λ w. bytes_eq w.now text.now) words.now }
{
    words.iter().any(|word| *word == text)
}

/// Whether it is a word of the language.
fn is_word(text: &[u8]) -> bool
    ensures { result ≡ is_word text.now }
{
    let words: [&[u8]; 23] = [
        b"sensor",
        b"port",
        b"nv",
        b"fn",
        b"let",
        b"mut",
        b"if",
        b"else",
        b"for",
        b"in",
        b"while",
        b"bound",
        b"return",
        b"true",
        b"false",
        b"emit",
        b"sense",
        b"Fresh",
        b"Consistent",
        b"i32",
        b"bool",
        b"atomic",
        b"_",
    ];
    is_any(&words, text)
}

/// Whether it is a name.
#[tactic(auto, unfolding(crate::specs::Reading::is_name))]
pub fn is_name(text: &[u8]) -> bool
    ensures { result ≡ is_name text.now }
{
    has_form(text) && !is_word(text)
}

/// The names that were read, each once.
#[derive(Drop)]
pub struct Seen<'a> {
    names: IndexSet<&'a [u8]>,
}

impl<'a> Model for Seen<'a> {
    ghost use Rattle.std.specs.Prelude.{List, map};
    ghost use Rattle.oc_tree.specs.Names.{Text};

    ghost Value = { List Text };

    ghost view = { λ s. map (λ n. n.now) s.names.keys };
}

impl<'a> Seen<'a> {
    /// No name.
    pub fn new(alloc: Global) -> Seen<'a>
        ensures { result ≡ [] }
    {
        Seen {
            names: IndexSet::new(alloc),
        }
    }

    /// Whether this name was read.
    pub fn has(&self, name: &[u8]) -> bool
        ensures { result ≡ is_named self.now name.now }
    {
        self.names.contains(&name)
    }

    /// A name more, which wasn't read before.
    pub fn add(&mut self, name: &'a [u8]) -> Result<(), Memory>
        requires { is_named self.old name.now ≡ false }
        ensures { OnOk result (self.new ≡ self.old ++ name.now ∷ []) }
    {
        match self.names.insert_full(name) {
            Ok(_) => Ok(()),
            Err(_) => Err(Memory),
        }
    }
}

//! Words that are read before the parser reads the others: `--explain`, and `help`.

ghost use Rattle.std.specs.Prelude.{◌≡◌, ◌≤◌, length, map, IfOk};
ghost use Rattle.tp_command_line.specs.Asking.{asks_to_explain, ends_search as search_end, explain_place, job_words, with_help, without_explain};

use std::alloc::{AllocError, Global};
use std::convert::AsStr;

/// The words of a command line, but for those that say how refusals are printed.
#[derive(Drop)]
pub struct Asked<'a> {
    /// Whether refusals are explained.
    pub explains: bool,
    /// The words, of which the first is the program's name.
    pub words: Vec<&'a str>,
}

// The words as texts.
fn texts_of<'a, S: AsStr>(alloc: Global, words: &'a [S]) -> Result<Vec<&'a str>, AllocError>
    ensures { IfOk result (λ texts. map (λ t. t.now) texts.items ≡ map S.text words.entry.now) }
{
    let mut texts = Vec::with_capacity(alloc, words.len())?;
    for word in words {
        texts.push(word.as_str())?;
    }
    Ok(texts)
}

// Whether `--explain` isn't looked for any further.
fn ends_search(word: &str) -> bool
    ensures { result ≡ search_end word.now }
{
    word == "--explain" || word == "--"
}

// The place of the first `--explain` or `--`; how many words there are where there is none.
fn explain_at(words: &[&str]) -> usize
    ensures small { result ≤ length words.now }
    ensures place { result ≡ explain_place (map (λ t. t.now) words.now) }
{
    let mut at = 0usize;
    while at < words.len() && !ends_search(words[at]) {
        at += 1;
    }
    at
}

// Makes `COMMAND --help` of `help COMMAND`.
fn put_help(words: &mut Vec<&str>)
    ensures { map (λ t. t.now) words.new.items ≡ with_help (map (λ t. t.now) words.old.items) }
{
    if words.len() == 2 && words[1] == "help" {
        words[1] = "--help";
    } else if words.len() > 2 && words[1] == "help" {
        words[1] = words[2];
        words[2] = "--help";
    }
}

// Takes the first `--explain` out, where it comes before any `--`; whether there was one.
fn take_explain(words: &mut Vec<&str>) -> bool
    ensures asked { result ≡ asks_to_explain (map (λ t. t.now) words.old.items) }
    ensures rest { map (λ t. t.now) words.new.items
        ≡ without_explain (map (λ t. t.now) words.old.items) }
{
    let at = explain_at(words);
    if at < words.len() && words[at] == "--explain" {
        words.remove(at);
        true
    } else {
        false
    }
}

/// Takes the first `--explain` out of the words, where it comes before any `--`. Of `help COMMAND` after the program's
/// name it makes `COMMAND --help`, and of `help` alone `--help`.
pub fn words_asked<'a, S: AsStr>(alloc: Global, words: &'a [S]) -> Result<Asked<'a>, AllocError>
    ensures explains { IfOk result
        (λ a. a.explains ≡ asks_to_explain (map S.text words.entry.now)) }
    ensures words { IfOk result
        (λ a. map (λ t. t.now) a.words.items ≡ job_words (map S.text words.entry.now)) }
{
    let mut texts = texts_of(alloc, words)?;
    let explains = take_explain(&mut texts);
    put_help(&mut texts);
    Ok(Asked {
        explains,
        words: texts,
    })
}

//! The names at the head of what `patch` takes.

ghost use Rattle.std.specs.Prelude.{◌≡◌, ◌++◌, IfOk, OnOk};
ghost use Rattle.std.specs.List.{flat_map};
ghost use Rattle.std.specs.Str.{chars};
ghost use Rattle.std.specs.String.{string_bytes};
ghost use Rattle.tp_commands.specs.Naming.{head_tag, heads_tag, is_odd as is_odd_char, name_char, name_lines as lines_of_names, name_of};

use crate::graph::first_digits;
use std::alloc::{AllocError, Global};
use tp_opid::Hash;

// Whether a character ends a name, or quotes it.
fn is_odd(ch: char) -> bool
    ensures { result ≡ is_odd_char ch }
{
    ch.is_control() || ch == ' ' || ch == '"' || ch == '\\'
}

// Puts a character after the name; for one that ends or quotes it an underscore.
fn put_name_char(name: &mut String, ch: char) -> Result<(), AllocError>
    ensures { OnOk result (string_bytes name.new ≡ string_bytes name.old ++ name_char ch) }
{
    if is_odd(ch) {
        name.push_str("_")
    } else {
        name.push(ch)
    }
}

// The characters of a file's path, as they are in a name.
fn file_name(alloc: Global, file: &str) -> Result<String, AllocError>
    ensures { IfOk result (λ n. string_bytes n ≡ flat_map name_char (chars file.now)) }
{
    let mut name = String::new(alloc);
    for ch in file.chars() {
        put_name_char(&mut name, ch)?;
    }
    Ok(name)
}

// Puts the first eight digits of each of the heads after the name, each after `@`.
fn put_heads(alloc: Global, name: &mut String, heads: &[Hash]) -> Result<(), AllocError>
    ensures { OnOk result
        (string_bytes name.new ≡ string_bytes name.old ++ flat_map head_tag heads.now) }
{
    for head in heads {
        name.push_str("@")?;
        name.push_str(first_digits(alloc, head)?.as_str())?;
    }
    Ok(())
}

// Puts the heads after the name, or a word where there are none.
fn put_tag(alloc: Global, name: &mut String, heads: &[Hash], none: &str) -> Result<(), AllocError>
    ensures { OnOk result
        (string_bytes name.new ≡ string_bytes name.old ++ heads_tag none.now heads.now) }
{
    match heads {
        [] => {
            name.push_str("@")?;
            name.push_str(none)
        }
        _ => put_heads(alloc, name, heads),
    }
}

// The name of a file's text at some heads.
fn name(alloc: Global, file: &str, heads: &[Hash], none: &str) -> Result<String, AllocError>
    ensures { IfOk result (λ n. string_bytes n ≡ name_of file.now none.now heads.now) }
{
    let mut name = file_name(alloc, file)?;
    put_tag(alloc, &mut name, heads, none)?;
    Ok(name)
}

/// The lines of the names of a file's text at some heads and at others: the file's path, and the first eight digits of each
/// head after `@`; without heads `@empty` and `@now`. No such file is there, so that `patch` asks for the one that it is to
/// change. Where the path has a blank, a control character, a quote or a backslash, the name has an underscore.
pub(crate) fn name_lines(
    alloc: Global,
    file: &str,
    from: &[Hash],
    to: &[Hash],
) -> Result<String, AllocError>
    ensures { IfOk result (λ l. string_bytes l ≡ lines_of_names file.now from.now to.now) }
{
    let old = name(alloc, file, from, "empty")?;
    let new = name(alloc, file, to, "now")?;
    format!(in alloc; "--- {old}\n+++ {new}\n")
}

//! Which lines of one text become which lines of another.

ghost use Rattle.std.specs.Prelude.{◌≡◌, ◌⊎◌, IfErr, IfOk, drop, false, take};
ghost use Rattle.std.specs.Str.{chars};
ghost use Rattle.std.specs.String.{string_bytes};
ghost use Rattle.tp_snapshot.specs.Differences.{AreDifferences, LeadsTo};
ghost use Rattle.tp_document.specs.declared.error.DocError.TheVariants as doc;
ghost use Rattle.tp_history.specs.Named.{has_all};
ghost use Rattle.tp_history.specs.Past.{past};
ghost use Rattle.tp_commands.specs.Reading.{changes_at_heads};
ghost use Rattle.tp_commands.specs.Refusing.{HasNoTexts};
ghost use Rattle.tp_commands.specs.Diff.{AreHunksOf, AreReplacementsOf, IsDiff, IsDiffBetween, IsDiffOf, IsPatchOf, IsPrintedAs, IsReplacementOf, IsWordedOf, LeadsFrom, with_names as text_with_names};

use crate::error::CommandError;
use crate::naming::name_lines;
use crate::reading::{Text, document_in, text_in};
use std::alloc::{AllocError, Global};
use tp_document::{Difference, DocError};
use tp_hunks::{Hunk, Replacement, file_hunks, hunk_text, hunks, unified_text, words_text};
use tp_journal::Recovering;
use tp_list::char_count;
use tp_opid::Hash;
use tp_peer::PeerSequence;

/// How what leads from one text to another is printed.
#[derive(Clone, Copy)]
pub enum DiffForm<'a> {
    /// The lines that go, and those that come in their place.
    Lines,
    /// The lines that differ, as `patch` takes them.
    Unified {
        /// The path of the file that both texts are named after.
        file: &'a str,
        /// How many lines are printed before and after.
        context: usize,
    },
    /// The lines that differ, with what goes and what comes marked within them.
    Words {
        /// How many lines are printed before and after.
        context: usize,
    },
}

// `len` characters from a place on, as far as there are any.
fn part(text: &[char], at: usize, len: usize) -> &[char]
    ensures { result.now ≡ take len (drop at text.now) }
{
    let rest = if at < text.len() {
        &text[at..]
    } else {
        &text[..0]
    };
    if len < rest.len() { &rest[..len] } else { rest }
}

// The replacement of a difference, which leaves this text.
fn replacement_of<'a>(new: &'a [char], difference: &Difference) -> Replacement<'a>
    ensures { IsReplacementOf new.now difference.now result }
{
    let len = char_count(difference.text.as_str());
    Replacement {
        at: difference.at,
        del: difference.del,
        text: part(new, difference.at, len),
    }
}

// The replacements of the differences, which leave this text.
fn replacements<'a>(
    alloc: Global,
    new: &'a [char],
    differences: &[Difference],
) -> Result<Vec<Replacement<'a>>, AllocError>
    ensures { IfOk result (λ all. AreReplacementsOf new.now differences.now all.items) }
{
    let mut all = Vec::new(alloc);
    for difference in differences {
        all.push(replacement_of(new, difference))?;
    }
    Ok(all)
}

// The hunks from one text to another, to which the differences lead.
fn hunks_of(
    alloc: Global,
    old: &[char],
    new: &[char],
    differences: &[Difference],
) -> Result<Vec<Hunk>, AllocError>
    requires { LeadsFrom old.now new.now differences.now }
    ensures { IfOk result (λ hs. AreHunksOf old.now new.now differences.now hs.items) }
{
    let replacements = replacements(alloc, new, differences)?;
    hunks(alloc, old, new, &replacements)
}

// What is printed of these hunks.
fn diff_of(
    alloc: Global,
    old: &[char],
    new: &[char],
    differences: &[Difference],
) -> Result<String, AllocError>
    requires { LeadsFrom old.now new.now differences.now }
    ensures { IfOk result (λ l. IsDiffOf old.now new.now differences.now (string_bytes l)) }
{
    let hunks = hunks_of(alloc, old, new, differences)?;
    hunk_text(alloc, old, new, &hunks)
}

// What is printed of the hunks of files' lines, with the lines before and after them.
fn patch_of(
    alloc: Global,
    old: &[char],
    new: &[char],
    differences: &[Difference],
    context: usize,
) -> Result<String, AllocError>
    requires { LeadsFrom old.now new.now differences.now }
    ensures { IfOk result
        (λ l. IsPatchOf context old.now new.now differences.now (string_bytes l)) }
{
    let replacements = replacements(alloc, new, differences)?;
    let hunks = file_hunks(alloc, old, new, &replacements)?;
    unified_text(alloc, old, new, &hunks, context)
}

// What is printed of the lines that differ, with what goes and what comes within them.
fn words_of(
    alloc: Global,
    old: &[char],
    new: &[char],
    differences: &[Difference],
    context: usize,
) -> Result<String, AllocError>
    requires { LeadsFrom old.now new.now differences.now }
    ensures { IfOk result
        (λ l. IsWordedOf context old.now new.now differences.now (string_bytes l)) }
{
    let replacements = replacements(alloc, new, differences)?;
    words_text(alloc, old, new, &replacements, context)
}

// What is printed in a form.
fn printed_as(
    alloc: Global,
    old: &[char],
    new: &[char],
    differences: &[Difference],
    form: &DiffForm,
) -> Result<String, AllocError>
    requires { LeadsFrom old.now new.now differences.now }
    ensures { IfOk result
        (λ l. IsPrintedAs form.now old.now new.now differences.now (string_bytes l)) }
{
    match form {
        DiffForm::Lines => diff_of(alloc, old, new, differences),
        DiffForm::Unified { context, .. } => patch_of(alloc, old, new, differences, *context),
        DiffForm::Words { context } => words_of(alloc, old, new, differences, *context),
    }
}

// What is printed, after the names of both texts where `patch` takes it.
fn with_names(
    alloc: Global,
    form: &DiffForm,
    from: &[Hash],
    to: &[Hash],
    printed: &str,
) -> Result<String, AllocError>
    ensures { IfOk result
        (λ l. string_bytes l ≡ text_with_names form.now from.now to.now printed.now) }
{
    match form {
        DiffForm::Unified { file, .. } => {
            if printed.is_empty() {
                return Ok(String::new(alloc));
            }
            let mut text = name_lines(alloc, file, from, to)?;
            text.push_str(printed)?;
            Ok(text)
        }
        DiffForm::Lines | DiffForm::Words { .. } => String::from_str(alloc, printed),
    }
}

// The characters of a text.
fn characters(alloc: Global, text: &str) -> Result<Vec<char>, AllocError>
    ensures { IfOk result (λ all. all.items ≡ chars text.now) }
{
    text.chars().collect(alloc)
}

// The differences from the text at some heads to that at others, or now where there are none.
fn differences_in(document: &Text, from: &[Hash], to: &[Hash]) -> Result<Vec<Difference>, DocError>
    ensures each { IfOk result (λ ds. AreDifferences document.now.applied
        (past document.now.applied from.now) (changes_at_heads document.now.applied to.now) ds.items) }
    ensures leads { IfOk result (λ ds. LeadsTo (past document.now.applied from.now)
        (changes_at_heads document.now.applied to.now) ds.items) }
    ensures err { IfErr result (λ e. (e ≡ doc.OutOfMemory) ⊎ ((e ≡ doc.UnknownHead)
        × ((has_all document.now.applied from.now ≡ false)
        ⊎ (has_all document.now.applied to.now ≡ false)))) }
{
    if to.is_empty() {
        document.differences_since(from)
    } else {
        document.differences(from, to)
    }
}

// What leads from the text at some heads to that at others, in a form.
fn text_diff(
    alloc: Global,
    document: &Text,
    from: &[Hash],
    to: &[Hash],
    form: &DiffForm,
) -> Result<String, CommandError>
    ensures ok { IfOk result
        (λ l. IsDiffBetween form.now document.now.applied from.now to.now (string_bytes l)) }
    ensures err { IfErr result (λ e. (e ≡ CommandError.OutOfMemory)
        ⊎ ((e ≡ CommandError.Doc doc.UnknownHead)
        × ((has_all document.now.applied from.now ≡ false)
        ⊎ (has_all document.now.applied to.now ≡ false)))) }
{
    let _changes = document.changes();
    let differences = differences_in(document, from, to)?;
    let old = characters(alloc, document.text_at(from)?.as_str())?;
    let new = characters(alloc, text_in(document, to)?.as_str())?;
    let printed = printed_as(alloc, &old, &new, &differences, form)?;
    Ok(with_names(alloc, form, from, to, printed.as_str())?)
}

/// The lines that changed between the text at some heads and that at others, as hunks. Without heads the first text is
/// the empty one, and the second one is the text now. A hunk is a line `@@ -L,n +M,m @@` of its first line and of how
/// many lines there are, in the old and in the new text, counted from 1 (of no line that of the line before); then the
/// old lines, each after a `-`, and the new ones, each after a `+`. A line ends before a newline, and what comes after
/// the last newline is a line too. They are the lines that were typed or deleted in, character by character. There are
/// none where the texts are the same.
///
/// In the unified form a line has its newline, so that there is none after the last newline; the names of both texts come
/// first, and lines that both have are printed too, as [`unified_text`](tp_hunks::unified_text) says. With words each line that
/// differs is printed once, as [`words_text`](tp_hunks::words_text) says.
pub fn diff_lines(
    alloc: Global,
    journal: Recovering<PeerSequence>,
    from: &[Hash],
    to: &[Hash],
    form: &DiffForm,
) -> Result<String, CommandError>
    ensures lines { IfOk result (λ l. IsDiff form.now journal from.now to.now (string_bytes l)) }
    ensures err { IfErr result (λ e. HasNoTexts journal from.now to.now e) }
{
    let document = document_in(journal)?;
    let lines = text_diff(alloc, &document, from, to, form);
    drop(document);
    lines
}

//! The values of what the parser found.

ghost use Rattle.std.specs.Prelude.{◌≡◌, IfErr, IfOk, Some, map, option_map, codes, IsTrue};
ghost use Rattle.clap.specs.declared.builder.value_parser.ValueParser.TheVariants as parser;
ghost use Rattle.clap.specs.Words.{first_of, found_of, rows_of};
ghost use Rattle.tp_command_line.specs.Commands.{HasInserted, HasOutput};
ghost use Rattle.tp_command_line.specs.LineError.{RefusesValue};
ghost use Rattle.tp_command_line.specs.Uses.{IsUse, always_has};
ghost use Rattle.tp_command_line.specs.Values.{HasAddress, HasFlag, HasHashes, HasKey, HasNumber, HasPage, HasTake, HasTexts, MayHaveAddress, MayHaveNumber, is_number, is_of_address, is_of_hashes, parser_named};

use crate::address::Address;
use crate::error::ValueError;
use crate::job::Inserted;
use crate::texts::{address_in, digits_in, hashes_in, page_in};
use clap::ArgMatches;
use std::alloc::{AllocError, Global};
use std::net::SocketAddr;
use tp_mirror::Take;
use tp_opid::Hash;

/// The value of an argument that the subcommand always has.
pub(crate) fn text_of<'a>(found: &ArgMatches<'a>, name: &str, id: &str) -> &'a str
    requires is_use { IsUse name.now (rows_of (found_of found.now)) }
    requires given { IsTrue (always_has name.now id.now) }
    ensures { first_of id.now (rows_of (found_of found.now)) ≡ Some result.now }
{
    found.get_str(id).unwrap()
}

/// The number that it has as its value.
pub(crate) fn number_of(found: &ArgMatches<'_>, name: &str, id: &str) -> u64
    requires is_use { IsUse name.now (rows_of (found_of found.now)) }
    requires given { IsTrue (always_has name.now id.now) }
    requires number { IsTrue (is_number id.now) }
    ensures { HasNumber id.now (rows_of (found_of found.now)) result }
{
    found.get_one(id).unwrap()
}

/// The number that an argument has as its value, where it is given.
pub(crate) fn number_in(found: &ArgMatches<'_>, name: &str, id: &str) -> Option<u64>
    requires is_use { IsUse name.now (rows_of (found_of found.now)) }
    requires number { IsTrue (is_number id.now) }
    ensures { MayHaveNumber id.now (rows_of (found_of found.now)) result }
{
    found.get_one(id)
}

/// Whether a flag of the subcommand is given.
pub(crate) fn flag_of(found: &ArgMatches<'_>, name: &str, id: &str) -> bool
    requires is_use { IsUse name.now (rows_of (found_of found.now)) }
    requires given { IsTrue (always_has name.now id.now) }
    requires flag { parser_named id.now ≡ parser.Bool }
    ensures { HasFlag id.now (rows_of (found_of found.now)) result }
{
    found.get_flag(id)
}

/// The value of an argument, where it is given.
pub(crate) fn given_text<'a>(found: &ArgMatches<'a>, id: &str) -> Option<&'a str>
    ensures { option_map (λ text. text.now) result
        ≡ first_of id.now (rows_of (found_of found.now)) }
{
    found.get_str(id)
}

/// The text of an edit, or the path of a file of it, of which one has to be given.
pub(crate) fn inserted_of<'a>(found: &ArgMatches<'a>) -> Result<Inserted<'a>, ValueError>
    requires { IsUse (codes "edit") (rows_of (found_of found.now)) }
    ensures ok { IfOk result (HasInserted (rows_of (found_of found.now))) }
    ensures err { IfErr result (RefusesValue (rows_of (found_of found.now))) }
{
    let _at = number_of(found, "edit", "at");
    match (given_text(found, "text"), given_text(found, "text-file")) {
        (Some(text), None) => Ok(Inserted::Given(text)),
        (None, Some(path)) => Ok(Inserted::InFile(path)),
        (None, None) => Err(ValueError::NotOneText),
        (Some(_), Some(_)) => Err(ValueError::NotOneText),
    }
}

/// The path of the journal that `recover` makes, or none where it prints texts; of the two one has to be given.
pub(crate) fn output_of<'a>(found: &ArgMatches<'a>) -> Result<Option<&'a str>, ValueError>
    requires { IsUse (codes "recover") (rows_of (found_of found.now)) }
    ensures ok { IfOk result (HasOutput (rows_of (found_of found.now))) }
    ensures err { IfErr result (RefusesValue (rows_of (found_of found.now))) }
{
    match (flag_of(found, "recover", "texts"), given_text(found, "OUT")) {
        (false, Some(out)) => Ok(Some(out)),
        (true, None) => Ok(None),
        (true, Some(_)) => Err(ValueError::NotOneOutput),
        (false, None) => Err(ValueError::NotOneOutput),
    }
}

/// Which text counts at the first use of a mirror, where that is said.
pub(crate) fn take_of(found: &ArgMatches<'_>) -> Result<Option<Take>, ValueError>
    ensures ok { IfOk result (HasTake (rows_of (found_of found.now))) }
    ensures err { IfErr result (RefusesValue (rows_of (found_of found.now))) }
{
    match given_text(found, "take") {
        Some("text") => Ok(Some(Take::Text)),
        Some("journal") => Ok(Some(Take::Journal)),
        Some(_) => Err(ValueError::BadTake),
        None => Ok(None),
    }
}

/// The key, where it is given.
pub(crate) fn key_of(found: &ArgMatches<'_>) -> Result<Option<[u8; 32]>, ValueError>
    ensures ok { IfOk result (HasKey (rows_of (found_of found.now))) }
    ensures err { IfErr result (RefusesValue (rows_of (found_of found.now))) }
{
    match given_text(found, "key") {
        Some(text) => match digits_in(text) {
            Ok(key) => Ok(Some(key)),
            Err(error) => Err(error),
        },
        None => Ok(None),
    }
}

/// The address that is given.
pub(crate) fn address_of<'a>(found: &ArgMatches<'a>, name: &str) -> Result<Address<'a>, ValueError>
    requires is_use { IsUse name.now (rows_of (found_of found.now)) }
    requires given { IsTrue (always_has name.now (codes "ADDR")) }
    ensures ok { IfOk result (HasAddress (rows_of (found_of found.now))) }
    ensures err { IfErr result (RefusesValue (rows_of (found_of found.now))) }
{
    address_in(text_of(found, name, "ADDR"))
}

/// The address that is given to an option, where it is.
pub(crate) fn address_if_given<'a>(
    found: &ArgMatches<'a>,
    id: &str,
) -> Result<Option<Address<'a>>, ValueError>
    requires { IsTrue (is_of_address id.now) }
    ensures ok { IfOk result (MayHaveAddress id.now (rows_of (found_of found.now))) }
    ensures err { IfErr result (RefusesValue (rows_of (found_of found.now))) }
{
    match given_text(found, id) {
        Some(text) => match address_in(text) {
            Ok(addr) => Ok(Some(addr)),
            Err(error) => Err(error),
        },
        None => Ok(None),
    }
}

/// The address of a page that is given, which has to be of this machine.
pub(crate) fn page_of(found: &ArgMatches<'_>) -> Result<SocketAddr, ValueError>
    requires { IsUse (codes "web") (rows_of (found_of found.now)) }
    ensures ok { IfOk result (HasPage (rows_of (found_of found.now))) }
    ensures err { IfErr result (RefusesValue (rows_of (found_of found.now))) }
{
    page_in(text_of(found, "web", "PAGE"))
}

// The texts, in their order.
fn copies_of<'a>(alloc: Global, texts: &[&'a str]) -> Result<Vec<&'a str>, AllocError>
    ensures { IfOk result (λ copies. map (λ t. t.now) copies.items ≡ map (λ t. t.now) texts.now) }
{
    let mut copies = Vec::with_capacity(alloc, texts.len())?;
    for text in texts {
        copies.push(*text)?;
    }
    Ok(copies)
}

/// The texts that an argument is given.
pub(crate) fn texts_given<'a>(
    alloc: Global,
    found: &ArgMatches<'a>,
    id: &str,
) -> Result<Vec<&'a str>, ValueError>
    ensures ok { IfOk result (λ texts. HasTexts id.now (rows_of (found_of found.now)) texts.items) }
    ensures err { IfErr result (RefusesValue (rows_of (found_of found.now))) }
{
    match found.get_strs(id) {
        Some(texts) => Ok(copies_of(alloc, texts)?),
        None => Ok(Vec::new(alloc)),
    }
}

/// The hashes that an argument is given.
pub(crate) fn hashes_of(
    alloc: Global,
    found: &ArgMatches<'_>,
    id: &str,
) -> Result<Vec<Hash>, ValueError>
    requires { IsTrue (is_of_hashes id.now) }
    ensures ok { IfOk result (λ hashes. HasHashes id.now (rows_of (found_of found.now)) hashes.items) }
    ensures err { IfErr result (RefusesValue (rows_of (found_of found.now))) }
{
    match found.get_strs(id) {
        Some(hashes) => hashes_in(alloc, hashes),
        None => Ok(Vec::new(alloc)),
    }
}

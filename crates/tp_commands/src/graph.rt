//! The changes of a document as a graph, in DOT, the language of Graphviz.

ghost use Rattle.std.specs.Prelude.{◌≡◌, ◌++◌, IfOk, IfErr, IsOkUnless, OnOk, take};
ghost use Rattle.std.specs.List.{flat_map};
ghost use Rattle.std.specs.String.{string_bytes};
ghost use Rattle.hex.specs.Hex.{encode_lower};
ghost use Rattle.tp_change.specs.ChangeHash.{hash_of};
ghost use Rattle.tp_commands.specs.Refusing.{RefusesJournal};
ghost use Rattle.tp_commands.specs.Graph.{IsChangeGraph, border_of, change_part as part_of_change, edge_line as line_of_edge, graph_of, is_head as is_head_of, label_char, label_of, node_line as line_of_node, node_name as name_of_node, node_text as text_of_node};

use crate::error::CommandError;
use crate::log::{deletes_in, inserts_in, put_message};
use crate::reading::{Text, digits, document_in};
use std::alloc::{AllocError, Global};
use tp_change::Change;
use tp_journal::Recovering;
use tp_opid::Hash;
use tp_peer::PeerSequence;

// Whether a hash is one of the heads, which rise.
fn is_head(document: &Text, hash: &Hash) -> bool
    ensures { result ≡ is_head_of document.now.applied hash.now }
{
    document.heads().binary_search(hash).is_ok()
}

// What marks the node of a head.
fn border(is_head: bool) -> &'static str
    ensures { result.now ≡ border_of is_head }
{
    if is_head { ", penwidth=2" } else { "" }
}

// The name of the node of the change with the hash.
fn node_name(alloc: Global, hash: &Hash) -> Result<String, CommandError>
    ensures ok { IfOk result (λ n. string_bytes n ≡ name_of_node hash.now) }
    ensures err { IsOkUnless result CommandError.OutOfMemory }
{
    let digits = digits(hash.to_text(alloc))?;
    Ok(format!(in alloc; "\"{digits}\"")?)
}

// The first eight digits of a hash.
pub(crate) fn first_digits(alloc: Global, hash: &Hash) -> Result<String, AllocError>
    ensures { IfOk result (λ d. string_bytes d ≡ encode_lower (take 4 hash.now.0)) }
{
    hex::encode(alloc, &hash.0[..4])
}

// What is shown in the node of a change.
fn node_text(alloc: Global, change: &Change) -> Result<String, CommandError>
    ensures ok { IfOk result (λ t. string_bytes t ≡ text_of_node change.now) }
    ensures err { IsOkUnless result CommandError.OutOfMemory }
{
    let hash = first_digits(alloc, &change.hash())?;
    let time = change.time();
    let inserted = inserts_in(change);
    let deleted = deletes_in(change);
    let mut text = format!(in alloc; "{hash} {time} +{inserted} -{deleted}")?;
    put_message(&mut text, change.message())?;
    Ok(text)
}

// Puts a character after a label.
fn put_label_char(label: &mut String, ch: char) -> Result<(), AllocError>
    ensures { OnOk result (string_bytes label.new ≡ string_bytes label.old ++ label_char ch) }
{
    match ch {
        '"' => label.push_str("\\\""),
        '\\' => label.push_str("\\\\"),
        '&' => label.push_str("&amp;"),
        _ => label.push(ch),
    }
}

// The label that shows a text.
fn label(alloc: Global, text: &str) -> Result<String, AllocError>
    ensures { IfOk result (λ l. string_bytes l ≡ label_of text.now) }
{
    let mut label = String::new(alloc);
    for ch in text.chars() {
        put_label_char(&mut label, ch)?;
    }
    Ok(label)
}

// The line of the node of a change.
fn node_line(alloc: Global, document: &Text, change: &Change) -> Result<String, CommandError>
    ensures ok { IfOk result (λ l. string_bytes l ≡ line_of_node document.now.applied change.now) }
    ensures err { IsOkUnless result CommandError.OutOfMemory }
{
    let hash = change.hash();
    let name = node_name(alloc, &hash)?;
    let label = label(alloc, node_text(alloc, change)?.as_str())?;
    let border = border(is_head(document, &hash));
    Ok(format!(in alloc; "  {name} [label=\"{label}\"{border}];\n")?)
}

// The line of the edge from a change to one that it depends on.
fn edge_line(alloc: Global, from: &Hash, to: &Hash) -> Result<String, CommandError>
    ensures ok { IfOk result (λ l. string_bytes l ≡ line_of_edge from.now to.now) }
    ensures err { IsOkUnless result CommandError.OutOfMemory }
{
    let from = node_name(alloc, from)?;
    let to = node_name(alloc, to)?;
    Ok(format!(in alloc; "  {from} -> {to};\n")?)
}

// A line for each change that a change depends on.
fn edge_lines(alloc: Global, change: &Change) -> Result<String, CommandError>
    ensures ok { IfOk result (λ lines. string_bytes lines
        ≡ flat_map (line_of_edge (hash_of change.now)) change.now.deps) }
    ensures err { IsOkUnless result CommandError.OutOfMemory }
{
    let from = change.hash();
    let deps = change.deps();
    let mut lines = String::new(alloc);
    for to in deps {
        lines.push_str(edge_line(alloc, &from, to)?.as_str())?;
    }
    Ok(lines)
}

// The lines of a change: its node and its edges.
fn change_part(alloc: Global, document: &Text, change: &Change) -> Result<String, CommandError>
    ensures ok { IfOk result (λ l. string_bytes l ≡ part_of_change document.now.applied change.now) }
    ensures err { IsOkUnless result CommandError.OutOfMemory }
{
    let mut lines = node_line(alloc, document, change)?;
    lines.push_str(edge_lines(alloc, change)?.as_str())?;
    Ok(lines)
}

// The lines of each change.
fn change_parts(alloc: Global, document: &Text) -> Result<String, CommandError>
    ensures ok { IfOk result (λ lines. string_bytes lines
        ≡ flat_map (part_of_change document.now.applied) document.now.applied) }
    ensures err { IsOkUnless result CommandError.OutOfMemory }
{
    let changes = document.changes();
    let mut lines = String::new(alloc);
    for change in changes {
        lines.push_str(change_part(alloc, document, change)?.as_str())?;
    }
    Ok(lines)
}

// The graph of a document's changes.
fn graph(alloc: Global, document: &Text) -> Result<String, CommandError>
    ensures ok { IfOk result (λ g. string_bytes g ≡ graph_of document.now.applied) }
    ensures err { IsOkUnless result CommandError.OutOfMemory }
{
    let opening = "digraph changes {\n  rankdir=BT;\n  node [shape=box, fontname=monospace];\n";
    let mut lines = String::from_str(alloc, opening)?;
    lines.push_str(change_parts(alloc, document)?.as_str())?;
    lines.push_str("}\n")?;
    Ok(lines)
}

/// The changes of a journal as a graph in DOT, the language of Graphviz: for each change, in the order in which they
/// entered, a node and then an edge to each change that it depends on. A node is named by the whole hash; it shows the
/// first eight digits of it, the time, `+` and how many characters the change inserts, `-` and how many it deletes, and
/// its message as [`log_lines`](crate::log_lines) prints it. A head has a thick border. Whatever a message holds, it is
/// shown as text and ends no label.
///
/// One pass over the changes, their characters and their dependencies; whether a change is a head is searched by halves.
pub fn graph_lines(alloc: Global, journal: Recovering<PeerSequence>) -> Result<String, CommandError>
    ensures lines { IfOk result (λ lines. IsChangeGraph journal (string_bytes lines)) }
    ensures err { IfErr result (λ e. RefusesJournal journal e) }
{
    let document = document_in(journal)?;
    let lines = graph(alloc, &document);
    drop(document);
    lines
}

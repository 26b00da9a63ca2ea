//! Which benchmarks there are.

/// What is printed without a name.
pub const USAGE: &str = "usage: tp_bench_runs NAME

Runs a benchmark and prints what it took:

  codec           decoding and encoding changes, beside the digest of the same bytes
  received        100,000 changes received, opened and loaded, beside the digest of their bytes
  apply           applying a chain of 100,000 changes to a document as one list
  reverse         applying a chain of 1,024 changes in order, and the last first
  copies          forking a document of 100,000 changes, and reading its text at the half of them
  merging         merging 1,000 changes into documents of 10,000 and 100,000
  journal-append  appending 100,000 records to a journal in a file
  journal-recover recovering journals of up to 100,000 records
  saved           saving and loading a document of 100,000 changes
  show-typed      showing a log of 20,000 changes of 10 characters typed at the end
  show-random     showing a log of 2,000 changes of 10 characters at random places

Adds changes of one character to a graph, one by one, and prints what each tenth took a change:

  chain            a chain of 100,000 changes of one actor
  long-chain       a chain of 400,000, as many as the branches come to
  actors           a chain of 100,000 changes, each by an actor of its own
  two-by-turns     two branches of 20,000 changes by turns, and their merge; the same after it, ten times in all
  two-whole        the same, one branch after the other
  twenty-by-turns  twenty branches of 2,000 changes by turns, and their merge; the same after it, ten times in all
  twenty-whole     the same, one branch after another

Or adds one change, and prints what it took:

  large            changes of 60,000 records that refer to records of their own, or of another such change

Makes changes of one character, and passes messages as bytes until nobody has anything to say:

  typing    one author, 100,000 changes, without messages
  authors   two authors, 10 rounds of 1,000 changes each
  apart     two authors who share 10,000 changes, 10 rounds of 10 changes each over links that know nothing
  merged    20 peers with 500 changes each; the first meets each of the others
  one-place two authors, 5,000 changes each at the start of the text
  ring      20 peers, each linked to two, 10 rounds of a change each
  catch-up  a peer without changes, and one with 25,000; and one with 100,000
  idle      a message where there is nothing to say, with 1,000 to 100,000 changes

Makes messages to a peer that lacks one change of what several authors wrote at the same time: where that one begins
anew each time, and where each message is lost. Besides the name, words may say the case (200x40, 20x400, 5x1600 or
2x4000: authors and changes of each, by turns; hub: 50 authors with 100 changes each, one after another) and how many
messages of each of the two kinds are made:

  lacks-little  20 messages of each kind in each case

Sends a session a message of 16 megabytes in pieces of 7 bytes:

  message-whole  which takes the frame once it is whole
  message-parts  which takes its parts as they come

Makes calls on a peer, and as many on a served one by 1, 2 and 4 threads:

  empty  1,000,000 reads of an empty text
  read   10,000 reads of a text of 10,000 characters
  edit   10,000 edits of one character at the start of a text

Measures each operation of sequences, with the test that it may come:

  plain   on plain sequences of 1,000 and 10,000 elements
  blocks  on sequences in blocks, of 1,000 to 1,000,000 elements
";

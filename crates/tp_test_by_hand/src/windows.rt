//! Windows on a document, by what a page asks and is answered. The hashes are those of Python's hashlib, over changes
//! that were laid out by hand.

use std::alloc::{AllocError, Global};
use std::test::Fail;
use tp_journal::MemJournal;
use tp_opid::{Actor, DocId};
use tp_peer::Peer;
use tp_window::{Said, Window};

// A document without a change.
fn empty_peer(alloc: Global) -> Option<Peer<MemJournal>> {
    let journal = MemJournal::new(Vec::new(alloc));
    Peer::create(alloc, journal, DocId([7; 16]), Actor([1; 16])).ok()
}

// Whether a window is answered this, and whether it is the last.
fn answers_so(
    alloc: Global,
    window: &mut Window,
    peer: &mut Peer<MemJournal>,
    request: &str,
    answer: &str,
    is_last: bool,
) -> Result<bool, AllocError> {
    let Said {
        text,
        heads,
        refusal,
    } = window.answer(alloc, peer, 5, request)?;
    if let Some(heads) = heads {
        window.remember(heads)?;
    }
    Ok(text.as_str() == answer && refusal.is_some() == is_last)
}

// Two windows write at the beginning of the empty text, each before it hears of the other: the character of the greater actor
// comes first.
#[test]
fn two_write_at_once(rt: HostRuntime) -> Result<(), Fail> {
    let alloc = rt.alloc();
    let mut peer = empty_peer(alloc).ok_or("a peer")?;
    let mut one = Window::new(alloc, Actor([2; 16]));
    let mut two = Window::new(alloc, Actor([3; 16]));
    assert!(rt;
        answers_so(
            alloc,
            &mut one,
            &mut peer,
            r#"{"open":{}}"#,
            r#"{"opened":{"document":"07070707070707070707070707070707","actor":"02020202020202020202020202020202","number":1,"count":0,"heads":[],"text":""}}"#,
            false
        )?
    );
    assert!(rt;
        answers_so(
            alloc,
            &mut one,
            &mut peer,
            r#"{"edit":{"on":1,"splices":[{"at":0,"del":0,"text":"abc"}]}}"#,
            r#"{"edited":{"made":"874f9103c285584ed7935bc778760e7dc8d22abb79f4069061e8c8eb15a1ff55","number":2,"count":1,"heads":["874f9103c285584ed7935bc778760e7dc8d22abb79f4069061e8c8eb15a1ff55"],"splices":[]}}"#,
            false
        )?
    );
    assert!(rt;
        answers_so(
            alloc,
            &mut two,
            &mut peer,
            r#"{"edit":{"heads":[],"splices":[{"at":0,"del":0,"text":"x"}]}}"#,
            r#"{"edited":{"made":"76b059c74bf9093b39c007e0af96996f3bcdc9efa37a3cf398b5fc3dc72c1454","number":1,"count":2,"heads":["76b059c74bf9093b39c007e0af96996f3bcdc9efa37a3cf398b5fc3dc72c1454","874f9103c285584ed7935bc778760e7dc8d22abb79f4069061e8c8eb15a1ff55"],"splices":[{"at":1,"del":0,"text":"abc"}]}}"#,
            false
        )?
    );
    assert!(rt;
        answers_so(
            alloc,
            &mut one,
            &mut peer,
            r#"{"look":{"heads":["874f9103c285584ed7935bc778760e7dc8d22abb79f4069061e8c8eb15a1ff55"]}}"#,
            r#"{"looked":{"number":3,"count":2,"heads":["76b059c74bf9093b39c007e0af96996f3bcdc9efa37a3cf398b5fc3dc72c1454","874f9103c285584ed7935bc778760e7dc8d22abb79f4069061e8c8eb15a1ff55"],"splices":[{"at":0,"del":0,"text":"x"}]}}"#,
            false
        )?
    );
    assert!(rt;
        answers_so(
            alloc,
            &mut two,
            &mut peer,
            r#"{"look":{"heads":["76b059c74bf9093b39c007e0af96996f3bcdc9efa37a3cf398b5fc3dc72c1454","874f9103c285584ed7935bc778760e7dc8d22abb79f4069061e8c8eb15a1ff55"]}}"#,
            r#"{"looked":{"number":2,"count":2,"heads":["76b059c74bf9093b39c007e0af96996f3bcdc9efa37a3cf398b5fc3dc72c1454","874f9103c285584ed7935bc778760e7dc8d22abb79f4069061e8c8eb15a1ff55"],"splices":[]}}"#,
            false
        )?
    );
    assert!(rt;
        answers_so(
            alloc,
            &mut two,
            &mut peer,
            r#"{"resume":{"actor":"02020202020202020202020202020202","heads":[]}}"#,
            r#"{"resumed":{"actor":"03030303030303030303030303030303","number":3,"made":"874f9103c285584ed7935bc778760e7dc8d22abb79f4069061e8c8eb15a1ff55"}}"#,
            false
        )?
    );
    assert!(rt;
        answers_so(
            alloc,
            &mut two,
            &mut peer,
            r#"{"resume":{"actor":"02020202020202020202020202020202","heads":["874f9103c285584ed7935bc778760e7dc8d22abb79f4069061e8c8eb15a1ff55"]}}"#,
            r#"{"resumed":{"actor":"03030303030303030303030303030303","number":4,"made":null}}"#,
            false
        )?
    );
    assert!(rt;
        answers_so(
            alloc,
            &mut two,
            &mut peer,
            r#"{"resume":{"actor":"02020202020202020202020202020202","count":0}}"#,
            r#"{"resumed":{"actor":"03030303030303030303030303030303","number":5,"made":"874f9103c285584ed7935bc778760e7dc8d22abb79f4069061e8c8eb15a1ff55"}}"#,
            false
        )?
    );
    assert!(rt;
        answers_so(
            alloc,
            &mut two,
            &mut peer,
            r#"{"resume":{"actor":"02020202020202020202020202020202","count":1}}"#,
            r#"{"resumed":{"actor":"03030303030303030303030303030303","number":6,"made":null}}"#,
            false
        )?
    );
    assert!(rt;
        answers_so(
            alloc,
            &mut one,
            &mut peer,
            r#"{"look":{"on":2}}"#,
            r#"{"looked":{"number":4,"count":2,"heads":["76b059c74bf9093b39c007e0af96996f3bcdc9efa37a3cf398b5fc3dc72c1454","874f9103c285584ed7935bc778760e7dc8d22abb79f4069061e8c8eb15a1ff55"],"splices":[{"at":0,"del":0,"text":"x"}]}}"#,
            false
        )?
    );
    assert!(rt;
        answers_so(
            alloc,
            &mut one,
            &mut peer,
            r#"{"changes":{"from":1,"most":9}}"#,
            r#"{"changes":{"count":2,"changes":[{"hash":"76b059c74bf9093b39c007e0af96996f3bcdc9efa37a3cf398b5fc3dc72c1454","actor":"03030303030303030303030303030303","time":5,"message":"","deps":[]}]}}"#,
            false
        )?
    );
    assert!(rt;
        answers_so(
            alloc,
            &mut one,
            &mut peer,
            r#"{"change":{"hash":"874f9103c285584ed7935bc778760e7dc8d22abb79f4069061e8c8eb15a1ff55"}}"#,
            r#"{"change":{"text":"","splices":[{"at":0,"del":0,"text":"abc"}]}}"#,
            false
        )?
    );
    Ok(())
}

// What isn't a request, a change that isn't there, and an edit past the end of the text end a window, and change nothing.
#[test]
fn a_wrong_request_ends_a_window(rt: HostRuntime) -> Result<(), Fail> {
    let alloc = rt.alloc();
    let mut peer = empty_peer(alloc).ok_or("a peer")?;
    let mut one = Window::new(alloc, Actor([2; 16]));
    for request in [
        "",
        "{}",
        r#"{"open":{"x":1}}"#,
        r#"{"look":{"heads":["00"]}}"#,
        r#"{"look":{}}"#,
        r#"{"look":{"heads":[],"on":1}}"#,
        r#"{"resume":{"actor":"02020202020202020202020202020202"}}"#,
        r#"{"resume":{"actor":"02020202020202020202020202020202","heads":[],"count":0}}"#,
        r#"{"edit":{"heads":[],"splices":[{"at":-1,"del":0,"text":"x"}]}}"#,
    ] {
        assert!(rt;
            answers_so(
                alloc,
                &mut one,
                &mut peer,
                request,
                r#"{"refused":{"reason":"BadRequest"}}"#,
                true
            )?
        );
    }
    assert!(rt;
        answers_so(
            alloc,
            &mut one,
            &mut peer,
            r#"{"look":{"heads":["874f9103c285584ed7935bc778760e7dc8d22abb79f4069061e8c8eb15a1ff55"]}}"#,
            r#"{"refused":{"reason":"UnknownHead"}}"#,
            true
        )?
    );
    assert!(rt;
        answers_so(
            alloc,
            &mut one,
            &mut peer,
            r#"{"change":{"hash":"874f9103c285584ed7935bc778760e7dc8d22abb79f4069061e8c8eb15a1ff55"}}"#,
            r#"{"refused":{"reason":"UnknownHead"}}"#,
            true
        )?
    );
    assert!(rt;
        answers_so(
            alloc,
            &mut one,
            &mut peer,
            r#"{"look":{"on":1}}"#,
            r#"{"refused":{"reason":"Forgotten"}}"#,
            true
        )?
    );
    assert!(rt;
        answers_so(
            alloc,
            &mut one,
            &mut peer,
            r#"{"resume":{"actor":"02020202020202020202020202020202","count":1}}"#,
            r#"{"refused":{"reason":"Forgotten"}}"#,
            true
        )?
    );
    assert!(rt;
        answers_so(
            alloc,
            &mut one,
            &mut peer,
            r#"{"edit":{"heads":[],"splices":[{"at":1,"del":0,"text":"x"}]}}"#,
            r#"{"refused":{"reason":"OutOfRange"}}"#,
            true
        )?
    );
    assert_eq!(rt; peer.change_count(), 0);
    Ok(())
}

//! Worked examples: the texts are what the rules give by hand.

ghost use Rattle.tp_opid.specs.Tree.{CanInsert};

use std::alloc::{AllocError, Global};
use std::process::Abort;
use std::test::Fail;
use tp_opid::{Actor, OpId, Place};
use tp_rga::{Element, Insertion, PlainSequence, Sequence, in_order, is_tree};

/// An operation of an example.
#[derive(Clone, Copy)]
enum Step {
    Insert(OpId, Place, char),
    Delete(OpId, OpId),
}

/// The identifier with a counter and the last byte of its actor.
fn id(counter: u64, actor: u8) -> OpId {
    let mut bytes = [0; 16];
    bytes[15] = actor;
    OpId {
        counter,
        actor: Actor(bytes),
    }
}

/// The operation that an example names by a letter: mostly the insert of that character. `-` deletes `b`.
fn step_of(name: char) -> Step {
    let start = Place::Start;
    let a = Place::After(id(1, 1));
    match name {
        'a' | '1' => Step::Insert(id(1, 1), start, name),
        'b' | '2' => Step::Insert(id(2, 1), a, name),
        'c' => Step::Insert(id(3, 1), Place::After(id(2, 1)), name),
        'q' | '3' => Step::Insert(id(1, 2), start, name),
        '4' => Step::Insert(id(2, 2), Place::After(id(1, 2)), name),
        'r' => Step::Insert(id(4, 2), start, name),
        'X' => Step::Insert(id(4, 1), a, name),
        'P' => Step::Insert(id(5, 1), Place::After(id(4, 1)), name),
        'Y' => Step::Insert(id(4, 2), a, name),
        'Q' => Step::Insert(id(5, 2), Place::After(id(4, 2)), name),
        'Z' => Step::Insert(id(4, 2), Place::After(id(2, 1)), name),
        'u' => Step::Insert(id(2, 1), a, name),
        'v' => Step::Insert(id(3, 1), Place::After(id(2, 1)), name),
        'w' => Step::Insert(id(2, 2), a, name),
        'x' => Step::Insert(id(3, 2), a, name),
        'y' => Step::Insert(id(2, 3), start, name),
        _ => Step::Delete(id(2, 1), id(5, 1)),
    }
}

/// Takes in an operation if it may come, and says whether it did.
fn take<S: Sequence>(s: &mut S, step: Step) -> Result<bool, AllocError> {
    match step {
        Step::Insert(id, after, ch) => {
            if !s.can_insert(&id, &after) {
                return Ok(false);
            }
            s.insert(id, after, ch)?;
        }
        Step::Delete(target, by) => {
            if !s.contains(&target) {
                return Ok(false);
            }
            s.delete(target, by)?;
        }
    }
    Ok(true)
}

/// Takes in the operations of an example in their order. Each of them may come.
fn take_all<S: Sequence>(rt: &impl Abort, s: &mut S, names: &str) -> Result<(), AllocError> {
    for name in names.chars() {
        let taken = take(s, step_of(name))?;
        assert!(rt; taken, "an operation may not come");
    }
    Ok(())
}

/// Whether a sequence shows a text.
fn shows<S: Sequence>(s: &S, want: &str) -> bool {
    for (i, ch) in want.chars().enumerate() {
        match s.char_at(i) {
            Some(shown) if shown == ch => {}
            _ => return false,
        }
    }
    want.chars().count() == s.len()
}

#[test]
fn shows_the_worked_texts(rt: HostRuntime) -> Result<(), Fail> {
    let rows = [
        ("abcXY", "aYXbc"),
        ("abcYX", "aYXbc"),
        ("1234", "3412"),
        ("3412", "3412"),
        ("3142", "3412"),
        ("abc-Z", "aZc"),
        ("abcZ-", "aZc"),
        ("qabc", "qabc"),
        ("abcq", "qabc"),
        ("qabcr", "rqabc"),
        ("abcrq", "rqabc"),
        ("abcXPYQ", "aYQXPbc"),
        ("aYQXPbc", "aYQXPbc"),
    ];
    for (names, want) in rows {
        let mut s = PlainSequence::new(rt.alloc());
        take_all(&rt, &mut s, names)?;
        assert!(rt; shows(&s, want), "after {names}");
    }
    Ok(())
}

/// Takes in the operations of a pool in each order in which each of them may come when its turn is, and compares the
/// text and the order by chains. The pool has at most five operations. How many such orders there are.
fn count_orders(
    rt: &impl Abort,
    alloc: Global,
    first: &str,
    pool: &[Step],
    want: &str,
) -> Result<u32, Fail> {
    let mut orders = 0u32;
    for code in 0..3125u32 {
        let mut s = PlainSequence::new(alloc);
        take_all(rt, &mut s, first)?;
        if take_by_code(&mut s, pool, code)? {
            assert!(rt; shows(&s, want), "in the order {code}");
            assert!(rt; present_by_chains(alloc, &s)?, "in the order {code}");
            orders += 1;
        }
    }
    Ok(orders)
}

/// Takes in the operations of a pool in the order that the digits of a number to the base 5 give. Whether each came,
/// and could come.
fn take_by_code<S: Sequence>(s: &mut S, pool: &[Step], code: u32) -> Result<bool, AllocError> {
    let mut rest = code;
    for _ in 0..pool.len() {
        let k = (rest % 5) as usize;
        rest /= 5;
        if k >= pool.len() {
            return Ok(false);
        }
        if !take(s, pool[k])? {
            return Ok(false);
        }
    }
    Ok(rest == 0)
}

/// Whether the elements are as the order by chains has them.
fn present_by_chains<S: Sequence>(alloc: Global, s: &S) -> Result<bool, AllocError> {
    let mut inserts = Vec::new(alloc);
    for i in 0..s.all() {
        if let Some(e) = s.element(s.all() - 1 - i) {
            inserts.push(Insertion {
                id: e.id,
                after: e.after,
                ch: e.ch,
            })?;
        }
    }
    if !is_tree(&inserts) {
        return Ok(false);
    }
    let list = in_order(alloc, &inserts)?;
    for i in 0..list.len() {
        let e = &list[i];
        match s.element(i) {
            Some(other) if other.id.is(&e.id) => {}
            _ => return Ok(false),
        }
    }
    Ok(list.len() == s.all())
}

#[test]
fn any_order_of_arrival_shows_one_text(rt: HostRuntime) -> Result<(), Fail> {
    let three = [
        step_of('u'),
        step_of('v'),
        step_of('w'),
        step_of('x'),
        step_of('y'),
    ];
    assert_eq!(rt; count_orders(&rt, rt.alloc(), "a", &three, "yaxwuv")?, 60);
    let two = [step_of('X'), step_of('P'), step_of('Y'), step_of('Q')];
    assert_eq!(rt; count_orders(&rt, rt.alloc(), "abc", &two, "aYQXPbc")?, 6);
    Ok(())
}

/// Each call of a sequence, at the text `aZc` with the deleted `b` before `Z`.
fn reads<S: Sequence>(rt: &impl Abort, alloc: Global) -> Result<(), Fail> {
    let mut s = S::new(alloc);
    s.reserve(5)?;
    take_all(rt, &mut s, "abc-Z")?;
    let (a, b, c, z) = (id(1, 1), id(2, 1), id(3, 1), id(4, 2));
    assert_eq!(rt; (s.len(), s.all()), (3, 4));
    assert_eq!(rt;
        (s.char_at(0), s.char_at(1), s.char_at(2), s.char_at(3)),
        (Some('a'), Some('Z'), Some('c'), None)
    );
    assert_eq!(rt;
        (s.id_at(0), s.id_at(1), s.id_at(3)),
        (Some(a), Some(z), None)
    );
    assert_eq!(rt;
        (
            s.position(&a),
            s.position(&b),
            s.position(&z),
            s.position(&c)
        ),
        (Some(0), Some(1), Some(1), Some(2))
    );
    assert_eq!(rt; s.position(&id(9, 1)), None);
    assert_eq!(rt; (s.contains(&b), s.contains(&id(9, 1))), (true, false));
    assert_eq!(rt; s.can_insert(&id(9, 1), &Place::After(b)), true);
    assert_eq!(rt; s.can_insert(&c, &Place::Start), false);
    assert_eq!(rt; s.can_insert(&id(9, 1), &Place::After(id(9, 2))), false);
    assert_eq!(rt; s.can_insert(&id(3, 0), &Place::After(c)), false);
    assert_eq!(rt; s.deletes(), [(b, id(5, 1))].as_slice());
    let second = Element {
        id: b,
        after: Place::After(a),
        ch: 'b',
        deleted: true,
    };
    assert_eq!(rt; (s.element(1), s.element(4)), (Some(second), None));
    Ok(())
}

#[test]
fn a_plain_sequence_answers_each_call(rt: HostRuntime) -> Result<(), Fail> {
    reads::<PlainSequence>(&rt, rt.alloc())
}

/// An insert and its delete once room for both is there: neither can fail.
fn put_and_delete<S: Sequence>(
    s: &mut S,
    id: OpId,
    after: Place,
    ch: char,
) -> Result<(), AllocError>
    requires { CanInsert (S.placed s.old) id after }
{
    s.reserve(2)?;
    match s.insert(id, after, ch) {
        Ok(()) => {}
        Err(_) => unreachable!(),
    }
    match s.delete(id, id) {
        Ok(()) => {}
        Err(_) => unreachable!(),
    }
    Ok(())
}

#[test]
fn what_has_room_does_not_fail(rt: HostRuntime) -> Result<(), Fail> {
    let mut s = PlainSequence::new(rt.alloc());
    assert!(rt; s.can_insert(&id(1, 1), &Place::Start));
    put_and_delete(&mut s, id(1, 1), Place::Start, 'a')?;
    assert_eq!(rt; (s.len(), s.all()), (0, 1));
    Ok(())
}

/// With one allocation refused, as `rt try --test --fail-alloc N` does for each N, the call that met it changes nothing,
/// and goes through when it is made again.
#[test]
fn a_refusal_changes_nothing(rt: HostRuntime) -> Result<(), Fail> {
    let mut s = PlainSequence::new(rt.alloc());
    let rows = [
        ('a', "", "a"),
        ('b', "a", "ab"),
        ('-', "ab", "a"),
        ('c', "a", "ac"),
        ('X', "ac", "aXc"),
        ('Y', "aXc", "aYXc"),
        ('q', "aYXc", "qaYXc"),
    ];
    for (name, before, after) in rows {
        if take(&mut s, step_of(name)).is_err() {
            assert!(rt; shows(&s, before), "a refusal at {name}");
            take(&mut s, step_of(name))?;
        }
        assert!(rt; shows(&s, after), "after {name}");
    }
    assert_eq!(rt; (s.all(), s.deletes().len()), (6, 1));
    Ok(())
}

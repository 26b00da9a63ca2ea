//! The lines of a script, as they are to be.

ghost use Rattle.std.specs.Prelude.{◌≡◌, ◌+◌, [], ◌∷◌, ◌++◌, length, take, MatchOption};
ghost use Rattle.tp_simulate.specs.Shapes.{IsNoneOf, event_words};

/// How a line of a script is to be that begins with this word and a blank; `None` where none does.
pub fn shape_of(word: &str) -> Option<&'static str>
    ensures { MatchOption result (IsNoneOf word.now event_words)
        (λ shape. take (length word.now + 1) shape.now ≡ word.now ++ 32 ∷ []) }
{
    match word {
        "start" => Some("start ACTOR"),
        "fork" => Some("fork P ACTOR"),
        "edit" => Some("edit P AT DEL TEXT"),
        "merge" => Some("merge P Q"),
        "send" => Some("send P Q"),
        "deliver" => Some("deliver N P"),
        "bytes" => Some("bytes P Q HEX"),
        "crash" => Some("crash P ACTOR, or crash P ACTOR KEPT and a line of P that appends"),
        "fail" => Some("fail P KEPT"),
        "mark" => Some("mark M P"),
        "read" => Some("read P"),
        "readat" => Some("readat P M, where a mark named M"),
        _ => None,
    }
}

//! Laws of pages: public functions whose contract is the law and whose body is empty.

ghost use Rattle.std.specs.Prelude.{◌++◌, ◌↔◌, ℕ, List, None, Some, String, Vec, length};
ghost use Rattle.std.specs.declared.alloc.Global.{Global};
ghost use Rattle.tp_layout.specs.declared.parts.ChangeParts.{ChangeParts};
ghost use Rattle.tp_history.specs.Heads.{heads as heads_of};
ghost use Rattle.tp_history.specs.Sound.{Sound};
ghost use Rattle.tp_opid.specs.declared.hash.Hash.{Hash as HashOf};
ghost use Rattle.tp_peer.specs.PeerState.{PeerState};
ghost use Rattle.tp_window.specs.Numbers.{HadHeads};
ghost use Rattle.tp_window.specs.Outcomes.{IsMadeBy, IsNewsSince, IsTypedEdit};
ghost use Rattle.tp_window.specs.Requests.{MayEditAs, SpellHashes, by_number, by_texts};
ghost use Rattle.tp_window.specs.Windows.{IsNews, Page, ShowsText, with_news};
ghost use Rattle.tp_window.specs.declared.memory.Memory.{Memory};
ghost use Rattle.tp_window.specs.declared.news.News.{News as NewsOf};
ghost use Rattle.tp_window.specs.declared.outcome.Resumed.{Resumed};
ghost use Rattle.tp_window.specs.declared.request.TypedSplice.{TypedSplice};
ghost use Rattle.tp_window.specs.declared.window.Edited.{Edited};
ghost use Rattle.tp_window.specs.declared.window.Window.{Window};

/// A page that showed the text at its heads shows, with what is new since then, the text at the heads now, whatever entered
/// meanwhile.
pub fn a_page_follows()
    ensures { (C D : List ChangeParts) (page : Page) (news : NewsOf) → Sound (C ++ D)
        → ShowsText C page → IsNews (C ++ D) page.heads news
        → ShowsText (C ++ D) (with_news page news) }
{}

/// What a request with the number of an answer does, and what it comes to, is what the same request does and comes to with a list
/// of the heads of that answer.
pub fn a_number_means_its_heads()
    ensures edits { (window : Window) (number : ℕ) (H : List HashOf) (texts : Vec (String Global) Global)
        (splices : Vec TypedSplice Global) → HadHeads window.memory number H
        → SpellHashes texts.items H → (time : ℕ) (p p' : PeerState)
        → MayEditAs window (by_number number splices) time p p'
        ↔ MayEditAs window (by_texts texts splices) time p p' }
    ensures edited { (window : Window) (number : ℕ) (H : List HashOf) (texts : Vec (String Global) Global)
        (splices : Vec TypedSplice Global) → HadHeads window.memory number H
        → SpellHashes texts.items H → (time : ℕ) (p p' : PeerState) (edited : Edited)
        → IsTypedEdit window (by_number number splices) time p p' edited
        ↔ IsTypedEdit window (by_texts texts splices) time p p' edited }
    ensures looked { (memory : Memory) (number : ℕ) (H : List HashOf) (texts : Vec (String Global) Global)
        → HadHeads memory number H → SpellHashes texts.items H
        → (C : List ChangeParts) (news : NewsOf)
        → IsNewsSince memory None (Some number) C news ↔ IsNewsSince memory (Some texts) None C news }
{}

/// A page that resumes by how many changes an answer counted is answered what one is that lists the heads of that answer, whatever
/// entered meanwhile.
pub fn a_count_means_its_heads()
    ensures { (C D : List ChangeParts) (texts : Vec (String Global) Global) → SpellHashes texts.items (heads_of C)
        → (who : List ℕ) (resumed : Resumed)
        → IsMadeBy who None (Some (length C)) (C ++ D) resumed ↔ IsMadeBy who (Some texts) None (C ++ D) resumed }
{}

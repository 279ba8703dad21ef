//! Worked examples: bytes, and the text for them. Each function does nothing; its contract states what the definitions give, and
//! the proof computes it.
#![tactic(auto)]

ghost use Rattle.std.specs.Prelude.{◌≡◌, Ok, Err, codes};
ghost use Rattle.sal_owner_script.specs.Replies.{owner_text};

/// The owner unregisters, and the next candidate owns the switch. The watcher gets each change once.
pub fn handed_over()
    ensures { owner_text (codes "[[0,\"watch\",\"sw\"],[0,\"register\",\"sw\",\"s1\"],[1,\"register\",\"sw\",\"s1\"],[1,\"state\",\"sw\",\"s1\"],[0,\"unregister\",\"sw\",\"s1\"],[0,\"changes\"],[1,\"unregister\",\"sw\",\"s1\"],[0,\"changes\"],[0,\"changes\"],[1,\"unregister\",\"sw\",\"s1\"]]")
        ≡ Ok (codes "0 watching []\n1 ok\n2 ok\n3 owned-by-other\n4 ok\n5 changes [[\"sw\",\"s1\",false,true,true],[\"sw\",\"s1\",true,false,true]]\n6 ok\n7 changes [[\"sw\",\"s1\",false,false,false]]\n8 changes []\n9 refused not-candidate\n") }
{}

/// A second `register` or `watch` is refused. The reply to a watch has the owned entities.
pub fn twice()
    ensures { owner_text (codes "[[0,\"register\",\"sw\",\"s1\"],[1,\"watch\",\"sw\"],[0,\"register\",\"sw\",\"s1\"],[1,\"watch\",\"sw\"],[1,\"state\",\"sw\",\"s2\"]]")
        ≡ Ok (codes "0 ok\n1 watching [[\"s1\",false]]\n2 refused already-candidate\n3 refused already-watching\n4 no-owner\n") }
{}

/// A text is written as JSON: quotation marks and control characters as escapes, and other characters as they are.
pub fn escaped()
    ensures { owner_text (codes "[[15,\"watch\",\"\\u0073\"],[15,\"register\",\"s\",\"a\\\"\\t\\u001F\\u007a\"],[15,\"changes\"]]")
        ≡ Ok (codes "0 watching []\n1 ok\n2 changes [[\"s\",\"a\\\"\\t\\u001fz\",false,true,true]]\n") }
{}

/// The first bad input.
pub fn bad_places()
    ensures json { owner_text (codes "[") ≡ Err (codes "json") }
    ensures array { owner_text (codes "{}") ≡ Err (codes "script") }
    ensures client { owner_text (codes "[[16,\"changes\"]]") ≡ Err (codes "0") }
    ensures word { owner_text (codes "[[0,\"changes\"],[0,\"change\"]]") ≡ Err (codes "1") }
    ensures more { owner_text (codes "[[0,\"changes\",0]]") ≡ Err (codes "0") }
{}

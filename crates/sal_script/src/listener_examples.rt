//! Worked examples of listeners in scripts. Each function does nothing; its contract states what the definitions give, and the
//! proof computes it.
ghost use Rattle.std.specs.Prelude.{◌≡◌, [], ◌∷◌, Some, Ok, Err, codes};
ghost use Rattle.serde_json.specs.Written.{compact_text};
ghost use Rattle.sal_types.specs.declared.value.Cell.TheVariants.{Mark};
ghost use Rattle.sal_types.specs.declared.value.Step.TheVariants.{Node};
ghost use Rattle.sal_types.specs.declared.value.Store.TheVariants.{Oper};
ghost use Rattle.sal_rows.specs.declared.outcome.CallFault.TheVariants.{NoListener, TooManyListeners};
ghost use Rattle.sal_history.specs.declared.reply.Reply.TheVariants.{Batch, Listener, Refused};
ghost use Rattle.sal_script.specs.declared.reply.StepRefusal.TheVariants.{NoDevice};
ghost use Rattle.sal_script.specs.declared.reply.StepReply.TheVariants.{Mirror as Mirrored};
ghost use Rattle.sal_script.specs.BatchData.{cell_data};
ghost use Rattle.sal_script.specs.Moves.{Listen, Take, Unlisten, Mirror};
ghost use Rattle.sal_script.specs.Script.{script_of};
ghost use Rattle.sal_script.specs.Report.{call_text, refusal_text, reply_text};
ghost use Rattle.sal_script.specs.Examples.{a, delete, opened, plain_script, put, run, run_over, table};
ghost use Rattle.sal_script.specs.ListenerExamples.{appears_report, disappears_report, equal_report, follows, follows_report, goes, refused_locally, refused_locally_report, watched};

/// The steps of listeners; and arrays that are none.
pub fn listener_steps_read()
    ensures listen { script_of (codes "{\"clients\":[{\"steps\":[[\"listen\",255,7,\"operational\",\"/\"],[\"take\",255]]}]}") ≡ Ok (plain_script ((Listen 255 7 Oper (codes "/") ∷ Take 255 ∷ []) ∷ []) []) }
    ensures others { script_of (codes "{\"clients\":[{\"steps\":[[\"unlisten\",0],[\"mirror\",9]]}]}") ≡ Ok (plain_script ((Unlisten 0 ∷ Mirror 9 ∷ []) ∷ []) []) }
    ensures large { script_of (codes "{\"clients\":[{\"steps\":[[\"take\",256]]}]}") ≡ Err (codes "clients/0/0") }
    ensures fewer { script_of (codes "{\"clients\":[{\"steps\":[[\"mirror\",0],[\"listen\",0,\"config\",\"/\"]]}]}") ≡ Err (codes "clients/0/1") }
{}

/// The texts of the replies to listeners' steps.
pub fn listener_words()
    ensures opened { call_text (table ∷ []) (Listener 12 0 (Node 0 ∷ Node 1 ∷ []) (record { version = 3; rows = opened })) ≡ codes "listener 12 3 \"o\"" }
    ensures root { call_text (table ∷ []) (Listener 1 0 [] (record { version = 0; rows = [] })) ≡ codes "listener 1 0 {}" }
    ensures batch { call_text (table ∷ []) (Batch 0 goes) ≡ codes "batch 1 2 [[2,\"DELETE\",[[\"/plain:box/a\",\"o\",null]]]]" }
    ensures mirror { reply_text (table ∷ []) (Mirrored 0 (Node 0 ∷ []) 10 []) ≡ codes "mirror 10 absent" }
    ensures mark { compact_text (cell_data table [] (Some Mark)) ≡ codes "{}" }
    ensures no_listener { call_text (table ∷ []) (Refused (NoListener 7)) ≡ codes "refused no-listener 7" }
    ensures too_many { call_text (table ∷ []) (Refused TooManyListeners) ≡ codes "refused too-many-listeners" }
    ensures no_device { refusal_text (table ∷ []) NoDevice ≡ codes "no-device" }
{}

/// A container appears with its first leaf.
pub fn a_container_appears()
    ensures { run (watched (put a "x") ∷ []) (0 ∷ 0 ∷ 0 ∷ 0 ∷ 0 ∷ []) ≡ codes appears_report }
{}

/// It disappears with its last leaf.
pub fn a_container_disappears()
    ensures { run_over opened (watched (delete a) ∷ []) (0 ∷ 0 ∷ 0 ∷ 0 ∷ 0 ∷ []) ≡ codes disappears_report }
{}

/// A mirror stays at the version of its last batch, also when the listener is removed.
pub fn a_mirror_follows()
    ensures { run_over opened (follows ∷ []) (0 ∷ 0 ∷ 0 ∷ 0 ∷ 0 ∷ 0 ∷ 0 ∷ []) ≡ codes follows_report }
{}

/// A commit that writes the value that is already there is in the batch's span, and has no part.
pub fn an_equal_value()
    ensures { run_over opened (watched (put a "o") ∷ []) (0 ∷ 0 ∷ 0 ∷ 0 ∷ 0 ∷ []) ≡ codes equal_report }
{}

/// A step that the client refuses itself makes no call: the domain is checked before the path.
pub fn refused_without_a_call()
    ensures { run (refused_locally ∷ []) (0 ∷ []) ≡ codes refused_locally_report }
{}

//! Worked examples. Each function does nothing; its contract states what the definitions give, and the proof computes it.
ghost use Rattle.std.specs.Prelude.{◌≡◌, [], ◌∷◌, None, Some};
ghost use Rattle.sal_types.specs.declared.value.Store.TheVariants.{Config};
ghost use Rattle.sal_rows.specs.declared.outcome.ClashKind.TheVariants.{Changed};
ghost use Rattle.sal_rows.specs.declared.outcome.Mode.TheVariants.{Rw};
ghost use Rattle.sal_rows.specs.declared.outcome.Outcome.TheVariants as outcome;
ghost use Rattle.sal_history.specs.declared.call.Call.TheVariants as call;
ghost use Rattle.sal_history.specs.declared.reply.Reply.TheVariants as reply;
ghost use Rattle.sal_shapes.specs.declared.scene.Act.TheVariants.{Joins, Sets, Spans};
ghost use Rattle.sal_shapes.specs.declared.scene.Pin.TheVariants as pin;
ghost use Rattle.sal_shapes.specs.declared.scene.Style.TheVariants as style;
ghost use Rattle.sal_draw.specs.Acts.{entry_acts, made_in, note, note_acts, reply_acts};

/// A conflict has a line from the commit that it names, and a failed chain one from the submission with which it failed.
pub fn refusals_are_joined()
    ensures conflict { reply_acts [] (call.Settle 2) (reply.Settled 1 (outcome.Conflict Config [] Changed 3)) ≡ Joins style.Clash (pin.Commit 1 3) ∷ [] }
    ensures chain { reply_acts [] (call.Settle 2) (reply.Settled 1 (outcome.ChainFailed 1)) ≡ Joins style.Fails (pin.Receipt 1) ∷ [] }
{}

/// A settle of receipt 2 decides receipt 1 too: both commits are at its entry, and its own has a line.
pub fn a_settle_decides_those_before()
    ensures { entry_acts (made_in (Some (record { domain = 0; number = 1 }) ∷ Some (record { domain = 3; number = 7 }) ∷ [])) (record { decided = 0; chains = []; offers = [] }) 5 (call.Settle 2) (reply.Settled 3 (outcome.Done 7))
        ≡ Sets (pin.Entry 5)
        ∷ Sets (pin.Commit 0 1)
        ∷ Joins style.Makes (pin.Commit 0 1)
        ∷ Sets (pin.Commit 3 7)
        ∷ Joins style.Makes (pin.Commit 3 7)
        ∷ Joins style.Told (pin.Commit 3 7)
        ∷ [] }
{}

/// Notification 4 was offered twice and 6 once; a client that takes the second 4 and the 6 has a line from the offer of each.
pub fn notifications_are_joined()
    ensures offered { note_acts ((4, 1) ∷ []) (call.Offer 4 []) (reply.Offered 2) ≡ Sets (pin.Offer 4 1) ∷ [] }
    ensures taken { note_acts ((4, 2) ∷ (6, 1) ∷ []) call.TakeNotes (reply.Notes (note 4 ∷ note 6 ∷ [])) ≡ Joins style.Hands (pin.Offer 4 1) ∷ Joins style.Hands (pin.Offer 6 0) ∷ [] }
    ensures twice { note_acts ((4, 3) ∷ []) call.TakeNotes (reply.Notes (note 4 ∷ note 4 ∷ [])) ≡ Joins style.Hands (pin.Offer 4 1) ∷ Joins style.Hands (pin.Offer 4 2) ∷ [] }
{}

/// A transaction of a chain has a line from the chain's last submission while that is pending.
pub fn a_chain_is_joined()
    ensures { reply_acts (4 ∷ []) (call.ChainBegin 1 Rw) (reply.Begun 2 (Some 9))
        ≡ Joins style.Chained (pin.Chain 1) ∷ Sets (pin.Chain 1) ∷ Joins style.Stands (pin.Receipt 9) ∷ [] }
{}

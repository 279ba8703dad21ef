//! Worked examples of notifications. Each function does nothing; its contract states what the definitions give for some calls, and the
//! proof computes it.
#![tactic(auto)]

ghost use Rattle.std.specs.Prelude.{◌≡◌, [], ◌∷◌, ◌++◌, Some, slice_get};
ghost use Rattle.sal_note.specs.declared.call.NoteCall.TheVariants.{Subscribe, Offer, TakeNotes};
ghost use Rattle.sal_note.specs.declared.call.NoteFault.TheVariants.{NoteRejected};
ghost use Rattle.sal_note.specs.declared.call.NoteReply.TheVariants.{Accepted, Offered, Notes, Refused};
ghost use Rattle.sal_note.specs.Examples.{by, note, replies, rows, times};
ghost use Rattle.sal_note.specs.Queues.{made_of, queue};

/// A client that subscribes between two offers gets only the second one. Taken notifications are no longer in the queue.
pub fn subscribed_between_two_offers()
    ensures { replies (by 1 (Subscribe 5) ∷ by 0 (Offer 5 (rows 7)) ∷ by 2 (Subscribe 5) ∷ by 0 (Offer 5 (rows 8)) ∷ by 1 TakeNotes ∷ by 2 TakeNotes ∷ by 1 TakeNotes ∷ [])
        ≡ Accepted ∷ Offered 1 ∷ Accepted ∷ Offered 2 ∷ Notes (note 5 7 ∷ note 5 8 ∷ []) ∷ Notes (note 5 8 ∷ []) ∷ Notes [] ∷ [] }
{}

/// A client that subscribes twice counts once. An offer without subscribers goes to no client. Notifications of
/// all kinds wait in one queue, in order.
pub fn subscribed_twice()
    ensures { replies (by 0 (Offer 5 (rows 7)) ∷ by 1 (Subscribe 5) ∷ by 1 (Subscribe 5) ∷ by 1 (Subscribe 6) ∷ by 0 (Offer 6 (rows 8)) ∷ by 0 (Offer 5 (rows 9)) ∷ by 1 TakeNotes ∷ [])
        ≡ Offered 0 ∷ Accepted ∷ Accepted ∷ Accepted ∷ Offered 1 ∷ Offered 1 ∷ Notes (note 6 8 ∷ note 5 9 ∷ []) ∷ [] }
{}

/// The 65th notification that would wait for one of two subscribers is refused as a whole: the other does not get it, either. After
/// the full queue was taken, the next offer is accepted.
pub fn a_full_queue()
    ensures full { slice_get (replies (by 1 (Subscribe 5) ∷ times 63 (by 0 (Offer 5 (rows 7))) ++ by 2 (Subscribe 5) ∷ by 0 (Offer 5 (rows 7)) ∷ by 0 (Offer 5 (rows 8)) ∷ [])) 66 ≡ Some (Refused (NoteRejected 1)) }
    ensures other { queue (made_of (by 1 (Subscribe 5) ∷ times 63 (by 0 (Offer 5 (rows 7))) ++ by 2 (Subscribe 5) ∷ by 0 (Offer 5 (rows 7)) ∷ by 0 (Offer 5 (rows 8)) ∷ [])) 2 ≡ note 5 7 ∷ [] }
{}
